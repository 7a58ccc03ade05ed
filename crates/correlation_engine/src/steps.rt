//! The two steps by which correlations take an event: one that may lack memory, and one that takes none.

ghost use Rattle.std.specs.Prelude.{◌≡◌, ◌++◌, ◌+◌, ◌-◌, ◌<◌, ◌≤◌, ◌^◌, min, length, IfOk, IfErr};
ghost use Rattle.std.specs.List.{AllByRecursion};
ghost use Rattle.std.specs.Vec.{vec_len, vec_capacity};
ghost use Rattle.event_schema.specs.Occurrence.{IsMoment};
ghost use Rattle.correlation_engine.specs.Arrivals.{taken};
ghost use Rattle.correlation_engine.specs.Steps.{Each, IsTimely, IsGrown, ArePrepared, IsAdvanced, reports_each, total_founds};

use crate::arrival::Arrival;
use crate::watch::{Watch, advance, prepare};
use correlation_windows::{Found, Report};
use sig_base::Fault;
use std::alloc::Global;

/// The matches of an event for each correlation, for which there's room then.
fn prepare_each(
    alloc: Global,
    watches: &mut Vec<Watch>,
    arrival: &Arrival,
) -> Result<Vec<Vec<Found>>, Fault>
    requires moment { IsMoment arrival.now.moment }
    requires timely { AllByRecursion (IsTimely arrival.now.moment) watches.old.items }
    ensures grown { Each IsGrown watches.old.items watches.new.items }
    ensures prepared { IfOk result (λ all. ArePrepared (taken arrival.now) watches.new.items all.items) }
    ensures each { IfOk result (λ all. length all.items ≡ length watches.old.items) }
    ensures err { IfErr result (λ e. e ≡ Fault.Memory) }
{
    let mut all = Vec::new(alloc);
    for place in 0..watches.len() {
        let founds = prepare(alloc, &mut watches[place], arrival)?;
        all.push(founds)?;
    }
    Ok(all)
}

/// How many matches there are for all correlations, or 2^64 - 1 where they're more.
fn count_founds(all: &[Vec<Found>]) -> usize
    ensures { result ≡ min (total_founds all.now) (2 ^ 64 - 1) }
{
    let mut sum: usize = 0;
    for founds in all {
        sum = sum.saturating_add(founds.len());
    }
    sum
}

/// The matches of an event for each correlation, for which there's room then, and for their reports too.
pub(crate) fn prepare_all(
    alloc: Global,
    watches: &mut Vec<Watch>,
    arrival: &Arrival,
    reports: &mut Vec<Report>,
) -> Result<Vec<Vec<Found>>, Fault>
    requires moment { IsMoment arrival.now.moment }
    requires timely { AllByRecursion (IsTimely arrival.now.moment) watches.old.items }
    ensures grown { Each IsGrown watches.old.items watches.new.items }
    ensures prepared { IfOk result (λ all. ArePrepared (taken arrival.now) watches.new.items all.items) }
    ensures each { IfOk result (λ all. length all.items ≡ length watches.old.items) }
    ensures reports { reports.new.items ≡ reports.old.items }
    ensures room { IfOk result (λ all. vec_len reports.new + total_founds all.items ≤ vec_capacity reports.new) }
    ensures err { IfErr result (λ e. e ≡ Fault.Memory) }
{
    let all = prepare_each(alloc, watches, arrival)?;
    reports.reserve(count_founds(all.as_slice()))?;
    Ok(all)
}

/// Lets all correlations take an event with these matches, and adds its reports. Takes no memory.
pub(crate) fn advance_all(
    watches: &mut Vec<Watch>,
    all: Vec<Vec<Found>>,
    arrival: &Arrival,
    reports: &mut Vec<Report>,
)
    requires moment { IsMoment arrival.now.moment }
    requires timely { AllByRecursion (IsTimely arrival.now.moment) watches.old.items }
    requires few { length watches.old.items < 2 ^ 32 }
    requires prepared { ArePrepared (taken arrival.now) watches.old.items all.items }
    requires each { length all.items ≡ length watches.old.items }
    requires room { vec_len reports.old + total_founds all.items ≤ vec_capacity reports.old }
    ensures advanced { Each (IsAdvanced (taken arrival.now)) watches.old.items watches.new.items }
    ensures reports { reports.new.items ≡ reports.old.items ++ reports_each (taken arrival.now) 0 watches.old.items }
{
    let mut place = 0;
    for founds in all {
        advance(&mut watches[place], place as u32, founds, arrival, reports);
        place += 1;
    }
}
