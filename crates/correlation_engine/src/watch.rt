//! A correlation with the matches that are kept for it.

ghost use Rattle.std.specs.Prelude.{◌≡◌, ◌++◌, ◌+◌, ◌-ℤ◌, ◌≤◌, [], length, IfOk, IfErr};
ghost use Rattle.std.specs.Vec.{vec_len, vec_capacity};
ghost use Rattle.event_schema.specs.Occurrence.{IsMoment};
ghost use Rattle.correlation_windows.specs.History.{event_matches};
ghost use Rattle.correlation_windows.specs.Over.{reports_over};
ghost use Rattle.correlation_windows.specs.Queues.{held};
ghost use Rattle.correlation_engine.specs.Arrivals.{taken};
ghost use Rattle.correlation_engine.specs.Limits.{IsWithinLimits};
ghost use Rattle.correlation_engine.specs.Steps.{IsTimely, IsGrown, IsPrepared, IsAdvanced};

use crate::arrival::Arrival;
use crate::event_matches::matches_in;
use correlation_windows::{Bound, Found, Queues, Report};
use sig_base::Fault;
use std::alloc::Global;

/// A correlation with its queues.
#[derive(Drop)]
pub(crate) struct Watch {
    pub bound: Bound,
    pub queues: Queues,
}

/// The moment after which the timespan of an event begins: matches that are not later leave with it.
fn reached_from(bound: &Bound, arrival: &Arrival) -> i128
    requires moment { IsMoment arrival.now.moment }
    requires limits { IsWithinLimits bound.now }
    ensures { result ≡ arrival.now.moment -ℤ bound.now.span }
{
    arrival.moment - bound.span
}

/// The matches of an event, for which there's room then. No match enters or leaves.
pub(crate) fn prepare(
    alloc: Global,
    watch: &mut Watch,
    arrival: &Arrival,
) -> Result<Vec<Found>, Fault>
    requires moment { IsMoment arrival.now.moment }
    requires timely { IsTimely arrival.now.moment watch.old }
    ensures grown { IsGrown watch.old watch.new }
    ensures prepared { IfOk result (λ founds. IsPrepared (taken arrival.now) watch.new founds.items) }
    ensures err { IfErr result (λ e. e ≡ Fault.Memory) }
{
    let matches = matches_in(alloc, &watch.bound, arrival)?;
    let after = reached_from(&watch.bound, arrival);
    let founds = watch.queues.provide(alloc, matches, after)?;
    watch.queues.make_room(&founds)?;
    Ok(founds)
}

/// Takes an event with these matches, and adds its reports. Takes no memory.
pub(crate) fn advance(
    watch: &mut Watch,
    number: u32,
    founds: Vec<Found>,
    arrival: &Arrival,
    reports: &mut Vec<Report>,
)
    requires moment { IsMoment arrival.now.moment }
    requires timely { IsTimely arrival.now.moment watch.old }
    requires prepared { IsPrepared (taken arrival.now) watch.old founds.items }
    requires room { vec_len reports.old + length founds.items ≤ vec_capacity reports.old }
    ensures advanced { IsAdvanced (taken arrival.now) watch.old watch.new }
    ensures reports { reports.new.items ≡ reports.old.items ++ reports_over number watch.old.bound (held watch.old.queues.entries) [] (event_matches watch.old.bound (taken arrival.now)) }
    ensures few { vec_len reports.new ≤ vec_len reports.old + length founds.items }
    ensures capacity { vec_capacity reports.new ≡ vec_capacity reports.old }
{
    let after = reached_from(&watch.bound, arrival);
    watch
        .queues
        .advance(&watch.bound, number, founds, after, reports);
}
