//! The engine that takes events.

ghost use Rattle.std.specs.Prelude.{◌≡◌, ◌++◌, ◌<◌, ◌-◌, ◌^◌, min, [], ◌∷◌, List, Option, Some, length, IfOk, IfErr, OnOk, OnErr};
ghost use Rattle.std.specs.List.{AllByRecursion};
ghost use Rattle.event_schema.specs.Occurrence.{IsMoment};
ghost use Rattle.correlation_windows.specs.History.{Taken, last_moment};
ghost use Rattle.correlation_windows.specs.Kept.{StandsFor, HoldsEach};
ghost use Rattle.correlation_windows.specs.Laws.{IsBehind};
ghost use Rattle.correlation_windows.specs.Reports.{reports};
ghost use Rattle.correlation_engine.specs.Arrivals.{taken};
ghost use Rattle.correlation_engine.specs.Engines.{IsEngine, IsFaultOf, IsNew, total_kept, bounds_of, queues_of};
ghost use Rattle.correlation_engine.specs.Limits.{IsWithinLimits};

use crate::arrival::Arrival;
use crate::fault::TakeFault;
use crate::steps::{advance_all, prepare_all};
use crate::watch::Watch;
use correlation_windows::{Bound, Queues, Report};
use sig_base::Fault;
use std::alloc::Global;
use std::marker::Model;

/// Correlations over the events that were taken. Of these the engine keeps the last moment, and of each correlation the
/// matches that its timespan reaches back from there.
#[derive(Drop)]
pub struct Engine {
    watches: Vec<Watch>,
    last: Option<i128>,
    alloc: Global,
}

impl Model for Engine {
    ghost use Rattle.correlation_windows.specs.Kept.{State};
    ghost use Rattle.correlation_engine.specs.Engines.{IsEngine, bounds_of, queues_of};

    ghost Value = { State };

    ghost view = { λ e. record { bounds = bounds_of e.watches.items; last = e.last; queues = queues_of e.watches.items } };

    ghost invariant = { λ e. IsEngine e.last e.watches.items };
}

/// Refuses an event that is earlier than the last one.
fn in_order(last: Option<i128>, arrival: &Arrival) -> Result<(), TakeFault>
    ensures ok { OnOk result (IsBehind last arrival.now.moment) }
    ensures err { IfErr result (λ fault. IsFaultOf last arrival.now.moment fault) }
{
    match last {
        Some(last) => {
            if arrival.moment < last {
                return Err(TakeFault::OutOfOrder {
                    moment: arrival.moment,
                    last,
                });
            }
            Ok(())
        }
        None => Ok(()),
    }
}

/// Correlations without a match.
fn watches_of(alloc: Global, bounds: Vec<Bound>) -> Result<Vec<Watch>, Fault>
    requires { AllByRecursion IsWithinLimits bounds.items }
    ensures bounds { IfOk result (λ watches. bounds_of watches.items ≡ bounds.items) }
    ensures empty { IfOk result (λ watches. AllByRecursion IsNew watches.items) }
    ensures err { IfErr result (λ e. e ≡ Fault.Memory) }
{
    let mut watches = Vec::with_capacity(alloc, bounds.len())?;
    for bound in bounds {
        let queues = Queues::new(alloc, bound.kind, bound.rules.as_slice().len());
        watches.push(Watch { bound, queues })?;
    }
    Ok(watches)
}

/// How many matches all of these hold, or 2^64 - 1 where they're more.
fn count_held(watches: &[Watch]) -> u64
    ensures { (history : List Taken) → HoldsEach (queues_of watches.now) (bounds_of watches.now) history → result ≡ min (total_kept (bounds_of watches.now) history) (2 ^ 64 - 1) }
{
    let mut sum: u64 = 0;
    for watch in watches {
        sum = sum.saturating_add(watch.queues.held());
    }
    sum
}

/// Takes an event into the queues of all correlations, unless it comes too early or memory is missing.
fn take_in(
    alloc: Global,
    watches: &mut Vec<Watch>,
    last: Option<i128>,
    arrival: &Arrival,
) -> Result<Vec<Report>, TakeFault>
    requires moment { IsMoment arrival.now.moment }
    requires engine { IsEngine last watches.old.items }
    ensures taken { OnOk result (IsEngine (Some arrival.now.moment) watches.new.items) }
    ensures kept { OnErr result (IsEngine last watches.new.items) }
    ensures reports { (history : List Taken) → last ≡ last_moment history → HoldsEach (queues_of watches.old.items) (bounds_of watches.old.items) history → IfOk result (λ all. all.items ≡ reports (bounds_of watches.old.items) history (taken arrival.now)) }
    ensures stands { (history : List Taken) → last ≡ last_moment history → HoldsEach (queues_of watches.old.items) (bounds_of watches.old.items) history → OnOk result (HoldsEach (queues_of watches.new.items) (bounds_of watches.new.items) (history ++ taken arrival.now ∷ [])) }
    ensures stays { (history : List Taken) → HoldsEach (queues_of watches.old.items) (bounds_of watches.old.items) history → OnErr result (HoldsEach (queues_of watches.new.items) (bounds_of watches.new.items) history) }
    ensures bounds { bounds_of watches.new.items ≡ bounds_of watches.old.items }
    ensures in_order { OnOk result (IsBehind last arrival.now.moment) }
    ensures fault { IfErr result (λ fault. IsFaultOf last arrival.now.moment fault) }
{
    in_order(last, arrival)?;
    let mut reports = Vec::new(alloc);
    let Ok(founds) = prepare_all(alloc, watches, arrival, &mut reports) else {
        return Err(TakeFault::Memory);
    };
    advance_all(watches, founds, arrival, &mut reports);
    Ok(reports)
}

impl Engine {
    /// An engine that has taken no event; only want of memory is answered.
    pub fn make(alloc: Global, bounds: Vec<Bound>) -> Result<Engine, Fault>
        requires limits { AllByRecursion IsWithinLimits bounds.items }
        requires few { length bounds.items < 2 ^ 32 }
        ensures bounds { IfOk result (λ engine. engine.bounds ≡ bounds.items) }
        ensures stands { IfOk result (λ engine. StandsFor engine []) }
        ensures err { IfErr result (λ e. e ≡ Fault.Memory) }
    {
        let watches = watches_of(alloc, bounds)?;
        Ok(Engine {
            watches,
            last: None,
            alloc,
        })
    }

    /// Takes an event, whose moment is from -2^100 to 2^100, and gives its reports. An event that isn't taken changes
    /// nothing of what the engine stands for.
    pub fn take(&mut self, arrival: &Arrival) -> Result<Vec<Report>, TakeFault>
        requires { IsMoment arrival.now.moment }
        ensures reports { (history : List Taken) → StandsFor self.old history → IfOk result (λ all. all.items ≡ reports self.old.bounds history (taken arrival.now)) }
        ensures stands { (history : List Taken) → StandsFor self.old history → OnOk result (StandsFor self.new (history ++ taken arrival.now ∷ [])) }
        ensures stays { (history : List Taken) → StandsFor self.old history → OnErr result (StandsFor self.new history) }
        ensures bounds { self.new.bounds ≡ self.old.bounds }
        ensures in_order { OnOk result (IsBehind self.old.last arrival.now.moment) }
        ensures fault { IfErr result (λ fault. IsFaultOf self.old.last arrival.now.moment fault) }
    {
        match take_in(self.alloc, &mut self.watches, self.last, arrival) {
            Ok(all) => {
                self.last = Some(arrival.moment);
                Ok(all)
            }
            Err(fault) => Err(fault),
        }
    }

    /// How many matches are held in all, or 2^64 - 1 where they're more. Takes no memory.
    pub fn held(&self) -> u64
        ensures { (history : List Taken) → StandsFor self.now history → result ≡ min (total_kept self.now.bounds history) (2 ^ 64 - 1) }
    {
        count_held(self.watches.as_slice())
    }
}
