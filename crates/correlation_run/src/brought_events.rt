//! Bringing events to an engine.

ghost use Rattle.std.specs.Prelude.{◌≡◌, List, OnOk};
ghost use Rattle.answer_writer.specs.Stands.{Writes};
ghost use Rattle.correlation_run.specs.Followed.{AreHits, MomentFollows};
ghost use Rattle.correlation_windows.specs.History.{Taken};
ghost use Rattle.correlation_windows.specs.Kept.{StandsFor};
ghost use Rattle.event_schema.specs.Occurrence.{IsMoment};
ghost use Rattle.event_schema.specs.declared.schema.Schema.{Schema};
ghost use Rattle.rule_model.specs.Plain.{PlainRule};

use crate::report_lines::{put_reports, tell_early};
use answer_writer::{Outside, Stop};
use correlation_engine::{Arrival, Engine, TakeFault};
use sig_base::Text;
use std::alloc::Global;

/// Brings an event to the engine, and writes the reports that follow, or that it comes too early.
pub(crate) fn bring_event<W: Outside>(
    alloc: Global,
    names: &[Text],
    engine: &mut Engine,
    arrival: &Arrival,
    outside: &mut W,
) -> Result<bool, Stop>
    requires { IsMoment arrival.now.moment }
    ensures writes { (schema : Schema) (rules : List PlainRule) (history : List Taken) → AreHits schema.fields rules arrival.now.event.now.values arrival.now.hits.now → StandsFor engine.old history
        → Writes (λ share. (after : List Taken) × MomentFollows (record { schema = schema; rules = rules; bounds = engine.old.bounds; names = names.now }) history arrival.now.line arrival.now.event.now.values arrival.now.moment share after × OnOk result (StandsFor engine.new after)) result (W.state outside.old) (W.state outside.new) }
    ensures bounds { engine.new.bounds ≡ engine.old.bounds }
{
    match engine.take(arrival) {
        Ok(reports) => put_reports(alloc, names, &reports, outside),
        Err(TakeFault::OutOfOrder { moment, last }) => {
            tell_early(alloc, arrival.line, moment, last, outside)
        }
        Err(TakeFault::Memory) => Err(Stop::Memory),
    }
}
