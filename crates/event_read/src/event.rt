//! Events, read from lines.

ghost use Rattle.std.specs.Prelude.{◌≡◌, IfOk};
ghost use Rattle.event_read.specs.Answers.{Answers};
ghost use Rattle.event_read.specs.EventOf as spec;
ghost use Rattle.event_schema.specs.Events.{IsEvent};
ghost use Rattle.serde_json.specs.View.{view};

use crate::json_values::read_json;
use crate::moments::moment_of;
use crate::rows::values_of;
use event_schema::{Event, Schema};
use serde_json::Value;
use sig_base::{Code, Fault, Place, refused};
use std::alloc::Global;

/// The event that a JSON value is.
fn event_of(alloc: Global, schema: &Schema, value: &Value, place: Place) -> Result<Event, Fault>
    ensures taken { Answers place (spec.event_in schema.now (view value.now)) result }
    ensures is_event { IfOk result (λ event. IsEvent schema.now.fields event.values) }
{
    match values_of(alloc, schema.fields.as_slice(), value, place) {
        Ok(values) => Ok(Event::new(values, moment_of(schema, value))),
        Err(fault) => Err(fault),
    }
}

/// Reads the line of this number as an event of the schema. Refusals stand at the line, column 1: 25 where it is no JSON
/// object, else 26, 27 or 28 of the first field that takes nothing of what its keys lead to.
pub fn read_event(alloc: Global, schema: &Schema, number: u32, line: &[u8]) -> Result<Event, Fault>
    ensures taken { Answers (record { line = number; column = 1 }) (spec.event_of schema.now line.now) result }
    ensures is_event { IfOk result (λ event. IsEvent schema.now.fields event.values) }
{
    let place = Place {
        line: number,
        column: 1,
    };
    match read_json(alloc, line) {
        Ok(Some(value)) => event_of(alloc, schema, &value, place),
        Ok(None) => Err(refused(Code::EVENT_JSON, place)),
        Err(fault) => Err(fault),
    }
}
