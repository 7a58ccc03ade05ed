//! Moments of events.

ghost use Rattle.std.specs.Prelude.{◌≡◌};
ghost use Rattle.event_read.specs.Moments as spec;
ghost use Rattle.event_schema.specs.Occurrence.{IsMomentIfAny};
ghost use Rattle.serde_json.specs.View.{view};

use crate::path::find;
use event_schema::Schema;
use event_time::moment_in;
use serde_json::Value;

/// The moment of an event, if its schema has one and it is there.
pub(super) fn moment_of(schema: &Schema, value: &Value) -> Option<i128>
    ensures value { result ≡ spec.moment_of schema.now.time (view value.now) }
    ensures bounds { IsMomentIfAny result }
{
    let Some(time) = &schema.time else {
        return None;
    };
    match find(value, time.at.as_slice()) {
        Some(found) => moment_in(time.form, found),
        None => None,
    }
}
