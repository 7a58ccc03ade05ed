//! The values of an event.

ghost use Rattle.std.specs.Prelude.{◌≡◌, IfOk};
ghost use Rattle.event_read.specs.Answers.{Answers, AnswersAs};
ghost use Rattle.event_read.specs.EventOf as spec;
ghost use Rattle.event_schema.specs.Events.{AreValuesOf, IsEvent};
ghost use Rattle.serde_json.specs.View.{view};

use crate::field_values::take_values;
use crate::path::find;
use event_schema::{Field, FieldValues};
use serde_json::Value;
use sig_base::{Code, Fault, Place, refused};
use std::alloc::Global;

/// What a field takes of an event.
fn field_of(alloc: Global, field: &Field, value: &Value, place: Place) -> Result<FieldValues, Fault>
    ensures taken { Answers place (spec.field_of field.now (view value.now)) result }
    ensures are { IfOk result (λ vs. AreValuesOf field.now vs) }
{
    match find(value, field.at.as_slice()) {
        Some(found) => take_values(alloc, field, found, place),
        None => Ok(FieldValues::none()),
    }
}

/// The values of the fields in their order.
fn row_of(
    alloc: Global,
    fields: &[Field],
    value: &Value,
    place: Place,
) -> Result<Vec<FieldValues>, Fault>
    ensures taken { AnswersAs (λ v. v.items) place (spec.row_of fields.now (view value.now)) result }
    ensures are { IfOk result (λ v. IsEvent fields.now v.items) }
{
    let mut values = Vec::with_capacity(alloc, fields.len())?;
    for field in fields {
        match field_of(alloc, field, value, place) {
            Ok(taken) => values.push(taken)?,
            Err(fault) => return Err(fault),
        }
    }
    Ok(values)
}

/// The values of the event that a JSON value is.
pub(super) fn values_of(
    alloc: Global,
    fields: &[Field],
    value: &Value,
    place: Place,
) -> Result<Vec<FieldValues>, Fault>
    ensures taken { AnswersAs (λ v. v.items) place (spec.values_of fields.now (view value.now)) result }
    ensures are { IfOk result (λ v. IsEvent fields.now v.items) }
{
    if !value.is_object() {
        return Err(refused(Code::EVENT_JSON, place));
    }
    row_of(alloc, fields, value, place)
}
