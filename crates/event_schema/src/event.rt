//! Events.

ghost use Rattle.std.specs.Prelude.{◌≡◌, IfOk, IfErr};
ghost use Rattle.std.specs.Option.{option_copied};
ghost use Rattle.std.specs.Str.{chars};
ghost use Rattle.event_schema.specs.Occurrence.{IsMomentIfAny};
ghost use Rattle.event_schema.specs.Rows.{field_values, first_value, values_at};

use crate::schema::Schema;
use crate::value::Value;
use crate::values::{FieldValues, first_of};
use sig_base::Fault;
use std::alloc::Global;
use std::marker::Model;

/// An event: for each field of its schema a list of values, and its moment, if it has one.
#[derive(Drop, Debug)]
pub struct Event {
    values: Vec<FieldValues>,
    moment: Option<i128>,
}

impl Model for Event {
    ghost use Rattle.event_schema.specs.Occurrence.{Occurrence, IsMomentIfAny};

    ghost Value = { Occurrence };

    ghost view = { λ e. record { values = e.values.items; moment = e.moment } };

    ghost invariant = { λ e. IsMomentIfAny e.moment };
}

/// The values of the field of this number; none behind the last field.
fn values_in(row: &[FieldValues], field: usize) -> &[Value]
    ensures { result.now ≡ field_values row.now field }
{
    if field >= row.len() {
        return &[];
    }
    row[field].as_slice()
}

fn copy_row(alloc: Global, row: &[FieldValues]) -> Result<Vec<FieldValues>, Fault>
    ensures ok { IfOk result (λ v. v.items ≡ row.now) }
    ensures err { IfErr result (λ e. e ≡ Fault.Memory) }
{
    let mut copies = Vec::with_capacity(alloc, row.len())?;
    for values in row {
        copies.push(values.copy(alloc)?)?;
    }
    Ok(copies)
}

impl Event {
    /// The event of these values, in the order of the fields, and of this moment in nanoseconds since 1970 in UTC.
    pub fn new(values: Vec<FieldValues>, moment: Option<i128>) -> Event
        requires { IsMomentIfAny moment }
        ensures values { result.values ≡ values.items }
        ensures moment { result.moment ≡ moment }
    {
        Event { values, moment }
    }

    /// The values of the field of this number, in their order; none behind the last field.
    pub fn values(&self, field: usize) -> &[Value]
        ensures { result.now ≡ field_values self.now.values field }
    {
        values_in(self.values.as_slice(), field)
    }

    /// The first value of the field of this number.
    pub fn get(&self, field: usize) -> Option<&Value>
        ensures { option_copied result ≡ first_value (field_values self.now.values field) }
    {
        first_of(self.values(field))
    }

    /// The values of the field of this name in the event's schema; none where the schema has no such field.
    pub fn values_at(&self, schema: &Schema, name: &str) -> &[Value]
        ensures { result.now ≡ values_at schema.now self.now (chars name.now) }
    {
        match schema.find(name) {
            Some(field) => self.values(field),
            None => &[],
        }
    }

    /// The moment in nanoseconds since 1970 in UTC.
    pub fn moment(&self) -> Option<i128>
        ensures moment { result ≡ self.now.moment }
        ensures bounds { IsMomentIfAny result }
    {
        self.moment
    }

    /// The same event; only want of memory is answered.
    pub fn copy(&self, alloc: Global) -> Result<Event, Fault>
        ensures ok { IfOk result (λ event. event ≡ self.now) }
        ensures err { IfErr result (λ e. e ≡ Fault.Memory) }
    {
        let values = copy_row(alloc, self.values.as_slice())?;
        Ok(Event {
            values,
            moment: self.moment,
        })
    }
}
