//! The schema, and the events that are drawn.

ghost use Rattle.std.specs.Prelude.{◌≡◌, true, IfOk, IfErr};
ghost use Rattle.sig_base.specs.Texts.{is_ascii};
ghost use Rattle.generate_run.specs.Events as spec;

use crate::draws::{after_three, first_draw, second_draw, third_draw};
use crate::words::{ascii_text, word};
use event_schema::{Event, Field, FieldKind, FieldList, FieldValues, Schema, Value};
use sig_base::{Fault, Texts};
use std::alloc::Global;

fn make_field(alloc: Global, name: &str, kind: FieldKind) -> Result<Field, Fault>
    requires { is_ascii name.now ≡ true }
    ensures ok { IfOk result (λ field. field ≡ spec.field name.now kind) }
    ensures err { IfErr result (λ e. e ≡ Fault.Memory) }
{
    let mut at = Texts::new(alloc);
    at.push(ascii_text(alloc, name)?)?;
    Ok(Field {
        name: ascii_text(alloc, name)?,
        kind,
        at,
        search: false,
        cased: false,
        many: false,
    })
}

/// The schema of the events: the texts `Image` and `User`, and the whole number `Code`; only want of memory is answered.
pub fn make_schema(alloc: Global) -> Result<Schema, Fault>
    ensures ok { IfOk result (λ schema. schema ≡ spec.schema) }
    ensures err { IfErr result (λ e. e ≡ Fault.Memory) }
{
    let mut fields = FieldList::new(alloc);
    fields.push(make_field(alloc, "Image", FieldKind::Text)?)?;
    fields.push(make_field(alloc, "User", FieldKind::Text)?)?;
    fields.push(make_field(alloc, "Code", FieldKind::Whole)?)?;
    Ok(Schema {
        table: ascii_text(alloc, "events")?,
        fields,
        time: None,
    })
}

fn text_values(alloc: Global, number: u32) -> Result<FieldValues, Fault>
    ensures ok { IfOk result (λ values. values ≡ spec.text_values number) }
    ensures err { IfErr result (λ e. e ≡ Fault.Memory) }
{
    if number < 8 {
        let text = ascii_text(alloc, word(number))?;
        return Ok(FieldValues::one(Value::Text(text)));
    }
    Ok(FieldValues::none())
}

fn number_values(number: u32) -> FieldValues
    ensures { result ≡ spec.number_values number }
{
    if number < 100 {
        return FieldValues::one(Value::Whole(number as i64));
    }
    FieldValues::none()
}

/// The event that three draws from a state make; only want of memory is answered.
fn make_event(alloc: Global, state: u32) -> Result<Event, Fault>
    ensures ok { IfOk result (λ event. event ≡ spec.event_from state) }
    ensures err { IfErr result (λ e. e ≡ Fault.Memory) }
{
    let mut values = Vec::with_capacity(alloc, 3)?;
    values.push(text_values(alloc, first_draw(state) % 10)?)?;
    values.push(text_values(alloc, second_draw(state) % 10)?)?;
    values.push(number_values(third_draw(state) % 120))?;
    Ok(Event::new(values, None))
}

/// So many events, each from the state that the one before it left; only want of memory is answered.
#[tactic(auto, using(crate::proofs::Drawn::one_more, crate::proofs::Drawn::no_more))]
pub fn make_events(alloc: Global, state: u32, count: u32) -> Result<Vec<Event>, Fault>
    ensures ok { IfOk result (λ events. events.items ≡ spec.events_from state count) }
    ensures err { IfErr result (λ e. e ≡ Fault.Memory) }
{
    let mut events = Vec::with_capacity(alloc, count as usize)?;
    let mut state = state;
    for _ in 0..count {
        events.push(make_event(alloc, state)?)?;
        state = after_three(state);
    }
    Ok(events)
}
