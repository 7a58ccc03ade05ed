//! From bytes to the events that are selected, by hand.

ghost use Rattle.std.specs.Prelude.{◌≡◌, ◌≤◌, ◌↔◌, true, IfOk, length};
ghost use Rattle.std.specs.Str.{chars};
ghost use Rattle.event_schema.specs.Events.{IsEvent, IsOfKind, IsPlainText};
ghost use Rattle.event_schema.specs.Lists.{EachOf};
ghost use Rattle.event_schema.specs.declared.schema.FieldKind.TheVariants as kinds;

use event_schema::{Event, Field, FieldKind, FieldList, FieldValues, Schema, Value};
use query_lang::{Asker, Builder, Language, Selector};
use sig_base::{Fault, Limits, Text, Texts};
use std::alloc::Global;
use std::test::Fail;

/// Asks of one event twice.
#[derive(Drop)]
struct Twice<'e> {
    schema: &'e Schema,
    event: &'e Event,
}

impl<'e> Asker for Twice<'e> {
    type Answer = (bool, bool);

    ghost can_ask = { λ t. IsEvent t.schema.now.fields t.event.now.values };

    ghost asked = { λ picks old new answer. ((answer.0 ≡ true) ↔ picks old.event.now.values) × ((answer.1 ≡ true) ↔ picks old.event.now.values) };

    fn ask<S: Selector>(&mut self, _alloc: Global, selector: &mut S) -> (bool, bool) {
        let first = selector.selects(self.schema, self.event);
        (first, selector.selects(self.schema, self.event))
    }
}

/// Reads the bytes and asks of one event, by itself and then as two of many.
fn asked<L: Language, B: Builder>(
    alloc: Global,
    schema: &Schema,
    event: &Event,
    bytes: &[u8],
    builder: &mut B,
) -> Result<(bool, bool, bool), Fault>
where
    L::Query: Drop,
    requires short { length bytes.now ≤ 4194304 }
    requires event { IsEvent schema.now.fields event.now.values }
    ensures { IfOk result (λ (one, two, three). (query : L.Plain) × L.is_query schema.now bytes.now query
        × ((one ≡ true) ↔ L.picks query event.now.values) × ((two ≡ true) ↔ L.picks query event.now.values) × ((three ≡ true) ↔ L.picks query event.now.values)) }
{
    let limits = Limits::standard();
    let mut query = L::read(alloc, &limits, schema, bytes, builder)?;
    let one = L::selects(alloc, &mut query, schema, event)?;
    let mut twice = Twice { schema, event };
    let (two, three) = L::with_selector(alloc, &query, &mut twice)?;
    Ok((one, two, three))
}

/// A schema of one field of texts, `Image`, which keeps its case and may have several values, and an event with these.
fn sample(alloc: Global, values: FieldValues) -> Result<(Schema, Event), Fault>
    requires { EachOf (IsOfKind kinds.Text) values }
    ensures { IfOk result (λ (schema, event). IsEvent schema.fields event.values) }
{
    let field = Field {
        name: Text::copy(alloc, "Image")?,
        kind: FieldKind::Text,
        at: Texts::new(alloc),
        search: false,
        cased: true,
        many: true,
    };
    let mut fields = FieldList::new(alloc);
    fields.push(field)?;
    let mut row = Vec::new(alloc);
    row.push(values)?;
    let schema = Schema {
        table: Text::copy(alloc, "events")?,
        fields,
        time: None,
    };
    Ok((schema, Event::new(row, None)))
}

/// The value of a text.
pub fn text(alloc: Global, text: &str) -> Result<Value, Fault>
    requires { IsPlainText (chars text.now) }
    ensures { IfOk result (λ value. IsOfKind kinds.Text value) }
{
    Ok(Value::Text(Text::copy(alloc, text)?))
}

fn told(alloc: Global, answers: Result<(bool, bool, bool), Fault>) -> Result<String, Fail> {
    match answers {
        Ok((true, true, true)) => Ok(String::from_str(alloc, "yes")?),
        Ok((false, false, false)) => Ok(String::from_str(alloc, "no")?),
        Ok(_) => Ok(String::from_str(alloc, "several answers")?),
        Err(Fault::Memory) => Ok(String::from_str(alloc, "memory")?),
        Err(Fault::Refused(refusal)) => {
            let code = refusal.code.number();
            let line = refusal.place.line;
            let column = refusal.place.column;
            Ok(format!(in alloc; "{code} at {line}:{column}")?)
        }
    }
}

/// Whether an event with these values is selected, or the refusal.
pub fn answer<L: Language, B: Builder>(
    alloc: Global,
    builder: &mut B,
    values: FieldValues,
    bytes: &[u8],
) -> Result<String, Fail>
where
    L::Query: Drop,
    requires { EachOf (IsOfKind kinds.Text) values }
{
    if bytes.len() > 1000 {
        return Ok(String::from_str(alloc, "too long")?);
    }
    let (schema, event) = sample(alloc, values)?;
    told(alloc, asked::<L, B>(alloc, &schema, &event, bytes, builder))
}
