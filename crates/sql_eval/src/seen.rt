//! Values as tests see them.

ghost use Rattle.std.specs.Prelude.{◌≡◌};
ghost use Rattle.std.specs.Str.{chars};
ghost use Rattle.event_schema.specs.Rows.{first_values};
ghost use Rattle.sql_lang.specs.Meaning as meaning;
ghost use Rattle.sql_lang.specs.View.{operand_view};
ghost use Rattle.sql_eval.specs.View.{seen_view, seen_option_view};

use event_schema::{Event, Value, decimal_in};
use itoa::Buffer;
use sql_lang::Operand;

/// A value of a column or of a literal, without a copy.
#[derive(Clone, Copy)]
pub enum Seen<'a> {
    Text(&'a str),
    Whole(i64),
}

fn see(value: &Value) -> Seen<'_>
    ensures { seen_view result ≡ value.now }
{
    match value {
        Value::Text(text) => Seen::Text(text.as_str()),
        Value::Whole(number) => Seen::Whole(*number),
    }
}

/// The value of a column: the first of its field's; none behind the last field.
#[tactic(auto, using(crate::proofs::Columns::column_at))]
pub fn column(event: &Event, field: usize) -> Option<Seen<'_>>
    ensures { seen_option_view result ≡ meaning.value_at (first_values event.now.values) field }
{
    match event.get(field) {
        Some(value) => Some(see(value)),
        None => None,
    }
}

pub fn operand<'a>(operand: &'a Operand, event: &'a Event) -> Option<Seen<'a>>
    ensures { seen_option_view result ≡ meaning.operand_value (first_values event.now.values) (operand_view operand.now) }
{
    match operand {
        Operand::Column(field) => column(event, *field),
        Operand::Text(text) => Some(Seen::Text(text.as_str())),
        Operand::Whole(number) => Some(Seen::Whole(*number)),
    }
}

/// The text of a value; a number's decimal is written into the buffer.
pub fn text_in<'a>(seen: Seen<'a>, buffer: &'a mut Buffer) -> &'a str
    ensures { chars result.now ≡ meaning.text_of (seen_view seen.entry) }
{
    match seen {
        Seen::Text(text) => text,
        Seen::Whole(number) => decimal_in(buffer, number),
    }
}
