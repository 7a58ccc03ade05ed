//! What is sought in a field's values.

ghost use Rattle.std.specs.Prelude.{◌≡◌, ◌&&◌, true, length};
ghost use Rattle.std.specs.List.{list_any};
ghost use Rattle.std.specs.Str.{bytes_eq, chars};
ghost use Rattle.lucene_eval.specs.Texts.{text_meets};
ghost use Rattle.event_schema.specs.declared.value.Value.TheVariants.{Whole};
ghost use Rattle.lucene_lang.specs.Meaning as meaning;
ghost use Rattle.lucene_lang.specs.Meaning.{kept};
ghost use Rattle.lucene_lang.specs.View.{sought_view};

use crate::terms::is_term;
use event_schema::{Value, decimal_in};
use itoa::Buffer;
use lucene_lang::Sought;
use matching::{Cursor, Step, Taker, matches_whole};
use sig_base::first_char;

/// What is left of a phrase.
#[derive(Clone, Copy)]
struct Left<'a> {
    rest: &'a str,
    cased: bool,
}

impl<'a> Cursor for Left<'a> {
    ghost holds = { λ at text. bytes_eq (kept at.cased (chars at.rest.now)) (kept at.cased text) ≡ true };

    ghost left = { λ at. length at.rest.now };

    fn step(self) -> Step<Left<'a>> {
        let Some((c, rest)) = first_char(self.rest) else {
            return Step::End;
        };
        let next = Left {
            rest,
            cased: self.cased,
        };
        if self.cased {
            return Step::Takes(Taker::Exact(c), next);
        }
        Step::Takes(Taker::Folded(c), next)
    }
}

/// Whether two texts are equal, folded or as they are.
fn same_kept(cased: bool, phrase: &str, text: &str) -> bool
    ensures { result ≡ bytes_eq (kept cased (chars phrase.now)) (kept cased (chars text.now)) }
{
    matches_whole(
        Left {
            rest: phrase,
            cased,
        },
        text,
    )
}

fn is_above(low: Option<i64>, inside: bool, number: i64) -> bool
    ensures { result ≡ meaning.is_above low inside number }
{
    match (low, inside) {
        (None, _) => true,
        (Some(low), true) => low <= number,
        (Some(low), false) => low < number,
    }
}

fn is_below(high: Option<i64>, inside: bool, number: i64) -> bool
    ensures { result ≡ meaning.is_below high inside number }
{
    match (high, inside) {
        (None, _) => true,
        (Some(high), true) => number <= high,
        (Some(high), false) => number < high,
    }
}

/// Whether a text meets a term or a phrase.
fn text_meets(cased: bool, sought: &Sought, text: &str) -> bool
    ensures { result ≡ text_meets cased (sought_view sought.now) (chars text.now) }
{
    match sought {
        Sought::Term(glyphs) => is_term(glyphs.as_slice(), cased, text),
        Sought::Phrase(phrase) => same_kept(cased, phrase.as_str(), text),
        Sought::Range { .. } => false,
    }
}

fn number_meets(cased: bool, sought: &Sought, number: &i64) -> bool
    ensures { result ≡ meaning.value_meets cased (sought_view sought.now) (Whole number.now) }
{
    if let Sought::Range {
        low,
        low_in,
        high,
        high_in,
    } = sought
    {
        return is_above(*low, *low_in, *number) && is_below(*high, *high_in, *number);
    }
    let mut buffer = Buffer::new();
    text_meets(cased, sought, decimal_in(&mut buffer, *number))
}

fn value_meets(cased: bool, sought: &Sought, value: &Value) -> bool
    ensures { result ≡ meaning.value_meets cased (sought_view sought.now) value.now }
{
    match value {
        Value::Text(text) => text_meets(cased, sought, text.as_str()),
        Value::Whole(number) => number_meets(cased, sought, number),
    }
}

/// Whether some of a field's values meets what is sought.
pub(crate) fn field_holds(cased: bool, sought: &Sought, values: &[Value]) -> bool
    ensures { result ≡ meaning.field_holds cased (sought_view sought.now) values.now }
{
    for value in values {
        if value_meets(cased, sought, value) {
            return true;
        }
    }
    false
}
