//! The values of tests.

ghost use Rattle.std.specs.Prelude.{◌≡◌, ◌∷◌, [], ℕ, List, map};
ghost use Rattle.std.specs.Str.{chars};
ghost use Rattle.event_schema.specs.Rows.{first_values};
ghost use Rattle.query_lang.specs.Patterns.{finds};
ghost use Rattle.sql_lang.specs.Meaning as meaning;
ghost use Rattle.sql_lang.specs.View.{test_view, side_view, operand_view, op_view};
ghost use Rattle.sql_eval.specs.Searches.{left_of, test_patterns, Values};
ghost use Rattle.sql_eval.specs.View.{truth_view, seen_option_view};

use crate::comparisons::{chosen, compared};
use crate::finders::Finders;
use crate::seen::{Seen, column, operand, text_in};
use crate::truth::{Truth, both, either, negated_if, truth_of};
use event_schema::Event;
use itoa::Buffer;
use sql_lang::{Operand, Side, SqlOp, SqlTest};
use sql_like::{is_glob, is_like};

fn null_value(value: Option<Seen>) -> Truth
    ensures { truth_view result ≡ meaning.truth (meaning.is_absent (seen_option_view value.entry)) }
{
    match value {
        Some(_) => Truth::No,
        None => Truth::Yes,
    }
}

fn compare_value(left: &Side, op: SqlOp, right: &Side, event: &Event) -> Truth
    ensures { truth_view result ≡ meaning.compared (meaning.chosen (side_view left.now).collate (side_view right.now).collate) (op_view op)
        (meaning.operand_value (first_values event.now.values) (side_view left.now).operand)
        (meaning.operand_value (first_values event.now.values) (side_view right.now).operand) }
{
    let a = operand(&left.operand, event);
    let b = operand(&right.operand, event);
    compared(chosen(left.collate, right.collate), op, a, b)
}

fn like_value(pattern: &str, escape: Option<char>, value: Option<Seen>) -> Truth
    ensures { truth_view result ≡ meaning.on_text (meaning.like_fits (chars pattern.now) escape) (seen_option_view value.entry) }
{
    let Some(value) = value else {
        return Truth::Unknown;
    };
    let mut buffer = Buffer::new();
    truth_of(is_like(pattern, escape, text_in(value, &mut buffer)))
}

fn glob_value(pattern: &str, value: Option<Seen>) -> Truth
    ensures { truth_view result ≡ meaning.on_text (meaning.glob_fits (chars pattern.now)) (seen_option_view value.entry) }
{
    let Some(value) = value else {
        return Truth::Unknown;
    };
    let mut buffer = Buffer::new();
    truth_of(is_glob(pattern, text_in(value, &mut buffer)))
}

/// The value of the next regular expression, which is passed.
fn search_value(finders: &mut Finders<'_>, value: Option<Seen>) -> Truth
    ensures texts { finders.new.texts ≡ finders.old.texts }
    ensures value { (text : List ℕ)
        → Values (text ∷ []) (meaning.on_text (finds text) (seen_option_view value.entry)) (left_of finders.old) (left_of finders.new) (truth_view result) }
{
    let Some(value) = value else {
        finders.pass();
        return Truth::Unknown;
    };
    let mut buffer = Buffer::new();
    truth_of(finders.finds(text_in(value, &mut buffer)))
}

/// The OR of the equalities, as far as it isn't decided.
#[tactic(auto, using(crate::proofs::Truths::either_joins, crate::proofs::Truths::either_yes))]
fn among(left: &Side, values: &[Operand], event: &Event) -> Truth
    ensures { truth_view result ≡ meaning.among (side_view left.now).collate (meaning.operand_value (first_values event.now.values) (side_view left.now).operand)
        (map (meaning.operand_value (first_values event.now.values)) (map operand_view values.now)) }
{
    let left_value = operand(&left.operand, event);
    let mut found = Truth::No;
    for value in values {
        let one = compared(left.collate, SqlOp::Eq, left_value, operand(value, event));
        if let Truth::Yes = one {
            return Truth::Yes;
        }
        found = either(found, one);
    }
    found
}

/// The AND of >= and <=.
fn within(left: &Side, low: i64, high: i64, event: &Event) -> Truth
    ensures { truth_view result ≡ meaning.within (side_view left.now).collate (meaning.operand_value (first_values event.now.values) (side_view left.now).operand) low high }
{
    let value = operand(&left.operand, event);
    both(
        compared(left.collate, SqlOp::Gte, value, Some(Seen::Whole(low))),
        compared(left.collate, SqlOp::Lte, value, Some(Seen::Whole(high))),
    )
}

/// The value of a test; a regular expression is the next one, which is passed.
#[tactic(auto, using(crate::proofs::Valued::without_searches))]
pub fn test_value(test: &SqlTest, event: &Event, finders: &mut Finders<'_>) -> Truth
    ensures texts { finders.new.texts ≡ finders.old.texts }
    ensures value { Values (test_patterns (test_view test.now)) (meaning.test_value (test_view test.now) (first_values event.now.values))
        (left_of finders.old) (left_of finders.new) (truth_view result) }
{
    match test {
        SqlTest::Constant(b) => truth_of(*b),
        SqlTest::IsNull { field, negated } => {
            negated_if(*negated, null_value(column(event, *field)))
        }
        SqlTest::Compare { left, op, right } => compare_value(left, *op, right, event),
        SqlTest::Like {
            field,
            negated,
            pattern,
            escape,
        } => negated_if(
            *negated,
            like_value(pattern.as_str(), *escape, column(event, *field)),
        ),
        SqlTest::Glob {
            field,
            negated,
            pattern,
        } => negated_if(
            *negated,
            glob_value(pattern.as_str(), column(event, *field)),
        ),
        SqlTest::Regexp { field, negated, .. } => {
            negated_if(*negated, search_value(finders, column(event, *field)))
        }
        SqlTest::OneOf {
            left,
            negated,
            values,
        } => negated_if(*negated, among(left, values, event)),
        SqlTest::Between {
            left,
            negated,
            low,
            high,
        } => negated_if(*negated, within(left, *low, *high, event)),
    }
}
