//! The values of expressions.

ghost use Rattle.std.specs.Prelude.{◌≡◌};
ghost use Rattle.event_schema.specs.Rows.{first_values};
ghost use Rattle.sql_lang.specs.Meaning as meaning;
ghost use Rattle.sql_lang.specs.View.{test_view, expr_view, exprs_view};
ghost use Rattle.sql_eval.specs.Searches.{left_of, test_patterns, patterns_in, all_patterns, Passes, Values};
ghost use Rattle.sql_eval.specs.View.{truth_view};

use crate::finders::Finders;
use crate::test_values::test_value;
use crate::truth::{Truth, both, either, negation};
use event_schema::Event;
use sql_lang::{Expr, SqlTest};

fn pass_test(test: &SqlTest, finders: &mut Finders<'_>)
    ensures texts { finders.new.texts ≡ finders.old.texts }
    ensures passes { Passes (test_patterns (test_view test.now)) (left_of finders.old) (left_of finders.new) }
{
    if let SqlTest::Regexp { .. } = test {
        finders.pass();
    }
}

/// Passes the regular expressions of an expression that isn't valued.
#[cycle(passing)]
fn pass(expr: &Expr, finders: &mut Finders<'_>)
    ensures texts { finders.new.texts ≡ finders.old.texts }
    ensures passes { Passes (patterns_in (expr_view expr.now)) (left_of finders.old) (left_of finders.new) }
{
    match expr {
        Expr::Or(parts) => pass_all(parts, finders),
        Expr::And(parts) => pass_all(parts, finders),
        Expr::Not(part) => pass(part, finders),
        Expr::Test(test) => pass_test(test, finders),
    }
}

#[cycle(passing)]
fn pass_all(parts: &[Expr], finders: &mut Finders<'_>)
    ensures texts { finders.new.texts ≡ finders.old.texts }
    ensures passes { Passes (all_patterns (exprs_view parts.now)) (left_of finders.old) (left_of finders.new) }
{
    for part in parts {
        if finders.is_done() {
            return;
        }
        pass(part, finders);
    }
}

/// The value of an expression for an event; its regular expressions are the next ones, and are passed. Parts that decide nothing
/// any more aren't valued.
#[cycle(value)]
pub fn expr_value(expr: &Expr, event: &Event, finders: &mut Finders<'_>) -> Truth
    ensures texts { finders.new.texts ≡ finders.old.texts }
    ensures value { Values (patterns_in (expr_view expr.now)) (meaning.sql_value (expr_view expr.now) (first_values event.now.values))
        (left_of finders.old) (left_of finders.new) (truth_view result) }
{
    match expr {
        Expr::Or(parts) => any_value(parts, event, finders),
        Expr::And(parts) => all_value(parts, event, finders),
        Expr::Not(part) => negation(expr_value(part, event, finders)),
        Expr::Test(test) => test_value(test, event, finders),
    }
}

#[cycle(value)]
fn any_value(parts: &[Expr], event: &Event, finders: &mut Finders<'_>) -> Truth
    ensures texts { finders.new.texts ≡ finders.old.texts }
    ensures value { Values (all_patterns (exprs_view parts.now)) (meaning.any_value (exprs_view parts.now) (first_values event.now.values))
        (left_of finders.old) (left_of finders.new) (truth_view result) }
{
    let mut found = Truth::No;
    for (index, part) in parts.iter().enumerate() {
        let one = expr_value(part, event, finders);
        if let Truth::Yes = one {
            pass_all(&parts[index + 1..], finders);
            return Truth::Yes;
        }
        found = either(found, one);
    }
    found
}

#[cycle(value)]
fn all_value(parts: &[Expr], event: &Event, finders: &mut Finders<'_>) -> Truth
    ensures texts { finders.new.texts ≡ finders.old.texts }
    ensures value { Values (all_patterns (exprs_view parts.now)) (meaning.all_value (exprs_view parts.now) (first_values event.now.values))
        (left_of finders.old) (left_of finders.new) (truth_view result) }
{
    let mut found = Truth::Yes;
    for (index, part) in parts.iter().enumerate() {
        let one = expr_value(part, event, finders);
        if let Truth::No = one {
            pass_all(&parts[index + 1..], finders);
            return Truth::No;
        }
        found = both(found, one);
    }
    found
}
