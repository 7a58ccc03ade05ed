//! One test of a query.

ghost use Rattle.std.specs.Prelude.{◌≡◌, drop, length};
ghost use Rattle.sql_lang.specs.Expression as expression;
ghost use Rattle.sql_lang.specs.Grammar.{spell_test};
ghost use Rattle.sql_parse.specs.View.{leaf_view};
ghost use Rattle.sql_lang.specs.View.{test_view, expr_view};
ghost use Rattle.query_tokens.specs.PlaceView.{place_view};
ghost use Rattle.sql_scan.specs.View.{places_view};
ghost use Rattle.sql_check.specs.View.{read_view};
ghost use Rattle.sql_read.specs.Checks.{pattern_place, test_checks};
ghost use Rattle.sql_read.specs.Walks.{BuiltAnswers, WalkAnswers};

use crate::expressions::Walked;
use crate::token_places::behind_test;
use query_lang::{Builder, Search};
use sig_base::{Fault, Place};
use sql_check::{Columns, ReadTest, judge, not_count, place_at, test_of};
use sql_lang::{Expr, SqlTest};
use sql_parse::Leaf;
use std::alloc::Global;

/// The place of a test's regular expression, or its first one where it has none.
fn pattern_place(leaf: &Leaf, places: &[Place]) -> Place
    ensures { place_view result ≡ pattern_place (leaf_view leaf.now) (places_view places.now) }
{
    match leaf {
        Leaf::Regexp { negated, .. } => place_at(places, 2 + not_count(*negated)),
        _ => place_at(places, 0),
    }
}

/// The test, with the regular expression built whose text stands at this place.
fn build<B: Builder>(
    alloc: Global,
    builder: &mut B,
    test: ReadTest,
    place: Place,
) -> Result<SqlTest, Fault>
    ensures { BuiltAnswers (B.refused builder.old) (B.refused builder.new) (read_view test) (place_view place) result }
{
    match test {
        ReadTest::Test(test) => Ok(test),
        ReadTest::Regexp {
            field,
            negated,
            pattern,
        } => match Search::read(alloc, builder, pattern, place) {
            Ok(search) => Ok(SqlTest::Regexp {
                field,
                negated,
                search: Box::new(alloc, search)?,
            }),
            Err(stop) => Err(stop),
        },
    }
}

fn tested(test: SqlTest, rest: &[Place]) -> Walked<'_>
    ensures expr { expr_view result.expr ≡ expression.Test (test_view test) }
    ensures rest { result.rest.now ≡ rest.now }
{
    Walked {
        expr: Expr::Test(test),
        rest,
    }
}

/// The test under a schema, or the first of what is wrong with its names, kinds and patterns. Building a regular expression takes much
/// stack, which isn't to stand in the frames of those that recurse.
#[inline(never)]
pub fn walk_leaf<'p, B: Builder>(
    alloc: Global,
    columns: &Columns<'_>,
    builder: &mut B,
    leaf: &Leaf,
    places: &'p [Place],
) -> Result<Walked<'p>, Fault>
    ensures { WalkAnswers (B.refused builder.old) (B.refused builder.new) (test_checks columns.now (leaf_view leaf.now) (places_view places.now))
        (expression.Test (expression.test_of columns.now (leaf_view leaf.now))) (drop (length (spell_test (leaf_view leaf.now))) (places_view places.now)) result }
{
    if let Some(refusal) = judge(columns, leaf, places) {
        return Err(Fault::Refused(refusal));
    }
    let place = pattern_place(leaf, places);
    let rest = behind_test(leaf, places);
    let test = test_of(alloc, columns, leaf)?;
    match build(alloc, builder, test, place) {
        Ok(test) => Ok(tested(test, rest)),
        Err(stop) => Err(stop),
    }
}
