//! The places of a query's tokens, which are passed as it's read.

ghost use Rattle.std.specs.Prelude.{◌≡◌, ◌+◌, drop, length};
ghost use Rattle.sql_lang.specs.Grammar.{spell_escape, spell_test};
ghost use Rattle.sql_scan.specs.View.{places_view};
ghost use Rattle.sql_parse.specs.View.{leaf_view};

use sig_base::{Place, Text};
use sql_check::{collate_count, not_count};
use sql_parse::Leaf;

/// The places behind so many.
pub fn behind(places: &[Place], count: usize) -> &[Place]
    ensures { places_view result.now ≡ drop count (places_view places.now) }
{
    if count <= places.len() {
        return places.split_at(count).1;
    }
    &[]
}

/// How many tokens ESCAPE makes.
fn escape_count(escape: &Option<Text>) -> usize
    ensures { result ≡ length (spell_escape escape.now) }
{
    match escape {
        Some(_) => 2,
        None => 0,
    }
}

/// The places behind a test.
pub fn behind_test<'p>(leaf: &Leaf, places: &'p [Place]) -> &'p [Place]
    ensures { places_view result.now ≡ drop (length (spell_test (leaf_view leaf.now))) (places_view places.now) }
{
    match leaf {
        Leaf::Constant(_) => behind(places, 1),
        Leaf::IsNull { negated, .. } => behind(places, 3 + not_count(*negated)),
        Leaf::Compare { left, collate, .. } => {
            behind(places, 3 + collate_count(*left) + collate_count(*collate))
        }
        Leaf::Like {
            negated,
            escape,
            ..
        } => behind(places, 3 + not_count(*negated) + escape_count(escape)),
        Leaf::Glob { negated, .. } => behind(places, 3 + not_count(*negated)),
        Leaf::Regexp { negated, .. } => behind(places, 3 + not_count(*negated)),
        Leaf::OneOf {
            collate,
            negated,
            before,
            ..
        } => {
            let rest = behind(places, 5 + collate_count(*collate) + not_count(*negated));
            behind(behind(rest, before.len()), before.len())
        }
        Leaf::Between {
            collate,
            negated,
            ..
        } => behind(places, 5 + collate_count(*collate) + not_count(*negated)),
    }
}
