//! The places of a query's tokens, and how many tokens the parts of a test are.

ghost use Rattle.std.specs.Prelude.{◌≡◌, length};
ghost use Rattle.query_tokens.specs.Places.{nth};
ghost use Rattle.sql_lang.specs.Grammar.{spell_not, spell_collate};
ghost use Rattle.sql_lang.specs.View.{collate_view};
ghost use Rattle.query_tokens.specs.PlaceView.{place_view};
ghost use Rattle.sql_scan.specs.View.{places_view};

use sig_base::Place;
use sql_lang::Collate;

/// The place of a token, or 1:1 behind the last one.
pub fn place_at(places: &[Place], index: usize) -> Place
    ensures { place_view result ≡ nth (places_view places.now) index }
{
    match places.get(index) {
        Some(place) => *place,
        None => Place { line: 1, column: 1 },
    }
}

/// How many words NOT stand in a test.
pub fn not_count(negated: bool) -> usize
    ensures { result ≡ length (spell_not negated) }
{
    if negated { 1 } else { 0 }
}

/// How many words COLLATE makes.
pub fn collate_count(collate: Collate) -> usize
    ensures { result ≡ length (spell_collate (collate_view collate)) }
{
    match collate {
        Collate::Unsaid => 0,
        Collate::NoCase | Collate::Binary => 2,
    }
}
