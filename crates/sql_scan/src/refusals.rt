//! Tokens that are none of the language's, and parentheses and words NOT that nest too far.

ghost use Rattle.std.specs.Prelude.{◌≡◌, ◌||◌};
ghost use Rattle.sql_lang.specs.Reading as reading;
ghost use Rattle.query_tokens.specs.Tokens.{sorts};
ghost use Rattle.sql_scan.specs.View as view;
ghost use Rattle.query_tokens.specs.PlaceView.{place_if};
ghost use Rattle.sql_scan.specs.View.{sort_view, tokens_view};

use crate::token::{Keyword, Sort, Token};
use sig_base::Place;

fn is_other(sort: &Sort) -> bool
    ensures { result ≡ reading.is_other (sort_view sort.now) }
{
    matches!(sort, Sort::Other)
}

/// The place of the first token that is none of the language's.
#[tactic(auto, using(crate::proofs::Judged::other_here, crate::proofs::Judged::other_more, crate::proofs::Judged::other_end))]
pub fn first_other(tokens: &[Token]) -> Option<Place>
    ensures { place_if result ≡ reading.first_other (tokens_view tokens.now) }
{
    for token in tokens {
        if is_other(&token.sort) {
            return Some(token.place);
        }
    }
    None
}

fn is_opening(sort: &Sort) -> bool
    ensures { result ≡ view.is_opening (sort_view sort.now) }
{
    matches!(sort, Sort::Opening)
}

fn is_closing(sort: &Sort) -> bool
    ensures { result ≡ view.is_closing (sort_view sort.now) }
{
    matches!(sort, Sort::Closing)
}

fn is_not(sort: &Sort) -> bool
    ensures { result ≡ view.is_not (sort_view sort.now) }
{
    matches!(sort, Sort::Word(Keyword::Not))
}

/// Whether up to some token the signs `(` are more than the signs `)` by more than the limit.
#[tactic(auto, using(crate::proofs::Nested::far_here, crate::proofs::Nested::opened_more, crate::proofs::Nested::closed_more, crate::proofs::Nested::other_more, crate::proofs::Nested::far_end))]
fn opens_too_far(limit: usize, tokens: &[Token]) -> bool
    ensures { result ≡ reading.opens_too_far limit 0 0 (sorts (tokens_view tokens.now)) }
{
    let most = limit as u128;
    let mut opened: u128 = 0;
    let mut closed: u128 = 0;
    for token in tokens {
        if is_opening(&token.sort) {
            opened += 1;
            if closed + most < opened {
                return true;
            }
            continue;
        }
        if is_closing(&token.sort) {
            closed += 1;
            continue;
        }
    }
    false
}

/// Whether more words NOT than the limit follow one another directly.
#[tactic(auto, using(crate::proofs::Nested::nots_here, crate::proofs::Nested::not_more, crate::proofs::Nested::none_more, crate::proofs::Nested::nots_end))]
fn nots_too_many(limit: usize, tokens: &[Token]) -> bool
    ensures { result ≡ reading.nots_too_many limit 0 (sorts (tokens_view tokens.now)) }
{
    let mut count: usize = 0;
    for token in tokens {
        if is_not(&token.sort) {
            if limit <= count {
                return true;
            }
            count += 1;
            continue;
        }
        count = 0;
    }
    false
}

/// Whether parentheses or words NOT nest further than the limit of depth.
pub fn nests_too_far(limit: usize, tokens: &[Token]) -> bool
    ensures { result ≡ reading.nests_too_far limit (sorts (tokens_view tokens.now)) }
{
    opens_too_far(limit, tokens) || nots_too_many(limit, tokens)
}
