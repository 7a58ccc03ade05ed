//! What is left out of the language, and parentheses that nest too far.

ghost use Rattle.std.specs.Prelude.{◌≡◌, ◌&&◌, ◌||◌, not, false, [], ◌∷◌};
ghost use Rattle.std.specs.List.{list_any};
ghost use Rattle.lucene_lang.specs.Faults as faults;
ghost use Rattle.lucene_lang.specs.Reading as reading;
ghost use Rattle.query_tokens.specs.Tokens.{sorts};
ghost use Rattle.lucene_scan.specs.View as view;
ghost use Rattle.query_tokens.specs.PlaceView.{place_if};
ghost use Rattle.lucene_scan.specs.View.{sort_view, tokens_view};

use crate::token::{Sort, Token};
use lucene_lang::Written;
use sig_base::{Place, Text, first_char};

fn is_operator(c: char) -> bool
    ensures { result ≡ faults.is_operator c }
{
    c == '&' || c == '|' || c == '!' || c == '^' || c == '~' || c == '/'
}

fn is_left_out(c: &Written) -> bool
    ensures { result ≡ faults.is_left_out c.now }
{
    match c {
        Written::Bare(c) => is_operator(*c),
        Written::Escaped(c) => *c == 'u',
    }
}

fn is_unicode(c: &Written) -> bool
    ensures { result ≡ faults.is_unicode c.now }
{
    match c {
        Written::Bare(_) => false,
        Written::Escaped(c) => *c == 'u',
    }
}

fn has_left_out(run: &[Written]) -> bool
    ensures { result ≡ list_any faults.is_left_out run.now }
{
    run.iter().any(|c| is_left_out(c))
}

fn has_unicode(run: &[Written]) -> bool
    ensures { result ≡ list_any faults.is_unicode run.now }
{
    run.iter().any(|c| is_unicode(c))
}

fn is_bare_sign(c: &Written) -> bool
    ensures { result ≡ faults.begins_signed (c.now ∷ []) }
{
    match c {
        Written::Bare(c) => *c == '+' || *c == '-',
        Written::Escaped(_) => false,
    }
}

fn begins_signed(run: &[Written]) -> bool
    ensures { result ≡ faults.begins_signed run.now }
{
    match run {
        [] => false,
        [first, ..] => is_bare_sign(first),
    }
}

#[tactic(auto, using(crate::proofs::Decimals::minus_none, crate::proofs::Decimals::minus_more))]
fn begins_minus(text: &Text) -> bool
    ensures { result ≡ faults.begins_minus text.now }
{
    let Some((first, _)) = first_char(text.as_str()) else {
        return false;
    };
    first == '-'
}

fn is_run_outside(ranged: bool, run: &[Written]) -> bool
    ensures { result ≡ (list_any faults.is_left_out run.now || not ranged && faults.begins_signed run.now) }
{
    has_left_out(run) || (!ranged && begins_signed(run))
}

fn is_outside(ranged: bool, sort: &Sort) -> bool
    ensures { result ≡ faults.is_outside ranged (sort_view sort.now) }
{
    match sort {
        Sort::Wild(run) | Sort::Plain(run) => is_run_outside(ranged, run.as_slice()),
        Sort::Decimal(text) => !ranged && begins_minus(text),
        Sort::Phrase(run) => has_unicode(run.as_slice()),
        Sort::Joins(_)
        | Sort::Not
        | Sort::Star
        | Sort::To
        | Sort::Opening
        | Sort::Closing
        | Sort::Opens(_)
        | Sort::Closes(_)
        | Sort::Colon
        | Sort::Unclosed => false,
    }
}

fn ranged_behind(ranged: bool, sort: &Sort) -> bool
    ensures { result ≡ faults.ranged_behind ranged (sort_view sort.now) }
{
    match sort {
        Sort::Opens(_) => true,
        Sort::Closes(_) => false,
        Sort::Wild(_)
        | Sort::Plain(_)
        | Sort::Decimal(_)
        | Sort::Phrase(_)
        | Sort::Joins(_)
        | Sort::Not
        | Sort::Star
        | Sort::To
        | Sort::Opening
        | Sort::Closing
        | Sort::Colon
        | Sort::Unclosed => ranged,
    }
}

/// The place of the first token that is left out of the language.
#[tactic(auto, using(crate::proofs::Judged::outside_here, crate::proofs::Judged::outside_more, crate::proofs::Judged::outside_end))]
pub fn first_outside(tokens: &[Token]) -> Option<Place>
    ensures { place_if result ≡ reading.first_outside false (tokens_view tokens.now) }
{
    let mut ranged = false;
    for token in tokens {
        if is_outside(ranged, &token.sort) {
            return Some(token.place);
        }
        ranged = ranged_behind(ranged, &token.sort);
    }
    None
}

fn is_opening(sort: &Sort) -> bool
    ensures { result ≡ view.is_opening (sort_view sort.now) }
{
    matches!(sort, Sort::Opening)
}

fn is_closing(sort: &Sort) -> bool
    ensures { result ≡ view.is_closing (sort_view sort.now) }
{
    matches!(sort, Sort::Closing)
}

/// Whether up to some token the signs `(` are more than the signs `)` by more than the limit.
#[tactic(auto, using(crate::proofs::Nested::far_here, crate::proofs::Nested::opened_more, crate::proofs::Nested::closed_more, crate::proofs::Nested::other_more, crate::proofs::Nested::far_end))]
pub fn opens_too_far(limit: usize, tokens: &[Token]) -> bool
    ensures { result ≡ reading.opens_too_far limit 0 0 (sorts (tokens_view tokens.now)) }
{
    let mut opened: usize = 0;
    let mut closed: usize = 0;
    for token in tokens {
        if is_opening(&token.sort) {
            opened += 1;
            if limit < opened.saturating_sub(closed) {
                return true;
            }
            continue;
        }
        if is_closing(&token.sort) {
            closed += 1;
            continue;
        }
    }
    false
}
