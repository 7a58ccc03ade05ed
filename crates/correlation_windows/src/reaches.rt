//! How many of the newest matches meet the listed rules.

ghost use Rattle.std.specs.Prelude.{◌≡◌, ◌+◌, ◌<◌, ◌==◌, ◌&&◌, Bool, true, [], ℕ, length, get_or, nat_le, reverse, slice_set, IfOk};
ghost use Rattle.std.specs.List.{list_all, range_with_len};
ghost use Rattle.correlation_windows.specs.Reaches.{AreReaches, aged, before, entered};
ghost use Rattle.correlation_windows.specs.Windows.{has_subsequence_at_first};

use crate::matches::Match;
use std::alloc::{AllocError, Global};
use std::collections::VecDeque;

/// How many matches before one with this place it takes together with that one.
fn before(reaches: &[usize], ordered: bool, place: usize) -> usize
    requires { place < length reaches.now }
    ensures { result ≡ before ordered place reaches.now }
{
    if !ordered {
        return 0;
    }
    if place == 0 {
        return 0;
    }
    reaches[place - 1].min(reaches[place])
}

/// Sets what it takes to this place.
fn set_place(reaches: &mut Vec<usize>, ordered: bool, place: usize)
    ensures { reaches.new.items ≡ slice_set reaches.old.items place (before ordered place reaches.old.items) }
{
    if place >= reaches.len() {
        return;
    }
    let reach = before(reaches.as_slice(), ordered, place);
    reaches[place] = reach;
}

/// One match more at each place.
fn age(reaches: &mut Vec<usize>)
    ensures { reaches.new.items ≡ aged reaches.old.items }
{
    for place in 0..reaches.len() {
        reaches[place] = reaches[place].saturating_add(1);
    }
}

/// Notes a match with this place, which enters. Takes no memory.
pub(crate) fn match_enters(reaches: &mut Vec<usize>, ordered: bool, place: u32)
    ensures { reaches.new.items ≡ entered ordered place reaches.old.items }
{
    set_place(reaches, ordered, place as usize);
    age(reaches);
}

/// Whether each place is reached by so many matches.
pub(crate) fn all_reached(reaches: &[usize], count: usize) -> bool
    ensures { result ≡ list_all (λ n. nat_le n count) reaches.now }
{
    reaches.iter().all(|reach| *reach <= count)
}

/// Whether a match with this place is the last rule's, and those before it meet the others with so many matches.
fn is_last(reaches: &[usize], place: u32, count: usize) -> bool
    requires { 0 < length reaches.now }
    ensures one { length reaches.now ≡ 1 → result ≡ (place == 0) }
    ensures several { (i : ℕ) → length reaches.now ≡ i + 2 → result ≡ ((place == i + 1) && nat_le (get_or reaches.now i 0) count) }
{
    let last = reaches.len() - 1;
    if place as usize != last {
        return false;
    }
    if last == 0 {
        return true;
    }
    reaches[last - 1] <= count
}

/// Whether some of these matches meet the listed rules in their order, the last match the last rule.
pub(crate) fn ends_in_order(reaches: &[usize], matches: &VecDeque<Match>) -> bool
    requires { AreReaches true reaches.now matches.now.items }
    ensures { result ≡ has_subsequence_at_first (reverse (range_with_len 0 (length reaches.now))) (reverse matches.now.items) }
{
    if reaches.is_empty() {
        return true;
    }
    match matches.back() {
        Some(last) => is_last(reaches, last.place, matches.len()),
        None => false,
    }
}

/// What it takes where there is no match.
pub(crate) fn unreached(alloc: Global, places: usize) -> Result<Vec<usize>, AllocError>
    ensures long { IfOk result (λ reaches. length reaches.items ≡ places) }
    ensures none { (ordered : Bool) → IfOk result (λ reaches. AreReaches ordered reaches.items []) }
{
    let mut reaches = Vec::new(alloc);
    reaches.resize(places, usize::MAX)?;
    Ok(reaches)
}
