//! How often texts stand in a list.

ghost use Rattle.std.specs.Prelude.{◌≡◌, ◌++◌, ◌+◌, ◌^◌, ◌<◌, ◌≤◌, [], ◌∷◌, List, ℕ, length};
ghost use Rattle.std.specs.List.{cons_option};
ghost use Rattle.std.specs.Map.{lookup};
ghost use Rattle.std.specs.Str.{bytes_eq};
ghost use Rattle.indexmap.specs.IndexMap.{spare};
ghost use Rattle.correlation_windows.specs.Tallies.{AreTimes, or_none};

use indexmap::IndexMap;
use sig_base::Text;

/// How often a text stands in the list.
fn times_of(counts: &IndexMap<Text, usize>, text: &Text) -> usize
    ensures { result ≡ or_none (lookup (bytes_eq text.now) counts.now.entries) }
{
    match counts.get(text) {
        Some(times) => *times,
        None => 0,
    }
}

/// Counts a text that enters at the end of the list. Takes no memory where there's room.
pub(crate) fn text_enters(counts: &mut IndexMap<Text, usize>, text: Text)
    requires { 0 < spare counts.old }
    ensures times { (texts : List (List ℕ)) → length texts < 2 ^ 63 → AreTimes counts.old.entries texts → AreTimes counts.new.entries (texts ++ text ∷ []) }
    ensures room { spare counts.old ≤ spare counts.new + 1 }
{
    let times = times_of(counts, &text);
    let _inserted = counts.insert(text, times.saturating_add(1));
}

/// Counts no longer the first text of the list, which leaves.
pub(crate) fn text_leaves(counts: &mut IndexMap<Text, usize>, text: &Text)
    ensures times { (texts : List (List ℕ)) → AreTimes counts.old.entries (text.now ∷ texts) → AreTimes counts.new.entries texts }
    ensures room { spare counts.old ≤ spare counts.new }
{
    let times = times_of(counts, text);
    if times < 2 {
        let _gone = counts.swap_remove(text);
        return;
    }
    if let Some(left) = counts.get_mut(text) {
        *left = times - 1;
    }
}

/// Counts the text that a match brings, if it has one.
pub(crate) fn text_may_enter(counts: &mut IndexMap<Text, usize>, text: Option<Text>)
    requires { 0 < spare counts.old }
    ensures times { (texts : List (List ℕ)) → length texts < 2 ^ 63 → AreTimes counts.old.entries texts → AreTimes counts.new.entries (texts ++ cons_option text []) }
    ensures room { spare counts.old ≤ spare counts.new + 1 }
{
    if let Some(text) = text {
        text_enters(counts, text);
    }
}

/// Counts no longer the text of a match that leaves, if it has one.
pub(crate) fn text_may_leave(counts: &mut IndexMap<Text, usize>, text: &Option<Text>)
    ensures times { (texts : List (List ℕ)) → AreTimes counts.old.entries (cons_option text.now texts) → AreTimes counts.new.entries texts }
    ensures room { spare counts.old ≤ spare counts.new }
{
    if let Some(text) = text {
        text_leaves(counts, text);
    }
}
