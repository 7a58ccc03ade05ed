//! What a queue notes of its matches.

ghost use Rattle.std.specs.Prelude.{◌≡◌, ◌++◌, ◌+◌, ◌^◌, ◌<◌, ◌≤◌, [], ◌∷◌, List, ℕ, Bool, length, IfOk, OnOk};
ghost use Rattle.indexmap.specs.IndexMap.{spare};
ghost use Rattle.correlation_windows.specs.Noted.{IsNoted, room_of};
ghost use Rattle.correlation_windows.specs.Reaches.{AreReaches};
ghost use Rattle.correlation_windows.specs.declared.matches.Match.{Match};

use crate::bound::CorrelationKind;
use crate::reaches::{match_enters, unreached};
use crate::tallies::{text_may_enter, text_may_leave};
use indexmap::IndexMap;
use sig_base::Text;
use std::alloc::{AllocError, Global};

/// Notes a match with this place and this counted text, which enters. Takes no memory where there's room.
pub(crate) fn note_entering(
    kind: CorrelationKind,
    counts: &mut IndexMap<Text, usize>,
    reaches: &mut Vec<usize>,
    place: u32,
    text: Option<Text>,
)
    requires { 0 < room_of kind 1 (spare counts.old) }
    ensures noted { (rules : ℕ) (w : List Match) (m : Match) → m.place ≡ place → m.counted ≡ text → length w < 2 ^ 63 → IsNoted kind rules counts.old.entries reaches.old.items w → IsNoted kind rules counts.new.entries reaches.new.items (w ++ m ∷ []) }
    ensures room { spare counts.old ≤ spare counts.new + 1 }
{
    match kind {
        CorrelationKind::EventCount => {}
        CorrelationKind::ValueCount => text_may_enter(counts, text),
        CorrelationKind::Temporal => match_enters(reaches, false, place),
        CorrelationKind::TemporalOrdered => match_enters(reaches, true, place),
    }
}

/// Notes that the first match leaves, which has this counted text.
pub(crate) fn note_leaving(
    kind: CorrelationKind,
    counts: &mut IndexMap<Text, usize>,
    text: &Option<Text>,
)
    ensures noted { (rules : ℕ) (reaches : List ℕ) (w : List Match) (m : Match) → m.counted ≡ text.now → IsNoted kind rules counts.old.entries reaches (m ∷ w) → IsNoted kind rules counts.new.entries reaches w }
    ensures room { spare counts.old ≤ spare counts.new }
{
    match kind {
        CorrelationKind::EventCount => {}
        CorrelationKind::ValueCount => text_may_leave(counts, text),
        CorrelationKind::Temporal => {}
        CorrelationKind::TemporalOrdered => {}
    }
}

/// How many texts so many matches may bring.
fn texts_for(kind: CorrelationKind, more: usize) -> usize
    ensures { (places : ℕ) (texts : ℕ) → more ≤ places → result ≤ texts → more ≤ room_of kind places texts }
{
    match kind {
        CorrelationKind::EventCount => 0,
        CorrelationKind::ValueCount => more,
        CorrelationKind::Temporal => 0,
        CorrelationKind::TemporalOrdered => 0,
    }
}

/// How many places there are whose reach is noted.
fn places_for(kind: CorrelationKind, rules: usize) -> usize
    ensures { (reaches : List ℕ) → length reaches ≡ result → ((ordered : Bool) → AreReaches ordered reaches []) → IsNoted kind rules [] reaches [] }
{
    match kind {
        CorrelationKind::EventCount => 0,
        CorrelationKind::ValueCount => 0,
        CorrelationKind::Temporal => rules,
        CorrelationKind::TemporalOrdered => rules,
    }
}

/// Makes room for the texts of so many matches.
pub(crate) fn make_room(
    kind: CorrelationKind,
    counts: &mut IndexMap<Text, usize>,
    more: usize,
) -> Result<(), AllocError>
    ensures same { counts.new.entries ≡ counts.old.entries }
    ensures ok { (places : ℕ) → more ≤ places → OnOk result (more ≤ room_of kind places (spare counts.new)) }
    ensures room { spare counts.old ≤ spare counts.new }
{
    counts.reserve(texts_for(kind, more))
}

/// What is noted of no match.
pub(crate) fn no_reaches(
    alloc: Global,
    kind: CorrelationKind,
    rules: usize,
) -> Result<Vec<usize>, AllocError>
    ensures { IfOk result (λ reaches. IsNoted kind rules [] reaches.items []) }
{
    unreached(alloc, places_for(kind, rules))
}
