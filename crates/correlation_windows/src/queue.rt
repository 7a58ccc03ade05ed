//! The matches of a group, with what has to be known of their window.

ghost use Rattle.std.specs.Prelude.{◌≡◌, ◌++◌, ◌+◌, ◌<◌, ◌≤◌, [], ◌∷◌, List, ℕ, length, ◌-◌, drop, get_or, slice_get, IfSome, IfNone, IfOk, IfErr, OnOk, IsTrue, ◌↔◌};
ghost use Rattle.std.specs.Option.{option_copied};
ghost use Rattle.correlation_windows.specs.Windows.{number_of, fires};

use crate::bound::{CorrelationKind, Op};
use crate::conditions::meets;
use crate::matches::Match;
use crate::notes::{make_room, no_reaches, note_entering, note_leaving};
use crate::reaches::{all_reached, ends_in_order};
use indexmap::IndexMap;
use sig_base::{Fault, Text};
use std::alloc::Global;
use std::collections::VecDeque;
use std::marker::Model;

/// Matches of one group in their order, and beside them what a correlation of one type has to know of them: how often
/// each counted text stands there, or how many of the newest matches meet the listed rules.
#[derive(Drop)]
pub struct Queue {
    matches: VecDeque<Match>,
    kind: CorrelationKind,
    rules: usize,
    counts: IndexMap<Text, usize>,
    reaches: Vec<usize>,
}

impl Model for Queue {
    ghost use Rattle.std.specs.Prelude.{◌-◌};
    ghost use Rattle.std.specs.VecDeque.{deque_len, deque_capacity};
    ghost use Rattle.indexmap.specs.IndexMap.{spare};
    ghost use Rattle.correlation_windows.specs.Noted.{Queued, IsNoted, room_of};

    ghost Value = { Queued };

    ghost view = { λ q. record { items = q.matches.items; kind = q.kind; rules = q.rules; room = room_of q.kind (deque_capacity q.matches - deque_len q.matches) (spare q.counts) } };

    ghost invariant = { λ q. IsNoted q.kind q.rules q.counts.entries q.reaches.items q.matches.items };
}

impl Queue {
    /// No matches, with room for so many; only want of memory is answered.
    pub fn new(
        alloc: Global,
        kind: CorrelationKind,
        rules: usize,
        room: usize,
    ) -> Result<Queue, Fault>
        ensures items { IfOk result (λ q. q.items ≡ []) }
        ensures kind { IfOk result (λ q. q.kind ≡ kind) }
        ensures rules { IfOk result (λ q. q.rules ≡ rules) }
        ensures room { IfOk result (λ q. room ≤ q.room) }
        ensures err { IfErr result (λ e. e ≡ Fault.Memory) }
    {
        let matches = VecDeque::with_capacity(alloc, room)?;
        let mut counts = IndexMap::new(alloc);
        make_room(kind, &mut counts, room)?;
        let reaches = no_reaches(alloc, kind, rules)?;
        Ok(Queue {
            matches,
            kind,
            rules,
            counts,
            reaches,
        })
    }

    /// How many matches there are.
    pub fn len(&self) -> usize
        ensures { result ≡ length self.now.items }
    {
        self.matches.len()
    }

    /// Whether there is none.
    pub fn is_empty(&self) -> bool
        ensures { IsTrue result ↔ (length self.now.items ≡ 0) }
    {
        self.matches.len() == 0
    }

    /// The first match.
    pub fn front(&self) -> Option<&Match>
        ensures { option_copied result ≡ slice_get self.now.items 0 }
    {
        self.matches.front()
    }

    /// The last match.
    pub fn back(&self) -> Option<&Match>
        ensures none { IfNone result (length self.now.items ≡ 0) }
        ensures some { IfSome result (λ m. (0 < length self.now.items) × (m.now ≡ get_or self.now.items (length self.now.items - 1) m.now)) }
    {
        self.matches.back()
    }

    /// Makes room for so many more matches; only want of memory is answered. No match enters or leaves.
    pub fn reserve(&mut self, more: usize) -> Result<(), Fault>
        ensures items { self.new.items ≡ self.old.items }
        ensures kind { self.new.kind ≡ self.old.kind }
        ensures rules { self.new.rules ≡ self.old.rules }
        ensures ok { OnOk result (more ≤ self.new.room) }
        ensures room { self.old.room ≤ self.new.room }
        ensures err { IfErr result (λ e. e ≡ Fault.Memory) }
    {
        self.matches.reserve(more)?;
        make_room(self.kind, &mut self.counts, more)?;
        Ok(())
    }

    /// Puts a match at the end, with a copy of its counted text. Takes no memory.
    pub fn push_back(&mut self, found: Match, text: Option<Text>)
        requires room { 0 < self.old.room }
        requires text { text ≡ found.counted }
        ensures items { self.new.items ≡ self.old.items ++ found ∷ [] }
        ensures kind { self.new.kind ≡ self.old.kind }
        ensures rules { self.new.rules ≡ self.old.rules }
        ensures room { self.old.room ≤ self.new.room + 1 }
    {
        note_entering(
            self.kind,
            &mut self.counts,
            &mut self.reaches,
            found.place,
            text,
        );
        self.matches.push_back_reserved(found);
    }

    /// Lets the first match leave.
    pub fn pop_front(&mut self)
        ensures items { self.new.items ≡ drop 1 self.old.items }
        ensures kind { self.new.kind ≡ self.old.kind }
        ensures rules { self.new.rules ≡ self.old.rules }
        ensures room { self.old.room ≤ self.new.room }
    {
        if let Some(gone) = self.matches.pop_front() {
            note_leaving(self.kind, &mut self.counts, &gone.counted);
        }
    }

    /// What is counted in the window that these matches are.
    pub fn number(&self) -> u64
        ensures { result ≡ number_of self.now.kind self.now.items }
    {
        match self.kind {
            CorrelationKind::EventCount => self.matches.len() as u64,
            CorrelationKind::ValueCount => self.counts.len() as u64,
            CorrelationKind::Temporal => self.matches.len() as u64,
            CorrelationKind::TemporalOrdered => self.matches.len() as u64,
        }
    }

    /// Whether a correlation of this type and so many listed rules fires in the window that these matches are.
    pub fn fires(&self, condition: &[(Op, u64)]) -> bool
        ensures { (rules : List ℕ) → length rules ≡ self.now.rules → result ≡ fires self.now.kind rules condition.now self.now.items }
    {
        match self.kind {
            CorrelationKind::EventCount => meets(condition, self.matches.len() as u64),
            CorrelationKind::ValueCount => meets(condition, self.counts.len() as u64),
            CorrelationKind::Temporal => all_reached(self.reaches.as_slice(), self.matches.len()),
            CorrelationKind::TemporalOrdered => ends_in_order(
                self.reaches.as_slice(),
                &self.matches,
            ),
        }
    }
}
