//! The queues of a correlation.

ghost use Rattle.std.specs.Prelude.{◌≡◌, ◌++◌, ◌+◌, ◌-ℤ◌, [], ◌∷◌, List, ℕ, ℤ, ◌≤ℤ◌, ◌<ℤ◌, ◌<◌, ◌≤◌, ◌-◌, ◌^◌, min, pos, true, OnOk, IfOk, IfErr, length};
ghost use Rattle.std.specs.Vec.{vec_len, vec_capacity};
ghost use Rattle.correlation_windows.specs.History.{Taken, Grouped, event_matches, last_moment};
ghost use Rattle.correlation_windows.specs.Kept.{Holds, kept};
ghost use Rattle.correlation_windows.specs.Laws.{IsBehind, recent};
ghost use Rattle.correlation_windows.specs.Over.{reports_over};
ghost use Rattle.correlation_windows.specs.Queues.{held, count_held};
ghost use Rattle.correlation_windows.specs.declared.bound.Bound as declared;
ghost use Rattle.correlation_windows.specs.Ready.{AllAt, AllProvided, HasFresh, HasRoom, ComeNext, UntilEach, grouped};
ghost use Rattle.correlation_windows.specs.Windows.{of_group};

use crate::bound::{Bound, CorrelationKind};
use crate::counts::count_held;
use crate::drops::drop_old;
use crate::found::{Found, Fresh, text_again};
use crate::group::Group;
use crate::growth::{make_places_for_all, put_all};
use crate::matches::Match;
use crate::queue::Queue;
use crate::report::Report;
use indexmap::IndexMap;
use sig_base::Fault;
use std::alloc::Global;
use std::marker::Model;

/// The matches that are kept for a correlation, a queue for each group. The map's order of entries is a heap by the first
/// moments of the queues, so that the groups without a match that is too old aren't looked at.
#[derive(Drop)]
pub struct Queues {
    map: IndexMap<Group, Queue>,
    kind: CorrelationKind,
    rules: usize,
}

impl Model for Queues {
    ghost use Rattle.indexmap.specs.IndexMap.{spare};
    ghost use Rattle.correlation_windows.specs.Heaps.{IsOrderly};
    ghost use Rattle.correlation_windows.specs.Queues.{Stored, AllFor};

    ghost Value = { Stored };

    ghost view = { λ q. record { entries = q.map.entries; kind = q.kind; rules = q.rules; spare = spare q.map } };

    ghost invariant = { λ q. IsOrderly q.map.entries × AllFor q.kind q.rules q.map.entries };
}

/// Whether a queue has a match that is later than this moment.
fn reaches(queue: &Queue, after: i128) -> bool
    ensures { result ≡ true → 0 < length (recent after queue.now.items) }
{
    match queue.back() {
        Some(last) => after < last.moment,
        None => false,
    }
}

impl Queues {
    /// Queues without a match for a correlation of this type and so many listed rules, which take no memory.
    pub fn new(alloc: Global, kind: CorrelationKind, rules: usize) -> Queues
        ensures empty { (g : List (List ℕ)) → held result.entries g ≡ [] }
        ensures kept { (b : declared.Bound) → Holds (held result.entries) (kept b []) }
        ensures kind { result.kind ≡ kind }
        ensures rules { result.rules ≡ rules }
    {
        Queues {
            map: IndexMap::new(alloc),
            kind,
            rules,
        }
    }

    /// Whether a group has a match that is later than this moment.
    fn stays(&self, group: &Group, after: i128) -> bool
        ensures { result ≡ true → 0 < length (recent after (held self.now.entries group.now)) }
    {
        match self.map.get(group) {
            Some(queue) => reaches(queue, after),
            None => false,
        }
    }

    /// A queue for a group, unless it has a match that is later than this moment.
    fn fresh(
        &self,
        alloc: Global,
        group: &Group,
        after: i128,
        count: usize,
    ) -> Result<Option<Fresh>, Fault>
        ensures ok { recent after (held self.now.entries group.now) ≡ [] → IfOk result (HasFresh count self.now.kind self.now.rules group.now) }
        ensures err { IfErr result (λ e. e ≡ Fault.Memory) }
    {
        if self.stays(group, after) {
            return Ok(None);
        }
        Ok(Some(Fresh::new(alloc, self.kind, self.rules, group, count)?))
    }

    /// The matches of an event with what they need to enter once all matches have left that aren't later than this
    /// moment; only want of memory is answered.
    pub fn provide(
        &self,
        alloc: Global,
        matches: Vec<(Group, Match)>,
        after: i128,
    ) -> Result<Vec<Found>, Fault>
        ensures matches { IfOk result (λ founds. grouped founds.items ≡ matches.items) }
        ensures provided { IfOk result (λ founds. AllProvided after (length founds.items) self.now founds.items) }
        ensures err { IfErr result (λ e. e ≡ Fault.Memory) }
    {
        let count = matches.len();
        let mut founds = Vec::with_capacity(alloc, count)?;
        for own in matches {
            let fresh = self.fresh(alloc, &own.0, after, count)?;
            let text = text_again(alloc, &own.1.counted)?;
            founds.push(Found {
                group: own.0,
                found: own.1,
                text,
                fresh,
            })?;
        }
        Ok(founds)
    }

    /// Makes room for all matches of an event; only want of memory is answered. No match enters or leaves.
    pub fn make_room(&mut self, founds: &[Found]) -> Result<(), Fault>
        ensures held { (g : List (List ℕ)) → held self.new.entries g ≡ held self.old.entries g }
        ensures kind { self.new.kind ≡ self.old.kind }
        ensures rules { self.new.rules ≡ self.old.rules }
        ensures ok { (after : ℤ) → AllProvided after (length founds.now) self.old founds.now → OnOk result (HasRoom after self.new founds.now) }
        ensures err { IfErr result (λ e. e ≡ Fault.Memory) }
    {
        make_places_for_all(&mut self.map, founds)
    }

    /// Takes an event: the matches that its timespan doesn't reach leave, and its own enter, one after the other. Once each
    /// has entered, its queue is its window, and its report is added if the correlation fires. Takes no memory.
    pub fn advance(
        &mut self,
        bound: &Bound,
        number: u32,
        founds: Vec<Found>,
        after: i128,
        reports: &mut Vec<Report>,
    )
        requires kind { self.old.kind ≡ bound.now.kind }
        requires rules { self.old.rules ≡ length bound.now.rules }
        requires room { HasRoom after self.old founds.items }
        requires next { ComeNext self.old.entries founds.items }
        requires reports { vec_len reports.old + length founds.items ≤ vec_capacity reports.old }
        ensures kind { self.new.kind ≡ self.old.kind }
        ensures rules { self.new.rules ≡ self.old.rules }
        ensures held { (t : ℤ) → AllAt t founds.items → after <ℤ t → (g : List (List ℕ)) → held self.new.entries g ≡ recent after (held self.old.entries g ++ of_group g (grouped founds.items)) }
        ensures reports { (t : ℤ) → AllAt t founds.items → UntilEach t self.old.entries → after ≡ t -ℤ bound.now.span → after <ℤ t → reports.new.items ≡ reports.old.items ++ reports_over number bound.now (held self.old.entries) [] (grouped founds.items) }
        ensures few { vec_len reports.new ≤ vec_len reports.old + length founds.items }
        ensures capacity { vec_capacity reports.new ≡ vec_capacity reports.old }
    {
        drop_old(&mut self.map, after);
        put_all(&mut self.map, bound, number, founds, reports);
    }

    /// How many matches are held in all, or 2^64 - 1 where they're more. Takes no memory.
    pub fn held(&self) -> u64
        ensures all { result ≡ min (count_held self.now.entries) (2 ^ 64 - 1) }
        ensures kept { (ms : List Grouped) → Holds (held self.now.entries) ms → result ≡ min (length ms) (2 ^ 64 - 1) }
    {
        count_held(&self.map)
    }
}
