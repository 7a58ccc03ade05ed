//! Matches go into their queues, after a step that makes room for all of them.

ghost use Rattle.std.specs.Prelude.{◌≡◌, ℕ, ◌+◌, ◌<◌, ◌≤◌, ℤ, ◌≤ℤ◌, List, [], ◌∷◌, ◌++◌, length, OnOk, IfErr};
ghost use Rattle.std.specs.Map.{lookup};
ghost use Rattle.std.specs.Vec.{vec_len, vec_capacity};
ghost use Rattle.indexmap.specs.IndexMap.{spare};
ghost use Rattle.correlation_windows.specs.Groups.{same_group};
ghost use Rattle.correlation_windows.specs.Heaps.{IsOrderly, AllUntil};
ghost use Rattle.correlation_windows.specs.Over.{reports_on};
ghost use Rattle.correlation_windows.specs.Queues.{held, HasPlaces, AllFor};
ghost use Rattle.correlation_windows.specs.Ready.{grouped, AllPlaced, AllReady, AllNext, AreInTime, IsPlaced, IsReady};
ghost use Rattle.correlation_windows.specs.Reports.{report_of};
ghost use Rattle.correlation_windows.specs.Windows.{of_group};
ghost use Rattle.correlation_windows.specs.declared.bound.CorrelationKind.{CorrelationKind};
ghost use Rattle.correlation_windows.specs.declared.found.Found as declared;

use crate::bound::Bound;
use crate::found::Found;
use crate::group::Group;
use crate::match_reports::{NewMatch, enter};
use crate::queue::Queue;
use crate::report::Report;
use indexmap::IndexMap;
use sig_base::Fault;

/// Makes room for so many more matches in the queue of a group, if the map has it.
fn make_places(map: &mut IndexMap<Group, Queue>, group: &Group, more: usize) -> Result<(), Fault>
    requires orderly { IsOrderly map.old.entries }
    ensures orderly { IsOrderly map.new.entries }
    ensures fit { (kind : CorrelationKind) (rules : ℕ) → AllFor kind rules map.old.entries → AllFor kind rules map.new.entries }
    ensures held { (g : List (List ℕ)) → held map.new.entries g ≡ held map.old.entries g }
    ensures places { OnOk result (HasPlaces more (lookup (same_group group.now) map.new.entries)) }
    ensures others { (n : ℕ) (g : List (List ℕ)) → HasPlaces n (lookup (same_group g) map.old.entries) → HasPlaces n (lookup (same_group g) map.new.entries) }
    ensures room { spare map.new ≡ spare map.old }
    ensures err { IfErr result (λ e. e ≡ Fault.Memory) }
{
    match map.get_mut(group) {
        Some(queue) => queue.reserve(more),
        None => Ok(()),
    }
}

/// Makes room for all of these matches, wherever their groups stand.
pub(crate) fn make_places_for_all(
    map: &mut IndexMap<Group, Queue>,
    founds: &[Found],
) -> Result<(), Fault>
    requires orderly { IsOrderly map.old.entries }
    ensures orderly { IsOrderly map.new.entries }
    ensures fit { (kind : CorrelationKind) (rules : ℕ) → AllFor kind rules map.old.entries → AllFor kind rules map.new.entries }
    ensures held { (g : List (List ℕ)) → held map.new.entries g ≡ held map.old.entries g }
    ensures room { OnOk result (length founds.now ≤ spare map.new) }
    ensures placed { OnOk result (AllPlaced (length founds.now) map.new.entries founds.now) }
    ensures err { IfErr result (λ e. e ≡ Fault.Memory) }
{
    map.reserve(founds.len())?;
    for found in founds {
        make_places(map, &found.group, founds.len())?;
    }
    Ok(())
}

/// Puts a match at the end of its group's queue, or into its own queue where the map hasn't the group, and adds its report
/// if the correlation fires. Takes no memory.
fn push(
    map: &mut IndexMap<Group, Queue>,
    bound: &Bound,
    number: u32,
    own: Found,
    reports: &mut Vec<Report>,
)
    requires orderly { IsOrderly map.old.entries }
    requires fit { AllFor bound.now.kind (length bound.now.rules) map.old.entries }
    requires next { AllUntil own.found.moment map.old.entries }
    requires room { 0 < spare map.old }
    requires text { own.text ≡ own.found.counted }
    requires places { IsPlaced 1 bound.now.kind (length bound.now.rules) own.group own.fresh (lookup (same_group own.group) map.old.entries) }
    requires reports { vec_len reports.old < vec_capacity reports.old }
    ensures orderly { IsOrderly map.new.entries }
    ensures fit { AllFor bound.now.kind (length bound.now.rules) map.new.entries }
    ensures until { (t : ℤ) → own.found.moment ≤ℤ t → AllUntil t map.old.entries → AllUntil t map.new.entries }
    ensures held { (g : List (List ℕ)) → held map.new.entries g ≡ held map.old.entries g ++ of_group g ((own.group, own.found) ∷ []) }
    ensures room { spare map.old ≤ spare map.new + 1 }
    ensures ready { (n : ℕ) → IsPlaced (n + 1) bound.now.kind (length bound.now.rules) own.group own.fresh (lookup (same_group own.group) map.old.entries) → (f : declared.Found) → IsReady (n + 1) bound.now.kind (length bound.now.rules) map.old.entries f → IsReady n bound.now.kind (length bound.now.rules) map.new.entries f }
    ensures added { reports.new.items ≡ reports.old.items ++ report_of number bound.now (held map.old.entries own.group ++ own.found ∷ []) (own.group, own.found) }
    ensures few { vec_len reports.new ≤ vec_len reports.old + 1 }
    ensures capacity { vec_capacity reports.new ≡ vec_capacity reports.old }
{
    let Found {
        group,
        found,
        text,
        fresh,
    } = own;
    match map.get_mut(&group) {
        Some(queue) => {
            let entering = NewMatch {
                found,
                text,
                texts: group.into_texts(),
            };
            enter(queue, bound, number, entering, reports)
        }
        None => {
            let Some(new) = fresh else {
                return;
            };
            let mut queue = new.queue;
            let entering = NewMatch {
                found,
                text,
                texts: new.texts,
            };
            enter(&mut queue, bound, number, entering, reports);
            let _inserted = map.insert(group, queue);
        }
    }
}

/// Puts the matches of an event at the ends of their groups' queues, one after the other, and adds their reports. Takes no
/// memory.
pub(crate) fn put_all(
    map: &mut IndexMap<Group, Queue>,
    bound: &Bound,
    number: u32,
    founds: Vec<Found>,
    reports: &mut Vec<Report>,
)
    requires orderly { IsOrderly map.old.entries }
    requires fit { AllFor bound.now.kind (length bound.now.rules) map.old.entries }
    requires next { AllNext map.old.entries founds.items }
    requires in_time { AreInTime founds.items }
    requires room { length founds.items ≤ spare map.old }
    requires ready { AllReady (length founds.items) bound.now.kind (length bound.now.rules) map.old.entries founds.items }
    requires reports { vec_len reports.old + length founds.items ≤ vec_capacity reports.old }
    ensures orderly { IsOrderly map.new.entries }
    ensures fit { AllFor bound.now.kind (length bound.now.rules) map.new.entries }
    ensures held { (g : List (List ℕ)) → held map.new.entries g ≡ held map.old.entries g ++ of_group g (grouped founds.items) }
    ensures added { reports.new.items ≡ reports.old.items ++ reports_on number bound.now (held map.old.entries) [] (grouped founds.items) }
    ensures few { vec_len reports.new ≤ vec_len reports.old + length founds.items }
    ensures capacity { vec_capacity reports.new ≡ vec_capacity reports.old }
{
    for found in founds {
        push(map, bound, number, found, reports);
    }
}
