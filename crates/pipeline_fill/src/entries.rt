//! The entries of a step, each found by its text without a search through all.

ghost use Rattle.std.specs.Prelude.{◌≡◌, List, map as list_map, IfOk, IfErr};
ghost use Rattle.pipeline_model.specs.Concerned.{is_among};
ghost use Rattle.pipeline_model.specs.declared.step.Pair.{Pair};
ghost use Rattle.pipeline_fill.specs.Entries as spec;
ghost use Rattle.pipeline_fill.specs.Made.{froms_of, found_of, entries_view, names_chosen, names_given, IsFound};

use crate::entry::Entry;
use crate::read_texts::measured;
use pipeline_model::{Action, Choice, Pair, Var};
use sig_base::{Fault, Text, Texts, TryCopy};
use std::alloc::Global;
use text_index::TextIndex;

fn copy_froms(alloc: Global, pairs: &[Pair]) -> Result<Texts, Fault>
    ensures ok { IfOk result (λ texts. texts ≡ froms_of pairs.now) }
    ensures err { IfErr result (λ e. e ≡ Fault.Memory) }
{
    let mut froms = Texts::with_capacity(alloc, pairs.len())?;
    for pair in pairs {
        froms.push(Text::copy(alloc, pair.from.as_str())?)?;
    }
    Ok(froms)
}

fn copy_names(alloc: Global, vars: &[Var]) -> Result<Texts, Fault>
    ensures ok { IfOk result (λ texts. texts ≡ froms_of (spec.as_pairs vars.now)) }
    ensures err { IfErr result (λ e. e ≡ Fault.Memory) }
{
    let mut names = Texts::with_capacity(alloc, vars.len())?;
    for var in vars {
        names.push(Text::copy(alloc, var.name.as_str())?)?;
    }
    Ok(names)
}

/// The texts of an action's entries.
pub fn keys_in(alloc: Global, vars: &[Var], action: &Action) -> Result<Texts, Fault>
    ensures ok { IfOk result (λ texts. texts ≡ froms_of (spec.entries_of vars.now action.now)) }
    ensures err { IfErr result (λ e. e ≡ Fault.Memory) }
{
    match action {
        Action::MapTexts(pairs) => copy_froms(alloc, pairs.as_slice()),
        Action::FillHoles(_) => copy_names(alloc, vars),
        Action::MapNames(_)
        | Action::Prefix(_)
        | Action::Suffix(_)
        | Action::MapPrefixes(_)
        | Action::Drop
        | Action::Add { .. }
        | Action::Source(_)
        | Action::WildHoles(_)
        | Action::FailRule(_)
        | Action::FailItem(_) => Ok(Texts::new(alloc)),
    }
}

fn list_targets<'s>(alloc: Global, pairs: &'s [Pair]) -> Result<Vec<Entry<'s>>, Fault>
    ensures ok { IfOk result (λ all. entries_view all.items ≡ list_map found_of pairs.now) }
    ensures err { IfErr result (λ e. e ≡ Fault.Memory) }
{
    let mut all = Vec::with_capacity(alloc, pairs.len())?;
    for pair in pairs {
        all.push(measured(alloc, pair.to.as_slice())?)?;
    }
    Ok(all)
}

fn list_values<'s>(alloc: Global, vars: &'s [Var]) -> Result<Vec<Entry<'s>>, Fault>
    ensures ok { IfOk result (λ all. entries_view all.items ≡ list_map found_of (spec.as_pairs vars.now)) }
    ensures err { IfErr result (λ e. e ≡ Fault.Memory) }
{
    let mut all = Vec::with_capacity(alloc, vars.len())?;
    for var in vars {
        all.push(measured(alloc, var.values.as_slice())?)?;
    }
    Ok(all)
}

/// The entries of an action, in the order of their texts.
pub fn lists_in<'s>(
    alloc: Global,
    vars: &'s [Var],
    action: &'s Action,
) -> Result<Vec<Entry<'s>>, Fault>
    ensures ok { IfOk result (λ all. entries_view all.items ≡ list_map found_of (spec.entries_of vars.now action.now)) }
    ensures err { IfErr result (λ e. e ≡ Fault.Memory) }
{
    match action {
        Action::MapTexts(pairs) => list_targets(alloc, pairs.as_slice()),
        Action::FillHoles(_) => list_values(alloc, vars),
        Action::MapNames(_)
        | Action::Prefix(_)
        | Action::Suffix(_)
        | Action::MapPrefixes(_)
        | Action::Drop
        | Action::Add { .. }
        | Action::Source(_)
        | Action::WildHoles(_)
        | Action::FailRule(_)
        | Action::FailItem(_) => Ok(Vec::new(alloc)),
    }
}

fn copy_given(alloc: Global, choice: &Choice) -> Result<Texts, Fault>
    ensures ok { IfOk result (λ texts. texts ≡ names_given choice.now) }
    ensures err { IfErr result (λ e. e ≡ Fault.Memory) }
{
    match choice {
        Choice::Every => Ok(Texts::new(alloc)),
        Choice::Include(names) => names.try_copy(alloc),
        Choice::Exclude(names) => names.try_copy(alloc),
    }
}

/// The names that an action's choice gives.
pub fn chosen_in(alloc: Global, action: &Action) -> Result<Texts, Fault>
    ensures ok { IfOk result (λ texts. texts ≡ names_chosen action.now) }
    ensures err { IfErr result (λ e. e ≡ Fault.Memory) }
{
    match action {
        Action::FillHoles(choice) => copy_given(alloc, choice),
        Action::WildHoles(choice) => copy_given(alloc, choice),
        Action::MapNames(_)
        | Action::Prefix(_)
        | Action::Suffix(_)
        | Action::MapPrefixes(_)
        | Action::Drop
        | Action::Add { .. }
        | Action::Source(_)
        | Action::MapTexts(_)
        | Action::FailRule(_)
        | Action::FailItem(_) => Ok(Texts::new(alloc)),
    }
}

/// The first entry of a text.
#[tactic(auto, using(crate::proofs::Found::none_found, crate::proofs::Found::some_found, crate::proofs::Found::never_missing))]
pub fn find<'s>(keys: &TextIndex, lists: &[Entry<'s>], text: &Text) -> Option<Entry<'s>>
    ensures { (pairs : List Pair) → keys.now ≡ froms_of pairs → entries_view lists.now ≡ list_map found_of pairs → IsFound (spec.texts_for pairs text.now) result }
{
    let Some(number) = keys.find(text) else {
        return None;
    };
    match lists.get(number as usize) {
        Some(entry) => Some(*entry),
        None => None,
    }
}

/// Whether a text is one of those of the index.
#[tactic(auto, using(crate::proofs::Found::is_there, crate::proofs::Found::isnt_there))]
pub fn contains(index: &TextIndex, text: &Text) -> bool
    ensures { result ≡ is_among index.now text.now }
{
    match index.find(text) {
        Some(_) => true,
        None => false,
    }
}
