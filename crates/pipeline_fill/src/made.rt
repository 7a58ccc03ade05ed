//! The tests that take a test's place.

ghost use Rattle.std.specs.Prelude.{◌≡◌, ◌++◌, map as list_map, IfOk, IfErr, OnOk};
ghost use Rattle.rule_detections.specs.declared.test.Test.TheVariants as tests;
ghost use Rattle.pipeline_fill.specs.Changed as changed;
ghost use Rattle.pipeline_fill.specs.Entries as spec;

use crate::change::Change;
use crate::fillings::fill;
use crate::read_texts::{Front, read_values};
use pipeline_model::Action;
use rule_detections::{Test, Tests};
use sig_base::{Fault, Sequence};
use sig_strings::{Part, Pattern, SharedPattern};
use std::alloc::Global;

/// Patterns in order, which contracts see as a list of lists.
type Fronts = Sequence<Front>;

#[tactic(auto, using(crate::proofs::Growing::stays_unfilled, crate::proofs::Growing::is_filled))]
fn fill_chosen(alloc: Global, change: &Change, parts: &[Part]) -> Result<Option<Fronts>, Fault>
    ensures ok { IfOk result (λ o. o ≡ changed.filled_if_chosen change.now.vars.now change.now.step.now.action parts.now) }
    ensures err { IfErr result (λ e. e ≡ Fault.Memory) }
{
    if !change.has_chosen(alloc, parts)? {
        return Ok(None);
    }
    let fronts = fill(alloc, change, parts)?;
    Ok(Some(Fronts::from_vec(fronts)))
}

#[tactic(auto, using(crate::proofs::Growing::mapped_wild, crate::proofs::Growing::mapped_text))]
fn mapped(alloc: Global, change: &Change, pattern: &SharedPattern) -> Result<Option<Fronts>, Fault>
    ensures ok { IfOk result (λ o. o ≡ changed.mapped (spec.entries_of change.now.vars.now change.now.step.now.action) pattern.now) }
    ensures err { IfErr result (λ e. e ≡ Fault.Memory) }
{
    let Some(text) = pattern.plain_text(alloc)? else {
        return Ok(None);
    };
    match change.entry_of(&text) {
        Some(entry) => {
            let fronts = read_values(alloc, entry.texts)?;
            Ok(Some(Fronts::from_vec(fronts)))
        }
        None => Ok(None),
    }
}

/// The patterns that take a pattern's place, or `None` where it stays.
fn made_of(alloc: Global, change: &Change, pattern: &SharedPattern) -> Result<Option<Fronts>, Fault>
    ensures ok { IfOk result (λ o. o ≡ changed.made_of change.now.vars.now change.now.step.now.action pattern.now) }
    ensures err { IfErr result (λ e. e ≡ Fault.Memory) }
{
    match &change.step.action {
        Action::MapTexts(_) => mapped(alloc, change, pattern),
        Action::FillHoles(_) => fill_chosen(alloc, change, pattern.parts()),
        Action::WildHoles(_) => fill_chosen(alloc, change, pattern.parts()),
        Action::MapNames(_)
        | Action::Prefix(_)
        | Action::Suffix(_)
        | Action::MapPrefixes(_)
        | Action::Drop
        | Action::Add { .. }
        | Action::Source(_)
        | Action::FailRule(_)
        | Action::FailItem(_) => Ok(None),
    }
}

fn put_in(alloc: Global, change: &Change, test: &Test) -> Result<Option<Fronts>, Fault>
    ensures ok { IfOk result (λ o. o ≡ changed.put_in change.now.vars.now change.now.step.now.action test.now) }
    ensures err { IfErr result (λ e. e ≡ Fault.Memory) }
{
    match test {
        Test::Fits { pattern, cased: _ } => made_of(alloc, change, pattern),
        Test::Absent
        | Test::Exists(_)
        | Test::Equals(_)
        | Test::Inside(_)
        | Test::Compare { .. }
        | Test::SameAs(_)
        | Test::Finds { .. } => Ok(None),
    }
}

fn is_cased(test: &Test) -> bool
    ensures { result ≡ changed.is_cased test.now }
{
    match test {
        Test::Fits { pattern: _, cased } => *cased,
        Test::Absent
        | Test::Exists(_)
        | Test::Equals(_)
        | Test::Inside(_)
        | Test::Compare { .. }
        | Test::SameAs(_)
        | Test::Finds { .. } => false,
    }
}

/// Adds a test of each pattern.
fn push_tests(
    alloc: Global,
    all: &mut Vec<Test>,
    fronts: Vec<Front>,
    cased: bool,
) -> Result<(), Fault>
    ensures ok { OnOk result (all.new.items ≡ all.old.items ++ list_map (λ parts. tests.Fits parts cased) fronts.items) }
    ensures err { IfErr result (λ e. e ≡ Fault.Memory) }
{
    for front in fronts {
        let pattern = SharedPattern::share(alloc, Pattern::of_parts(front.into_vec()))?;
        all.push(Test::Fits { pattern, cased })?;
    }
    Ok(())
}

/// Adds what becomes of a test.
fn push_changed(
    alloc: Global,
    change: &Change,
    all: &mut Vec<Test>,
    test: Test,
) -> Result<(), Fault>
    ensures ok { OnOk result (all.new.items ≡ all.old.items ++ changed.changed_test change.now.vars.now change.now.step.now.action test) }
    ensures err { IfErr result (λ e. e ≡ Fault.Memory) }
{
    let Some(fronts) = put_in(alloc, change, &test)? else {
        all.push(test)?;
        return Ok(());
    };
    push_tests(alloc, all, fronts.into_vec(), is_cased(&test))
}

/// The tests that take the place of a value's.
pub fn change_value(alloc: Global, change: &Change, tests: Vec<Test>) -> Result<Tests, Fault>
    ensures ok { IfOk result (λ ts. ts ≡ changed.changed_value change.now.vars.now change.now.step.now.action tests.items) }
    ensures err { IfErr result (λ e. e ≡ Fault.Memory) }
{
    let mut all = Vec::with_capacity(alloc, tests.len())?;
    for test in tests {
        push_changed(alloc, change, &mut all, test)?;
    }
    Ok(Tests::from_vec(all))
}
