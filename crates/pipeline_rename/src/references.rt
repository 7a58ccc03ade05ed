//! The names that tests compare with.

ghost use Rattle.std.specs.Prelude.{◌≡◌, ◌+◌, ◌++◌, ◌∷◌, [], map, length, IfOk, IfErr, OnOk};
ghost use Rattle.std.specs.List.{list_all};
ghost use Rattle.event_schema.specs.Names as legal;
ghost use Rattle.pipeline_rename.specs.Made.{texts_made, AreUnfitTests, AreUnfitValues, IsIllegal};
ghost use Rattle.pipeline_rename.specs.Names as spec;
ghost use Rattle.pipeline_rename.specs.Renamed as renamed;
ghost use Rattle.pipeline_limits.specs.Sizes.{values_count, compares_legally};
ghost use Rattle.rule_detections.specs.declared.test.Test.TheVariants as tests;

use crate::made::{Made, joined};
use crate::mapping::Renaming;
use crate::room::{grown, pay};
use event_schema::is_legal;
use rule_detections::{Test, Tests, Values};
use sig_base::{Fault, Place, Sequence, Text};
use std::alloc::Global;

/// Adds a test that compares with the field of a name, where the name is legal.
fn push_one(place: Place, all: &mut Vec<Test>, name: Text) -> Result<(), Fault>
    ensures ok { OnOk result (all.new.items ≡ all.old.items ++ tests.SameAs name ∷ []) }
    ensures illegal { IfErr result (IsIllegal place (legal.is_legal name)) }
{
    if !is_legal(&name) {
        return Err(grown(place));
    }
    all.push(Test::SameAs(name))?;
    Ok(())
}

#[tactic(auto, using(crate::proofs::Legality::illegal_front))]
fn push_each(
    alloc: Global,
    place: Place,
    all: &mut Vec<Test>,
    prefixes: &[Text],
    back: &Text,
) -> Result<(), Fault>
    ensures ok { OnOk result (all.new.items ≡ all.old.items ++ map tests.SameAs (spec.each_before prefixes.now back.now)) }
    ensures illegal { IfErr result (IsIllegal place (list_all compares_legally (map tests.SameAs (spec.each_before prefixes.now back.now)))) }
{
    for front in prefixes {
        push_one(place, all, joined(alloc, front, back)?)?;
    }
    Ok(())
}

/// Adds a test for each name that is made, where all of them are legal.
#[tactic(auto, using(crate::proofs::Legality::illegal_one))]
fn push_made(alloc: Global, place: Place, all: &mut Vec<Test>, made: Made) -> Result<(), Fault>
    ensures ok { OnOk result (all.new.items ≡ all.old.items ++ map tests.SameAs (texts_made made.entry)) }
    ensures illegal { IfErr result (IsIllegal place (list_all compares_legally (map tests.SameAs (texts_made made.entry)))) }
{
    match made {
        Made::One(text) => {
            push_one(place, all, text)?;
            Ok(())
        }
        Made::Each { prefixes, back } => push_each(alloc, place, all, prefixes, &back),
    }
}

/// Adds a test for each name that the step makes of the one that a test compares with.
#[tactic(auto, using(crate::proofs::Legality::full_compared, crate::proofs::Legality::illegal_compared))]
fn push_compared(
    alloc: Global,
    place: Place,
    left: &mut usize,
    renaming: &Renaming,
    all: &mut Vec<Test>,
    name: &Text,
) -> Result<(), Fault>
    ensures ok { OnOk result (all.new.items ≡ all.old.items ++ map tests.SameAs (spec.names_for renaming.now.step.now name.now)) }
    ensures paid { OnOk result (left.new + length (spec.names_for renaming.now.step.now name.now) ≡ left.old) }
    ensures unfit { IfErr result (AreUnfitTests place left.old (map tests.SameAs (spec.names_for renaming.now.step.now name.now))) }
{
    let made = renaming.made(alloc, name)?;
    *left = pay(place, *left, made.count())?;
    push_made(alloc, place, all, made)?;
    Ok(())
}

/// Adds what becomes of a test.
#[tactic(auto, using(crate::proofs::Legality::full_unfit))]
fn push_renamed(
    alloc: Global,
    place: Place,
    left: &mut usize,
    renaming: &Renaming,
    all: &mut Vec<Test>,
    test: Test,
) -> Result<(), Fault>
    ensures ok { OnOk result (all.new.items ≡ all.old.items ++ renamed.renamed_test (spec.names_for renaming.now.step.now) test) }
    ensures paid { OnOk result (left.new + length (renamed.renamed_test (spec.names_for renaming.now.step.now) test) ≡ left.old) }
    ensures unfit { IfErr result (AreUnfitTests place left.old (renamed.renamed_test (spec.names_for renaming.now.step.now) test)) }
{
    if let Some(name) = test.reference() {
        return push_compared(alloc, place, left, renaming, all, name);
    }
    *left = pay(place, *left, 1)?;
    all.push(test)?;
    Ok(())
}

/// The tests of a value with other names.
#[tactic(auto, using(crate::proofs::Totals::flat_paid, crate::proofs::Totals::flat_unfit))]
fn rename_tests(
    alloc: Global,
    place: Place,
    left: &mut usize,
    renaming: &Renaming,
    tests: Vec<Test>,
) -> Result<Tests, Fault>
    ensures ok { IfOk result (λ ts. ts ≡ renamed.renamed_value (spec.names_for renaming.now.step.now) tests.items) }
    ensures paid { OnOk result (left.new + length (renamed.renamed_value (spec.names_for renaming.now.step.now) tests.items) ≡ left.old) }
    ensures unfit { IfErr result (AreUnfitTests place left.old (renamed.renamed_value (spec.names_for renaming.now.step.now) tests.items)) }
{
    let mut all = Vec::with_capacity(alloc, tests.len())?;
    for test in tests {
        push_renamed(alloc, place, left, renaming, &mut all, test)?;
    }
    Ok(Sequence::from_vec(all))
}

/// The values of an item with other names.
#[tactic(auto, using(crate::proofs::Totals::paid_more, crate::proofs::Totals::unfit_more))]
pub fn rename_values(
    alloc: Global,
    place: Place,
    left: &mut usize,
    renaming: &Renaming,
    values: Vec<Tests>,
) -> Result<Values, Fault>
    ensures ok { IfOk result (λ vs. vs ≡ map (renamed.renamed_value (spec.names_for renaming.now.step.now)) values.items) }
    ensures paid { OnOk result (left.new + values_count (map (renamed.renamed_value (spec.names_for renaming.now.step.now)) values.items) ≡ left.old) }
    ensures unfit { IfErr result (AreUnfitValues place left.old (map (renamed.renamed_value (spec.names_for renaming.now.step.now)) values.items)) }
{
    let mut renamed = Values::with_capacity(alloc, values.len())?;
    for tests in values {
        renamed.push(rename_tests(alloc, place, left, renaming, tests.into_vec())?)?;
    }
    Ok(renamed)
}
