//! Items with other names, and what holds them.

ghost use Rattle.std.specs.Prelude.{◌≡◌, ◌+◌, map, length, IfOk, IfErr, OnOk};
ghost use Rattle.std.specs.List.{list_all};
ghost use Rattle.pipeline_rename.specs.Made.{AreUnfit, AreUnfitValues, IsFull, IsOneUnfit};
ghost use Rattle.pipeline_rename.specs.Names as spec;
ghost use Rattle.pipeline_rename.specs.Renamed as renamed;
ghost use Rattle.pipeline_limits.specs.Sizes.{total, names_in, name_count, test_count, values_count, in_detection, of_items, has_legal_names, in_every, every_item};

use crate::list::NameLimit;
use crate::mapping::Renaming;
use crate::names::rename_names;
use crate::references::rename_values;
use crate::room::{Room, pay};
use rule_detections::{
    Alternative, Alternatives, Detection, Detections, Fields, Item, Tests, Values,
};
use sig_base::{Fault, Place, Texts};
use std::alloc::Global;

#[tactic(auto, using(crate::proofs::Legality::full_unfit))]
fn rename_fields(
    alloc: Global,
    place: Place,
    left: &mut usize,
    renaming: &Renaming,
    fields: &Fields,
) -> Result<Fields, Fault>
    ensures ok { IfOk result (λ f. f ≡ renamed.renamed_fields (spec.names_for renaming.now.step.now) fields.now) }
    ensures paid { OnOk result (left.new + length (names_in (renamed.renamed_fields (spec.names_for renaming.now.step.now) fields.now)) ≡ left.old) }
    ensures unfit { IfErr result (AreUnfit place left.old (names_in (renamed.renamed_fields (spec.names_for renaming.now.step.now) fields.now))) }
{
    match fields {
        Fields::Keyword => Ok(Fields::Keyword),
        Fields::Names(names) => {
            let limit = NameLimit {
                names: *left,
                place,
            };
            let renamed = rename_names(alloc, limit, renaming, names.as_slice())?;
            *left = pay(place, *left, renamed.len())?;
            Ok(Fields::Names(Texts::from_vec(renamed)))
        }
    }
}

/// Pays for the tests of values that stay as they are.
#[tactic(auto, using(crate::proofs::Totals::paid_turn, crate::proofs::Totals::full_turn))]
fn pay_values(place: Place, left: &mut usize, values: &[Tests]) -> Result<(), Fault>
    ensures paid { OnOk result (left.new + values_count values.now ≡ left.old) }
    ensures full { IfErr result (IsFull place left.old (values_count values.now)) }
{
    for tests in values {
        *left = pay(place, *left, tests.as_slice().len())?;
    }
    Ok(())
}

/// The values of an item of these fields with other names.
#[tactic(auto, using(crate::proofs::Legality::full_unfit))]
fn rename_values_of(
    alloc: Global,
    place: Place,
    left: &mut usize,
    renaming: &Renaming,
    fields: &Fields,
    values: Values,
) -> Result<Values, Fault>
    ensures ok { IfOk result (λ vs. vs ≡ renamed.renamed_values (spec.names_for renaming.now.step.now) fields.now values) }
    ensures paid { OnOk result (left.new + values_count (renamed.renamed_values (spec.names_for renaming.now.step.now) fields.now values) ≡ left.old) }
    ensures unfit { IfErr result (AreUnfitValues place left.old (renamed.renamed_values (spec.names_for renaming.now.step.now) fields.now values)) }
{
    match fields {
        Fields::Keyword => {
            pay_values(place, left, values.as_slice())?;
            Ok(values)
        }
        Fields::Names(_) => rename_values(alloc, place, left, renaming, values.into_vec()),
    }
}

#[tactic(auto, using(crate::proofs::Legality::tests_unfit, crate::proofs::Legality::names_unfit))]
fn rename_item(
    alloc: Global,
    place: Place,
    left: &mut Room,
    renaming: &Renaming,
    item: Item,
) -> Result<Item, Fault>
    ensures ok { IfOk result (λ i. i ≡ renamed.renamed_item (spec.names_for renaming.now.step.now) item) }
    ensures names { OnOk result (left.new.names + name_count (renamed.renamed_item (spec.names_for renaming.now.step.now) item) ≡ left.old.names) }
    ensures tests { OnOk result (left.new.tests + test_count (renamed.renamed_item (spec.names_for renaming.now.step.now) item) ≡ left.old.tests) }
    ensures unfit { IfErr result (IsOneUnfit place left.old.names (name_count (renamed.renamed_item (spec.names_for renaming.now.step.now) item)) left.old.tests (test_count (renamed.renamed_item (spec.names_for renaming.now.step.now) item)) (has_legal_names (renamed.renamed_item (spec.names_for renaming.now.step.now) item))) }
{
    let Item {
        fields,
        tests,
        joined,
        place: own,
    } = item;
    let tests = rename_values_of(alloc, place, &mut left.tests, renaming, &fields, tests)?;
    let fields = rename_fields(alloc, place, &mut left.names, renaming, &fields)?;
    Ok(Item {
        fields,
        tests,
        joined,
        place: own,
    })
}

#[tactic(auto, using(crate::proofs::Totals::paid_more, crate::proofs::Totals::one_unfit_more))]
fn rename_items(
    alloc: Global,
    place: Place,
    left: &mut Room,
    renaming: &Renaming,
    items: Vec<Item>,
) -> Result<Alternative, Fault>
    ensures ok { IfOk result (λ a. a ≡ renamed.renamed_items (spec.names_for renaming.now.step.now) items.items) }
    ensures names { OnOk result (left.new.names + total name_count (renamed.renamed_items (spec.names_for renaming.now.step.now) items.items) ≡ left.old.names) }
    ensures tests { OnOk result (left.new.tests + total test_count (renamed.renamed_items (spec.names_for renaming.now.step.now) items.items) ≡ left.old.tests) }
    ensures unfit { IfErr result (IsOneUnfit place left.old.names (total name_count (renamed.renamed_items (spec.names_for renaming.now.step.now) items.items)) left.old.tests (total test_count (renamed.renamed_items (spec.names_for renaming.now.step.now) items.items)) (list_all has_legal_names (renamed.renamed_items (spec.names_for renaming.now.step.now) items.items))) }
{
    let mut renamed = Alternative::with_capacity(alloc, items.len())?;
    for item in items {
        renamed.push(rename_item(alloc, place, left, renaming, item)?)?;
    }
    Ok(renamed)
}

#[tactic(auto, using(crate::proofs::Totals::paid_more, crate::proofs::Totals::one_unfit_more))]
fn rename_alternatives(
    alloc: Global,
    place: Place,
    left: &mut Room,
    renaming: &Renaming,
    alternatives: Vec<Alternative>,
) -> Result<Alternatives, Fault>
    ensures ok { IfOk result (λ a. a ≡ map (renamed.renamed_items (spec.names_for renaming.now.step.now)) alternatives.items) }
    ensures names { OnOk result (left.new.names + total (total name_count) (map (renamed.renamed_items (spec.names_for renaming.now.step.now)) alternatives.items) ≡ left.old.names) }
    ensures tests { OnOk result (left.new.tests + total (total test_count) (map (renamed.renamed_items (spec.names_for renaming.now.step.now)) alternatives.items) ≡ left.old.tests) }
    ensures unfit { IfErr result (IsOneUnfit place left.old.names (total (total name_count) (map (renamed.renamed_items (spec.names_for renaming.now.step.now)) alternatives.items)) left.old.tests (total (total test_count) (map (renamed.renamed_items (spec.names_for renaming.now.step.now)) alternatives.items)) (list_all (list_all has_legal_names) (map (renamed.renamed_items (spec.names_for renaming.now.step.now)) alternatives.items))) }
{
    let mut renamed = Alternatives::with_capacity(alloc, alternatives.len())?;
    for items in alternatives {
        renamed.push(rename_items(alloc, place, left, renaming, items.into_vec())?)?;
    }
    Ok(renamed)
}

fn rename_detection(
    alloc: Global,
    place: Place,
    left: &mut Room,
    renaming: &Renaming,
    detection: Detection,
) -> Result<Detection, Fault>
    ensures ok { IfOk result (λ d. d ≡ renamed.renamed_detection (spec.names_for renaming.now.step.now) detection) }
    ensures names { OnOk result (left.new.names + in_detection name_count (renamed.renamed_detection (spec.names_for renaming.now.step.now) detection) ≡ left.old.names) }
    ensures tests { OnOk result (left.new.tests + in_detection test_count (renamed.renamed_detection (spec.names_for renaming.now.step.now) detection) ≡ left.old.tests) }
    ensures unfit { IfErr result (IsOneUnfit place left.old.names (in_detection name_count (renamed.renamed_detection (spec.names_for renaming.now.step.now) detection)) left.old.tests (in_detection test_count (renamed.renamed_detection (spec.names_for renaming.now.step.now) detection)) (in_every has_legal_names (renamed.renamed_detection (spec.names_for renaming.now.step.now) detection))) }
{
    let Detection {
        name,
        alternatives,
        place: own,
    } = detection;
    let alternatives = rename_alternatives(alloc, place, left, renaming, alternatives.into_vec())?;
    Ok(Detection {
        name,
        alternatives,
        place: own,
    })
}

/// The detections with other names. Where more names or tests are made than there is room for, or a name isn't
/// legal, code 99 at the place, before more of them are made.
#[tactic(auto, using(crate::proofs::Totals::paid_more, crate::proofs::Totals::one_unfit_more))]
pub fn rename_detections(
    alloc: Global,
    place: Place,
    left: &mut Room,
    renaming: &Renaming,
    detections: Vec<Detection>,
) -> Result<Detections, Fault>
    ensures ok { IfOk result (λ d. d ≡ renamed.renamed_detections (spec.names_for renaming.now.step.now) detections.items) }
    ensures names { OnOk result (left.new.names + of_items name_count (renamed.renamed_detections (spec.names_for renaming.now.step.now) detections.items) ≡ left.old.names) }
    ensures tests { OnOk result (left.new.tests + of_items test_count (renamed.renamed_detections (spec.names_for renaming.now.step.now) detections.items) ≡ left.old.tests) }
    ensures unfit { IfErr result (IsOneUnfit place left.old.names (of_items name_count (renamed.renamed_detections (spec.names_for renaming.now.step.now) detections.items)) left.old.tests (of_items test_count (renamed.renamed_detections (spec.names_for renaming.now.step.now) detections.items)) (every_item has_legal_names (renamed.renamed_detections (spec.names_for renaming.now.step.now) detections.items))) }
{
    let mut renamed = Detections::with_capacity(alloc, detections.len())?;
    for detection in detections {
        renamed.push(rename_detection(alloc, place, left, renaming, detection)?)?;
    }
    Ok(renamed)
}
