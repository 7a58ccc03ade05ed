//! How large a rule becomes, and whether it may.

ghost use Rattle.std.specs.Prelude.{ℕ, ◌≡◌, ◌+◌, ◌&&◌, nat_le, max, List, length, map as list_map};
ghost use Rattle.sig_base.specs.Judged.{Judged};
ghost use Rattle.pipeline_model.specs.declared.pipeline.Var.{Var};
ghost use Rattle.pipeline_model.specs.declared.step.Step.{Step};
ghost use Rattle.pipeline_limits.specs.Sizes.{total, in_detection, of_items, names_in, name_count, test_count, has_room as has_room_of};
ghost use Rattle.pipeline_fill.specs.Changed as changed;
ghost use Rattle.pipeline_fill.specs.Counts.{capped};
ghost use Rattle.pipeline_fill.specs.Entries.{largest};
ghost use Rattle.pipeline_fill.specs.Extent.{item_extent};
ghost use Rattle.pipeline_fill.specs.Grown as grown;
ghost use Rattle.pipeline_fill.specs.Longest as spec;
ghost use Rattle.pipeline_fill.specs.Made.{IsSize};

use crate::change::Change;
use crate::growth::{Size, add, larger};
use crate::measures::{measure_kept, measure_values};
use pipeline_limits::detections_legal;
use rule_detections::{Alternative, Detection, Fields, Item};
use sig_base::{Code, Fault, Limits, Place, refused};
use std::alloc::Global;

fn count_names(fields: &Fields) -> u128
    ensures { result ≡ capped (length (names_in fields.now)) }
{
    match fields {
        Fields::Keyword => 0,
        Fields::Names(names) => names.as_slice().len() as u128,
    }
}

fn nothing() -> Size
    ensures { IsSize 0 0 0 0 result }
{
    Size {
        names: 0,
        tests: 0,
        longest: 0,
        extent: 0,
    }
}

fn both(one: Size, other: Size) -> Size
    ensures names { result.names ≡ capped (one.names + other.names) }
    ensures tests { result.tests ≡ capped (one.tests + other.tests) }
    ensures longest { result.longest ≡ max one.longest other.longest }
    ensures extent { result.extent ≡ capped (one.extent + other.extent) }
{
    Size {
        names: add(one.names, other.names),
        tests: add(one.tests, other.tests),
        longest: larger(one.longest, other.longest),
        extent: add(one.extent, other.extent),
    }
}

/// What an item grows to; code 98 at the item where a placeholder that is chosen has no variable.
fn measure_item(alloc: Global, change: &Change, item: &Item) -> Result<Size, Fault>
    ensures { Judged (λ s. IsSize (name_count (changed.changed_item change.now.vars.now change.now.step.now item.now))
        (test_count (changed.changed_item change.now.vars.now change.now.step.now item.now))
        (spec.longest_item (changed.changed_item change.now.vars.now change.now.step.now item.now))
        (item_extent (changed.changed_item change.now.vars.now change.now.step.now item.now)) s) (grown.open_item change.now.vars.now change.now.step.now item.now) result }
{
    let names = count_names(&item.fields);
    if !change.acts_on(&item.fields) {
        let kept = measure_kept(item.tests.as_slice());
        return Ok(Size {
            names,
            tests: kept.tests,
            longest: kept.longest,
            extent: kept.extent,
        });
    }
    let growth = measure_values(alloc, change, item.tests.as_slice())?;
    if growth.lacking {
        return Err(refused(Code::OPEN_PLACEHOLDER, item.place));
    }
    Ok(Size {
        names,
        tests: growth.tests,
        longest: growth.longest,
        extent: growth.extent,
    })
}

#[tactic(auto, using(crate::proofs::Sums::sum_turn, crate::proofs::Sums::most_turn))]
fn measure_items(alloc: Global, change: &Change, items: &[Item]) -> Result<Size, Fault>
    ensures { Judged (λ s. IsSize (total name_count (changed.changed_items change.now.vars.now change.now.step.now items.now))
        (total test_count (changed.changed_items change.now.vars.now change.now.step.now items.now))
        (spec.longest_items (changed.changed_items change.now.vars.now change.now.step.now items.now))
        (total item_extent (changed.changed_items change.now.vars.now change.now.step.now items.now)) s) (grown.open_items change.now.vars.now change.now.step.now items.now) result }
{
    let mut size = nothing();
    for item in items {
        size = both(size, measure_item(alloc, change, item)?);
    }
    Ok(size)
}

fn measure_detection(alloc: Global, change: &Change, detection: &Detection) -> Result<Size, Fault>
    ensures { Judged (λ s. IsSize (in_detection name_count (changed.changed_detection change.now.vars.now change.now.step.now detection.now))
        (in_detection test_count (changed.changed_detection change.now.vars.now change.now.step.now detection.now))
        (spec.longest_detection (changed.changed_detection change.now.vars.now change.now.step.now detection.now))
        (in_detection item_extent (changed.changed_detection change.now.vars.now change.now.step.now detection.now)) s) (grown.open_detection change.now.vars.now change.now.step.now detection.now) result }
{
    measure_alternatives(alloc, change, detection.alternatives.as_slice())
}

#[tactic(auto, using(crate::proofs::Sums::sum_turn, crate::proofs::Sums::most_turn))]
fn measure_alternatives(
    alloc: Global,
    change: &Change,
    alternatives: &[Alternative],
) -> Result<Size, Fault>
    ensures { Judged (λ s. IsSize (total (total name_count) (list_map (changed.changed_items change.now.vars.now change.now.step.now) alternatives.now))
        (total (total test_count) (list_map (changed.changed_items change.now.vars.now change.now.step.now) alternatives.now))
        (largest spec.longest_items (list_map (changed.changed_items change.now.vars.now change.now.step.now) alternatives.now))
        (total (total item_extent) (list_map (changed.changed_items change.now.vars.now change.now.step.now) alternatives.now)) s)
        (grown.first_of (grown.open_items change.now.vars.now change.now.step.now) alternatives.now) result }
{
    let mut size = nothing();
    for items in alternatives {
        size = both(size, measure_items(alloc, change, items.as_slice())?);
    }
    Ok(size)
}

#[tactic(auto, using(crate::proofs::Sums::sum_turn, crate::proofs::Sums::most_turn))]
fn measure_detections(
    alloc: Global,
    change: &Change,
    detections: &[Detection],
) -> Result<Size, Fault>
    ensures { Judged (λ s. IsSize (of_items name_count (changed.changed_detections change.now.vars.now change.now.step.now detections.now))
        (of_items test_count (changed.changed_detections change.now.vars.now change.now.step.now detections.now))
        (spec.longest_pattern (changed.changed_detections change.now.vars.now change.now.step.now detections.now))
        (of_items item_extent (changed.changed_detections change.now.vars.now change.now.step.now detections.now)) s) (grown.open_refusal change.now.vars.now change.now.step.now detections.now) result }
{
    let mut size = nothing();
    for detection in detections {
        size = both(size, measure_detection(alloc, change, detection)?);
    }
    Ok(size)
}

/// Whether a rule may be so large, but for all its patterns together.
fn fits(limits: &Limits, size: Size) -> bool
    ensures { (names tests longest extent : ℕ) → IsSize names tests longest extent size
        → result ≡ (nat_le names limits.now.grown && nat_le tests limits.now.grown && nat_le longest limits.now.value_chars) }
{
    size.names <= limits.grown as u128
        && size.tests <= limits.grown as u128
        && size.longest <= limits.value_chars as u128
}

/// Whether the patterns of a rule may have so many parts together.
fn fits_together(limits: &Limits, size: Size) -> bool
    ensures { (names tests longest extent : ℕ) → IsSize names tests longest extent size → result ≡ nat_le extent limits.now.query_bytes }
{
    size.extent <= limits.query_bytes as u128
}

/// Whether there is room for the rule that a step makes of these detections, where that is so large. Its names are theirs.
fn has_room(limits: &Limits, size: Size, detections: &[Detection]) -> bool
    ensures { (vars : List Var) (step : Step) → IsSize (of_items name_count (changed.changed_detections vars step detections.now))
        (of_items test_count (changed.changed_detections vars step detections.now)) (spec.longest_pattern (changed.changed_detections vars step detections.now))
        (of_items item_extent (changed.changed_detections vars step detections.now)) size
        → result ≡ has_room_of limits.now (changed.changed_detections vars step detections.now) }
{
    fits(limits, size) && detections_legal(detections)
}

/// Why a step refuses a rule: code 98 at the first item with a placeholder that is chosen and has no variable, and then code 99
/// at the place, where the rule that it makes would be too large, or have a name that isn't legal, or where its patterns would
/// have more than `query_bytes` parts together.
pub fn judge(
    alloc: Global,
    limits: &Limits,
    place: Place,
    change: &Change,
    detections: &[Detection],
) -> Result<(), Fault>
    ensures { Judged (λ done. Unit {0}) (grown.change_refusal limits.now change.now.vars.now change.now.step.now place detections.now) result }
{
    let size = measure_detections(alloc, change, detections)?;
    if has_room(limits, size, detections) && fits_together(limits, size) {
        return Ok(());
    }
    Err(refused(Code::GROWN, place))
}
