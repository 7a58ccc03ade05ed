//! How large a rule is.

ghost use Rattle.std.specs.Prelude.{◌≡◌, ◌+◌, ◌-◌, ◌^◌, ◌∷◌, ◌++◌, [], ◌&&◌, length, min, nat_le};
ghost use Rattle.std.specs.List.{list_all};
ghost use Rattle.sig_base.specs.Judged.{Judged};
ghost use Rattle.pipeline_limits.specs.Sizes as sizes;
ghost use Rattle.pipeline_edit.specs.Added.{added_detection};
ghost use Rattle.pipeline_edit.specs.Counted as spec;

use pipeline_limits::{detections_legal, detections_short, items_legal, items_short};
use rule_detections::{Alternative, Detection, Fields, Item, Tests};
use sig_base::{Code, Fault, Limits, Place, must};

/// What is counted of items: their names, or the tests of their values.
#[derive(Clone, Copy)]
pub enum Counted {
    Names,
    Tests,
}

fn add(count: usize, more: usize) -> usize
    ensures { result ≡ min (count + more) (2 ^ 64 - 1) }
{
    count.saturating_add(more)
}

fn count_tests(values: &[Tests]) -> usize
    ensures { result ≡ min (sizes.values_count values.now) (2 ^ 64 - 1) }
{
    let mut count = 0;
    for tests in values {
        count = add(count, tests.as_slice().len());
    }
    count
}

fn count_names(fields: &Fields) -> usize
    ensures { result ≡ min (length (sizes.names_in fields.now)) (2 ^ 64 - 1) }
{
    match fields {
        Fields::Keyword => 0,
        Fields::Names(names) => names.as_slice().len(),
    }
}

fn count_item(what: Counted, item: &Item) -> usize
    ensures { result ≡ min (spec.size_of what item.now) (2 ^ 64 - 1) }
{
    match what {
        Counted::Names => count_names(&item.fields),
        Counted::Tests => count_tests(item.tests.as_slice()),
    }
}

fn count_items(what: Counted, items: &[Item]) -> usize
    ensures { result ≡ min (sizes.total (spec.size_of what) items.now) (2 ^ 64 - 1) }
{
    let mut count = 0;
    for item in items {
        count = add(count, count_item(what, item));
    }
    count
}

fn count_alternatives(what: Counted, alternatives: &[Alternative]) -> usize
    ensures { result ≡ min (sizes.total (sizes.total (spec.size_of what)) alternatives.now) (2 ^ 64 - 1) }
{
    let mut count = 0;
    for items in alternatives {
        count = add(count, count_items(what, items.as_slice()));
    }
    count
}

fn count_detections(what: Counted, detections: &[Detection]) -> usize
    ensures { result ≡ min (sizes.of_items (spec.size_of what) detections.now) (2 ^ 64 - 1) }
{
    let mut count = 0;
    for detection in detections {
        count = add(
            count,
            count_alternatives(what, detection.alternatives.as_slice()),
        );
    }
    count
}

/// Whether there are at most as many names, or tests, as a rule may grow.
fn fits(what: Counted, limits: &Limits, detections: &[Detection]) -> bool
    ensures { result ≡ nat_le (sizes.of_items (spec.size_of what) detections.now) limits.now.grown }
{
    count_detections(what, detections) <= limits.grown
}

/// The same of these items beside the detections.
fn fits_with(what: Counted, limits: &Limits, detections: &[Detection], items: &[Item]) -> bool
    ensures { result ≡ nat_le (sizes.of_items (spec.size_of what) detections.now + sizes.total (spec.size_of what) items.now) limits.now.grown }
{
    add(count_detections(what, detections), count_items(what, items)) <= limits.grown
}

fn has_room(limits: &Limits, detections: &[Detection]) -> bool
    ensures { result ≡ sizes.has_room limits.now detections.now }
{
    fits(Counted::Names, limits, detections)
        && fits(Counted::Tests, limits, detections)
        && detections_legal(detections)
        && detections_short(limits, detections)
}

fn all_legal(detections: &[Detection], items: &[Item]) -> bool
    ensures { result ≡ (sizes.every_item sizes.has_legal_names detections.now && list_all sizes.has_legal_names items.now) }
{
    detections_legal(detections) && items_legal(items)
}

fn all_short(limits: &Limits, detections: &[Detection], items: &[Item]) -> bool
    ensures { result ≡ (sizes.every_item (sizes.has_short_patterns limits.now) detections.now && list_all (sizes.has_short_patterns limits.now) items.now) }
{
    detections_short(limits, detections) && items_short(limits, items)
}

/// Whether there is room for these items too.
fn has_room_for(limits: &Limits, detections: &[Detection], items: &[Item]) -> bool
    ensures { result ≡ spec.has_room_for limits.now detections.now items.now }
{
    fits_with(Counted::Names, limits, detections, items)
        && fits_with(Counted::Tests, limits, detections, items)
        && all_legal(detections, items)
        && all_short(limits, detections, items)
}

/// Code 99 at the place, where the rule of these detections has grown too large, or has a name that isn't legal or a pattern that
/// is too long.
pub fn judge_grown(limits: &Limits, place: Place, detections: &[Detection]) -> Result<(), Fault>
    ensures { Judged (λ done. Unit {0}) (sizes.grown_refusal limits.now place detections.now) result }
{
    must(Code::GROWN, place, has_room(limits, detections))
}

/// The same of one more detection, of these items, before it's made.
pub fn judge_added(
    limits: &Limits,
    place: Place,
    detections: &[Detection],
    items: &[Item],
) -> Result<(), Fault>
    ensures { Judged (λ done. Unit {0}) (sizes.grown_refusal limits.now place (detections.now ++ added_detection place items.now ∷ [])) result }
{
    must(Code::GROWN, place, has_room_for(limits, detections, items))
}
