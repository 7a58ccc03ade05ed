//! Names that are legal, and patterns that are short, in all of a rule's items.

ghost use Rattle.std.specs.Prelude.{◌≡◌, true};
ghost use Rattle.std.specs.List.{list_all};
ghost use Rattle.event_schema.specs.Names as legal;
ghost use Rattle.pipeline_limits.specs.Sizes as spec;

use event_schema::is_legal;
use rule_detections::{Alternative, Detection, Fields, Item, Test, Tests};
use sig_base::{Limits, Text};

fn names_legal(names: &[Text]) -> bool
    ensures { result ≡ list_all legal.is_legal names.now }
{
    names.iter().all(|name| is_legal(name))
}

fn fields_legal(fields: &Fields) -> bool
    ensures { result ≡ list_all legal.is_legal (spec.names_in fields.now) }
{
    match fields {
        Fields::Keyword => true,
        Fields::Names(names) => names_legal(names.as_slice()),
    }
}

fn compares_legally(test: &Test) -> bool
    ensures { result ≡ spec.compares_legally test.now }
{
    match test.reference() {
        None => true,
        Some(name) => is_legal(name),
    }
}

fn tests_legal(tests: &[Test]) -> bool
    ensures { result ≡ list_all spec.compares_legally tests.now }
{
    tests.iter().all(compares_legally)
}

fn values_legal(values: &[Tests]) -> bool
    ensures { result ≡ list_all (list_all spec.compares_legally) values.now }
{
    values.iter().all(|tests| tests_legal(tests.as_slice()))
}

fn item_legal(item: &Item) -> bool
    ensures { result ≡ spec.has_legal_names item.now }
{
    fields_legal(&item.fields) && values_legal(item.tests.as_slice())
}

/// Whether each name of the items is legal.
pub fn items_legal(items: &[Item]) -> bool
    ensures { result ≡ list_all spec.has_legal_names items.now }
{
    items.iter().all(item_legal)
}

fn alternatives_legal(alternatives: &[Alternative]) -> bool
    ensures { result ≡ list_all (list_all spec.has_legal_names) alternatives.now }
{
    alternatives
        .iter()
        .all(|items| items_legal(items.as_slice()))
}

/// Whether each name of the detections' items is legal.
pub fn detections_legal(detections: &[Detection]) -> bool
    ensures { result ≡ spec.every_item spec.has_legal_names detections.now }
{
    detections.iter().all(|detection| alternatives_legal(detection.alternatives.as_slice()))
}

fn has_few_parts(most: usize, test: &Test) -> bool
    ensures { result ≡ spec.has_few_parts most test.now }
{
    match test {
        Test::Fits { pattern, .. } => pattern.parts().len() <= most,
        Test::Absent
        | Test::Exists(_)
        | Test::Equals(_)
        | Test::Inside(_)
        | Test::Compare { .. }
        | Test::SameAs(_)
        | Test::Finds { .. } => true,
    }
}

fn tests_short(most: usize, tests: &[Test]) -> bool
    ensures { result ≡ list_all (spec.has_few_parts most) tests.now }
{
    tests.iter().all(|test| has_few_parts(most, test))
}

fn item_short(limits: &Limits, item: &Item) -> bool
    ensures { result ≡ spec.has_short_patterns limits.now item.now }
{
    item.tests
        .as_slice()
        .iter()
        .all(|tests| tests_short(limits.value_chars, tests.as_slice()))
}

/// Whether no pattern of the items has more than `value_chars` parts.
pub fn items_short(limits: &Limits, items: &[Item]) -> bool
    ensures { result ≡ list_all (spec.has_short_patterns limits.now) items.now }
{
    items.iter().all(|item| item_short(limits, item))
}

fn alternatives_short(limits: &Limits, alternatives: &[Alternative]) -> bool
    ensures { result ≡ list_all (list_all (spec.has_short_patterns limits.now)) alternatives.now }
{
    alternatives
        .iter()
        .all(|items| items_short(limits, items.as_slice()))
}

/// Whether no pattern of the detections' items has more than `value_chars` parts.
pub fn detections_short(limits: &Limits, detections: &[Detection]) -> bool
    ensures { result ≡ spec.every_item (spec.has_short_patterns limits.now) detections.now }
{
    detections.iter().all(|detection| alternatives_short(limits, detection.alternatives.as_slice()))
}
