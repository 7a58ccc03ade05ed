//! Whether a rule has more than a few names, and a mapping more than a few targets of one.

use pipeline_model::Pair;
use rule_detections::{Detection, Fields, Item, Tests};

/// So few names, entries or targets are gone through one by one.
pub const FEW: usize = 32;

/// With how many names the tests of values compare.
fn count_references(values: &[Tests]) -> usize {
    let mut count: usize = 0;
    for tests in values {
        for test in tests.as_slice() {
            if test.reference().is_some() {
                count = count.saturating_add(1);
            }
        }
    }
    count
}

/// How many names items have, and compare with.
fn count_names(items: &[Item]) -> usize {
    let mut count: usize = 0;
    for item in items {
        if let Fields::Names(names) = &item.fields {
            count = count.saturating_add(names.as_slice().len());
            count = count.saturating_add(count_references(item.tests.as_slice()));
        }
    }
    count
}

/// Whether a rule's items have more than a few names.
pub fn has_many(detections: &[Detection]) -> bool {
    let mut count: usize = 0;
    for detection in detections {
        for alternative in detection.alternatives.as_slice() {
            count = count.saturating_add(count_names(alternative.as_slice()));
        }
    }
    count > FEW
}

/// Whether an entry has more than a few targets.
pub fn has_long(pairs: &[Pair]) -> bool {
    pairs.iter().any(|pair| pair.to.as_slice().len() > FEW)
}
