//! Whether a step acts on some name of a rule's items.

use pipeline_model::Step;
use rule_detections::{Alternative, Detection, Fields, Item};

fn concerns_item(step: &Step, item: &Item) -> bool {
    match &item.fields {
        Fields::Keyword => false,
        Fields::Names(names) => names.as_slice().iter().any(|name| step.concerns(name)),
    }
}

fn concerns_items(step: &Step, items: &[Item]) -> bool {
    items.iter().any(|item| concerns_item(step, item))
}

fn concerns_alternatives(step: &Step, alternatives: &[Alternative]) -> bool {
    alternatives
        .iter()
        .any(|items| concerns_items(step, items.as_slice()))
}

/// Whether the step acts on a name of these items.
pub fn concerns_some(step: &Step, detections: &[Detection]) -> bool {
    detections.iter().any(|detection| concerns_alternatives(
        step,
        detection.alternatives.as_slice(),
    ))
}
