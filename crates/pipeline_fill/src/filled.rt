//! Whether detections have placeholders.

ghost use Rattle.std.specs.Prelude.{◌≡◌};
ghost use Rattle.std.specs.List.{list_all};
ghost use Rattle.rule_detections.specs.PlainTests.{is_filled_test};
ghost use Rattle.pipeline_fill.specs.Unfilled as spec;

use rule_detections::{Alternative, Detection, Item, Test, Tests};

fn is_filled_value(tests: &Tests) -> bool
    ensures { result ≡ list_all is_filled_test tests.now }
{
    tests.as_slice().iter().all(Test::is_filled)
}

fn is_filled_item(item: &Item) -> bool
    ensures { result ≡ spec.is_filled_item item.now }
{
    item.tests.as_slice().iter().all(is_filled_value)
}

fn are_filled_items(items: &Alternative) -> bool
    ensures { result ≡ list_all spec.is_filled_item items.now }
{
    items.as_slice().iter().all(is_filled_item)
}

fn is_filled_detection(detection: &Detection) -> bool
    ensures { result ≡ spec.is_filled_detection detection.now }
{
    detection
        .alternatives
        .as_slice()
        .iter()
        .all(are_filled_items)
}

/// Whether no item of these has a placeholder.
pub fn are_filled(detections: &[Detection]) -> bool
    ensures { result ≡ spec.are_filled detections.now }
{
    detections.iter().all(is_filled_detection)
}
