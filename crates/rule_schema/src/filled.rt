//! Whether the placeholders of a rule are filled.

ghost use Rattle.std.specs.Prelude.{◌≡◌, map};
ghost use Rattle.std.specs.List.{list_all, flat_map};
ghost use Rattle.rule_model.specs.Plain.{rule_view};
ghost use Rattle.rule_schema.specs.Fitting.{AnswersRefusal};
ghost use Rattle.rule_schema.specs.Inferred as spec;
ghost use Rattle.sig_base.specs.Judged.{first};
ghost use Rattle.rule_detections.specs.PlainTests.{is_filled_test};

use crate::fit::unless;
use rule_detections::{Alternative, Detection, Item, Test, Tests};
use rule_model::Rule;
use sig_base::{Code, Refusal};

fn is_filled(tests: &Tests) -> bool
    ensures { result ≡ list_all is_filled_test tests.now }
{
    tests.as_slice().iter().all(Test::is_filled)
}

fn is_filled_item(item: &Item) -> bool
    ensures { result ≡ spec.is_filled_item item.now }
{
    item.tests.as_slice().iter().all(is_filled)
}

fn open_item(item: &Item) -> Option<Refusal>
    ensures { result ≡ spec.open_line item.now }
{
    unless(Code::OPEN_PLACEHOLDER, item.place, is_filled_item(item))
}

#[tactic(auto, using(crate::proofs::FirstRefused::line_here, crate::proofs::FirstRefused::line_on))]
fn open_items(items: &[Item]) -> Option<Refusal>
    ensures { result ≡ first (map spec.open_line items.now) }
{
    for item in items {
        if let Some(refusal) = open_item(item) {
            return Some(refusal);
        }
    }
    None
}

#[tactic(auto, using(crate::proofs::FirstRefused::part_here, crate::proofs::FirstRefused::part_on))]
fn open_alternatives(alternatives: &[Alternative]) -> Option<Refusal>
    ensures { result ≡ first (map spec.open_line (flat_map (λ items. items) alternatives.now)) }
{
    for alternative in alternatives {
        if let Some(refusal) = open_items(alternative.as_slice()) {
            return Some(refusal);
        }
    }
    None
}

#[tactic(auto, using(crate::proofs::FirstRefused::part_here, crate::proofs::FirstRefused::part_on))]
fn open_detections(detections: &[Detection]) -> Option<Refusal>
    ensures { result ≡ first (map spec.open_line (spec.items_of detections.now)) }
{
    for detection in detections {
        if let Some(refusal) = open_alternatives(detection.alternatives.as_slice()) {
            return Some(refusal);
        }
    }
    None
}

/// Whether no placeholder of a rule stands open, without memory: the rule's first item, in its order, of which one does is refused 98.
pub fn check_filled(rule: &Rule) -> Result<(), Refusal>
    ensures { AnswersRefusal (spec.open_refusal (rule_view rule.now)) result }
{
    match open_detections(rule.detections.as_slice()) {
        Some(refusal) => Err(refusal),
        None => Ok(()),
    }
}
