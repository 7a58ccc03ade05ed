//! Steps that fail, at the rule or at the first item that they act on.

ghost use Rattle.std.specs.Prelude.{◌≡◌, ◌∷◌, [], List, ℕ, map, Some, Err};
ghost use Rattle.std.specs.List.{list_any, flat_map};
ghost use Rattle.sig_base.specs.Judged.{Judged, first, must};
ghost use Rattle.rule_model.specs.Plain.{rule_view};
ghost use Rattle.rule_schema.specs.Inferred.{items_of};
ghost use Rattle.pipeline_check.specs.Causes.{worded};
ghost use Rattle.pipeline_model.specs.Concerned.{concerns};
ghost use Rattle.pipeline_limits.specs.Sizes.{grown_refusal};
ghost use Rattle.pipeline_edit.specs.Failed as spec;
ghost use Rattle.pipeline_edit.specs.Items as items;

use crate::rule_size::judge_grown;
use pipeline_model::Step;
use rule_detections::{Alternative, Detection, Fields, Item};
use rule_model::Rule;
use sig_base::{Code, Detail, Fault, Limits, Place, Refusal, Text};
use std::alloc::Global;

fn some_name(step: &Step, names: &[Text]) -> bool
    ensures { result ≡ list_any (concerns step.now) names.now }
{
    names.iter().any(|name| step.concerns(name))
}

/// Whether the step acts on some name of the item, or on the keyword.
fn concerns_item(step: &Step, item: &Item) -> bool
    ensures { result ≡ items.concerns_item step.now item.now }
{
    match &item.fields {
        Fields::Keyword => step.concerns_keywords(),
        Fields::Names(names) => some_name(step, names.as_slice()),
    }
}

/// The refusal with this code at this place, unless the condition holds.
fn unless(code: Code, place: Place, holds: bool) -> Option<Refusal>
    ensures { result ≡ must code place holds }
{
    if holds {
        return None;
    }
    Some(Refusal {
        code,
        place,
        detail: Detail::None,
    })
}

fn failed_item(step: &Step, item: &Item) -> Option<Refusal>
    ensures { result ≡ spec.item_failure step.now item.now }
{
    unless(Code::ITEM_FAILURE, item.place, !concerns_item(step, item))
}

#[tactic(auto, using(rule_schema::proofs::FirstRefused::line_here, rule_schema::proofs::FirstRefused::line_on))]
fn failed_items(step: &Step, items: &[Item]) -> Option<Refusal>
    ensures { result ≡ first (map (spec.item_failure step.now) items.now) }
{
    for item in items {
        if let Some(refusal) = failed_item(step, item) {
            return Some(refusal);
        }
    }
    None
}

#[tactic(auto, using(rule_schema::proofs::FirstRefused::part_here, rule_schema::proofs::FirstRefused::part_on))]
fn failed_alternatives(step: &Step, alternatives: &[Alternative]) -> Option<Refusal>
    ensures { result ≡ first (map (spec.item_failure step.now) (flat_map (λ items. items) alternatives.now)) }
{
    for alternative in alternatives {
        if let Some(refusal) = failed_items(step, alternative.as_slice()) {
            return Some(refusal);
        }
    }
    None
}

#[tactic(auto, using(rule_schema::proofs::FirstRefused::part_here, rule_schema::proofs::FirstRefused::part_on))]
fn failed_detections(step: &Step, detections: &[Detection]) -> Option<Refusal>
    ensures { result ≡ first (map (spec.item_failure step.now) (items_of detections.now)) }
{
    for detection in detections {
        if let Some(refusal) = failed_alternatives(step, detection.alternatives.as_slice()) {
            return Some(refusal);
        }
    }
    None
}

/// The refusal with this code at this place, which tells the message.
fn told(alloc: Global, code: Code, place: Place, message: &Text) -> Fault
    ensures { Judged (λ (n : List ℕ). Unit {0}) (Some (worded code place message.now)) (Err result) }
{
    match Text::copy(alloc, message.as_str()) {
        Ok(message) => Fault::Refused(Refusal {
            code,
            place,
            detail: Detail::Text(message),
        }),
        Err(fault) => fault,
    }
}

fn judge_items(
    alloc: Global,
    step: &Step,
    message: &Text,
    detections: &[Detection],
) -> Result<(), Fault>
    ensures { Judged (λ done. Unit {0}) (spec.items_failure step.now message.now detections.now) result }
{
    match failed_detections(step, detections) {
        Some(refusal) => Err(told(alloc, refusal.code, refusal.place, message)),
        None => Ok(()),
    }
}

/// The rule, unless the step acts on one of its items: the first one is refused 96 with the message.
pub fn fail_at_item(
    alloc: Global,
    limits: &Limits,
    step: &Step,
    message: &Text,
    rule: Rule,
) -> Result<Rule, Fault>
    ensures { Judged (λ made. rule_view made ≡ rule_view rule)
        (first (spec.items_failure step.now message.now rule.detections ∷ grown_refusal limits.now rule.head.place rule.detections ∷ [])) result }
{
    judge_items(alloc, step, message, rule.detections.as_slice())?;
    judge_grown(limits, rule.head.place, rule.detections.as_slice())?;
    Ok(rule)
}

/// Code 95 with the message, at the rule's place.
pub fn fail_rule(alloc: Global, message: &Text, rule: Rule) -> Result<Rule, Fault>
    ensures { Judged (λ made. rule_view made ≡ rule_view rule) (spec.rule_failure message.now (rule_view rule)) result }
{
    Err(told(alloc, Code::RULE_FAILURE, rule.head.place, message))
}
