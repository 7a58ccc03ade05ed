//! The step that drops names.

ghost use Rattle.std.specs.Prelude.{◌≡◌, ◌++◌, ◌∷◌, [], map, filter, IfOk, IfErr, OnOk};
ghost use Rattle.std.specs.List.{list_any};
ghost use Rattle.sig_base.specs.Judged.{Judged, first};
ghost use Rattle.yaml_tree.specs.Nodes.{is_empty};
ghost use Rattle.rule_model.specs.Plain.{rule_view};
ghost use Rattle.pipeline_limits.specs.Sizes.{grown_refusal};
ghost use Rattle.pipeline_edit.specs.Dropped as spec;

use crate::rule_size::judge_grown;
use pipeline_model::Step;
use rule_detections::{Alternative, Alternatives, Detection, Detections, Fields, Item};
use rule_model::Rule;
use sig_base::{Code, Fault, Limits, Text, Texts, must};
use std::alloc::Global;

/// The names that the step leaves.
fn keep_names(alloc: Global, step: &Step, names: Vec<Text>) -> Result<Vec<Text>, Fault>
    ensures ok { IfOk result (λ kept. kept.items ≡ filter (spec.stays step.now) names.items) }
    ensures err { IfErr result (λ e. e ≡ Fault.Memory) }
{
    let mut kept = Vec::with_capacity(alloc, names.len())?;
    for name in names {
        if step.concerns(&name) {
            continue;
        }
        kept.push(name)?;
    }
    Ok(kept)
}

fn names_if_any(names: Vec<Text>) -> Option<Fields>
    ensures { result ≡ spec.names_if_any names.items }
{
    if names.is_empty() {
        return None;
    }
    Some(Fields::Names(Texts::from_vec(names)))
}

/// What the step leaves of an item's fields.
fn keep_fields(alloc: Global, step: &Step, fields: Fields) -> Result<Option<Fields>, Fault>
    ensures ok { IfOk result (λ kept. kept ≡ spec.kept_fields step.now fields) }
    ensures err { IfErr result (λ e. e ≡ Fault.Memory) }
{
    match fields {
        Fields::Keyword => {
            if step.concerns_keywords() {
                return Ok(None);
            }
            Ok(Some(Fields::Keyword))
        }
        Fields::Names(names) => {
            let kept = keep_names(alloc, step, names.into_vec())?;
            Ok(names_if_any(kept))
        }
    }
}

/// Adds what the step leaves of an item.
fn push_kept(alloc: Global, step: &Step, kept: &mut Alternative, item: Item) -> Result<(), Fault>
    ensures ok { OnOk result (kept.new ≡ kept.old ++ spec.kept_item step.now item) }
    ensures err { IfErr result (λ e. e ≡ Fault.Memory) }
{
    let Item {
        fields,
        tests,
        joined,
        place,
    } = item;
    let Some(fields) = keep_fields(alloc, step, fields)? else {
        return Ok(());
    };
    kept.push(Item {
        fields,
        tests,
        joined,
        place,
    })?;
    Ok(())
}

fn keep_items(alloc: Global, step: &Step, items: Vec<Item>) -> Result<Alternative, Fault>
    ensures ok { IfOk result (λ kept. kept ≡ spec.kept_items step.now items.items) }
    ensures err { IfErr result (λ e. e ≡ Fault.Memory) }
{
    let mut kept = Alternative::with_capacity(alloc, items.len())?;
    for item in items {
        push_kept(alloc, step, &mut kept, item)?;
    }
    Ok(kept)
}

fn keep_alternatives(
    alloc: Global,
    step: &Step,
    alternatives: Vec<Alternative>,
) -> Result<Alternatives, Fault>
    ensures ok { IfOk result (λ kept. kept ≡ map (spec.kept_items step.now) alternatives.items) }
    ensures err { IfErr result (λ e. e ≡ Fault.Memory) }
{
    let mut kept = Alternatives::with_capacity(alloc, alternatives.len())?;
    for items in alternatives {
        kept.push(keep_items(alloc, step, items.into_vec())?)?;
    }
    Ok(kept)
}

fn keep_detection(alloc: Global, step: &Step, detection: Detection) -> Result<Detection, Fault>
    ensures ok { IfOk result (λ kept. kept ≡ spec.kept_detection step.now detection) }
    ensures err { IfErr result (λ e. e ≡ Fault.Memory) }
{
    let Detection {
        name,
        alternatives,
        place,
    } = detection;
    let alternatives = keep_alternatives(alloc, step, alternatives.into_vec())?;
    Ok(Detection {
        name,
        alternatives,
        place,
    })
}

fn keep_detections(
    alloc: Global,
    step: &Step,
    detections: Vec<Detection>,
) -> Result<Detections, Fault>
    ensures ok { IfOk result (λ kept. kept ≡ spec.kept_detections step.now detections.items) }
    ensures err { IfErr result (λ e. e ≡ Fault.Memory) }
{
    let mut kept = Detections::with_capacity(alloc, detections.len())?;
    for detection in detections {
        kept.push(keep_detection(alloc, step, detection)?)?;
    }
    Ok(kept)
}

fn has_no_items(items: &Alternative) -> bool
    ensures { result ≡ is_empty items.now }
{
    items.as_slice().is_empty()
}

fn some_empty(alternatives: &[Alternative]) -> bool
    ensures { result ≡ list_any is_empty alternatives.now }
{
    alternatives.iter().any(has_no_items)
}

fn judge_emptied(detection: &Detection) -> Result<(), Fault>
    ensures { Judged (λ done. Unit {0}) (spec.emptied detection.now) result }
{
    let empty = some_empty(detection.alternatives.as_slice());
    must(Code::EMPTIED_DETECTION, detection.place, !empty)
}

/// Code 97 at the first detection of which an alternative has no items.
fn judge_all_emptied(detections: &[Detection]) -> Result<(), Fault>
    ensures { Judged (λ done. Unit {0}) (spec.emptied_refusal detections.now) result }
{
    for detection in detections {
        judge_emptied(detection)?;
    }
    Ok(())
}

/// The rule without the names that the step acts on, and without the items that have none left. A detection of which an alternative
/// has no items left is refused 97 at its place.
pub fn drop_names(alloc: Global, limits: &Limits, step: &Step, rule: Rule) -> Result<Rule, Fault>
    ensures { Judged (λ made. rule_view made ≡ spec.dropped step.now (rule_view rule))
        (first (spec.emptied_refusal (spec.kept_detections step.now rule.detections) ∷ grown_refusal limits.now rule.head.place (spec.kept_detections step.now rule.detections) ∷ [])) result }
{
    let Rule {
        head,
        source,
        detections,
        conditions,
    } = rule;
    let detections = keep_detections(alloc, step, detections.into_vec())?;
    judge_all_emptied(detections.as_slice())?;
    judge_grown(limits, head.place, detections.as_slice())?;
    Ok(Rule {
        head,
        source,
        detections,
        conditions,
    })
}
