//! The step that adds a condition.

ghost use Rattle.std.specs.Prelude.{◌≡◌, ◌∷◌, map, length, IfOk, IfErr};
ghost use Rattle.sig_base.specs.Judged.{Judged};
ghost use Rattle.rule_model.specs.Plain.{rule_view};
ghost use Rattle.sig_conditions.specs.Formulas.{FAnd, form, no_forms, form_view, forms_view, forms_of, numbered};
ghost use Rattle.pipeline_limits.specs.Sizes.{grown_refusal};
ghost use Rattle.pipeline_edit.specs.Added as spec;

use crate::rule_size::judge_added;
use rule_detections::{Alternative, Alternatives, Detection, Item};
use rule_model::Rule;
use sig_base::{Fault, Limits, Place, Text};
use sig_conditions::{DetectionNumbers, Formula};
use std::alloc::Global;

/// The item, at another place.
fn place_item(alloc: Global, place: Place, item: &Item) -> Result<Item, Fault>
    ensures ok { IfOk result (λ i. i ≡ spec.placed place item.now) }
    ensures err { IfErr result (λ e. e ≡ Fault.Memory) }
{
    let Item {
        fields,
        tests,
        joined,
        place: _,
    } = item.copy(alloc)?;
    Ok(Item {
        fields,
        tests,
        joined,
        place,
    })
}

fn place_items(alloc: Global, place: Place, items: &[Item]) -> Result<Alternative, Fault>
    ensures ok { IfOk result (λ all. all ≡ map (spec.placed place) items.now) }
    ensures err { IfErr result (λ e. e ≡ Fault.Memory) }
{
    let mut placed = Alternative::with_capacity(alloc, items.len())?;
    for item in items {
        placed.push(place_item(alloc, place, item)?)?;
    }
    Ok(placed)
}

/// The detection of these items alone, without a name.
fn added_detection(alloc: Global, place: Place, items: &[Item]) -> Result<Detection, Fault>
    ensures ok { IfOk result (λ d. d ≡ spec.added_detection place items.now) }
    ensures err { IfErr result (λ e. e ≡ Fault.Memory) }
{
    let mut alternatives = Alternatives::new(alloc);
    alternatives.push(place_items(alloc, place, items)?)?;
    Ok(Detection {
        name: Text::new(alloc),
        alternatives,
        place,
    })
}

/// That the detection of this number holds, or with `negated` that it doesn't.
#[derive(Clone, Copy)]
pub struct Added {
    pub number: u32,
    pub negated: bool,
}

fn added_formula(alloc: Global, added: Added) -> Result<Formula, Fault>
    ensures ok { IfOk result (λ f. form_view f ≡ spec.added_form added.negated added.number) }
    ensures err { IfErr result (λ e. e ≡ Fault.Memory) }
{
    if added.negated {
        return Ok(Formula::Not(Box::new(alloc, Formula::Detection(added.number))?));
    }
    Ok(Formula::Detection(added.number))
}

/// What is added, and the condition.
fn and_condition(alloc: Global, added: Added, condition: Formula) -> Result<Formula, Fault>
    ensures ok { IfOk result (λ f. form_view f ≡ FAnd (form (spec.added_form added.negated added.number) (form (form_view condition) no_forms))) }
    ensures err { IfErr result (λ e. e ≡ Fault.Memory) }
{
    let added = added_formula(alloc, added)?;
    let mut parts = Vec::with_capacity(alloc, 2)?;
    parts.push(added)?;
    parts.push(condition)?;
    Ok(Formula::And(parts))
}

/// What is added, and all parts.
fn and_parts(alloc: Global, added: Added, parts: Vec<Formula>) -> Result<Formula, Fault>
    ensures ok { IfOk result (λ f. form_view f ≡ FAnd (form (spec.added_form added.negated added.number) (forms_of (forms_view parts.items)))) }
    ensures err { IfErr result (λ e. e ≡ Fault.Memory) }
{
    let added = added_formula(alloc, added)?;
    let mut parts = parts;
    parts.insert(0, added)?;
    Ok(Formula::And(parts))
}

/// One more number.
fn and_number(number: u32, numbers: DetectionNumbers) -> Result<Formula, Fault>
    ensures ok { IfOk result (λ f. form_view f ≡ FAnd (forms_of (numbered (number ∷ numbers)))) }
    ensures err { IfErr result (λ e. e ≡ Fault.Memory) }
{
    let mut all = numbers.into_vec();
    all.insert(0, number)?;
    Ok(Formula::AllOf(DetectionNumbers::from_vec(all)))
}

/// A formula for each number.
fn each_number(alloc: Global, numbers: &[u32]) -> Result<Vec<Formula>, Fault>
    ensures ok { IfOk result (λ fs. forms_view fs.items ≡ numbered numbers.now) }
    ensures err { IfErr result (λ e. e ≡ Fault.Memory) }
{
    let mut parts = Vec::with_capacity(alloc, numbers.len())?;
    for number in numbers {
        parts.push(Formula::Detection(*number))?;
    }
    Ok(parts)
}

/// What is added, and all detections of these numbers. Where the added one holds, it's one more number.
fn and_numbers(alloc: Global, added: Added, numbers: DetectionNumbers) -> Result<Formula, Fault>
    ensures ok { IfOk result (λ f. form_view f ≡ FAnd (form (spec.added_form added.negated added.number) (forms_of (numbered numbers)))) }
    ensures err { IfErr result (λ e. e ≡ Fault.Memory) }
{
    if !added.negated {
        return and_number(added.number, numbers);
    }
    let parts = each_number(alloc, numbers.as_slice())?;
    and_parts(alloc, added, parts)
}

/// What is added, and the condition; an `and` gets one part more.
fn and_also(alloc: Global, added: Added, condition: Formula) -> Result<Formula, Fault>
    ensures ok { IfOk result (λ f. form_view f ≡ spec.and_also (spec.added_form added.negated added.number) (form_view condition)) }
    ensures err { IfErr result (λ e. e ≡ Fault.Memory) }
{
    match condition {
        Formula::And(parts) => and_parts(alloc, added, parts),
        Formula::AllOf(numbers) => and_numbers(alloc, added, numbers),
        Formula::Detection(number) => and_condition(alloc, added, Formula::Detection(number)),
        Formula::OneOf(numbers) => and_condition(alloc, added, Formula::OneOf(numbers)),
        Formula::Not(part) => and_condition(alloc, added, Formula::Not(part)),
        Formula::Or(parts) => and_condition(alloc, added, Formula::Or(parts)),
    }
}

fn and_each(alloc: Global, added: Added, conditions: Vec<Formula>) -> Result<Vec<Formula>, Fault>
    ensures ok { IfOk result (λ fs. forms_view fs.items ≡ spec.and_each (spec.added_form added.negated added.number) (forms_view conditions.items)) }
    ensures err { IfErr result (λ e. e ≡ Fault.Memory) }
{
    let mut all = Vec::with_capacity(alloc, conditions.len())?;
    for condition in conditions {
        all.push(and_also(alloc, added, condition)?)?;
    }
    Ok(all)
}

/// The number of the next detection. At 2^32 detections there is none, which counts as want of memory; whole ones were refused 99
/// before, since each has a test.
fn next_number(detections: &[Detection]) -> Result<u32, Fault>
    ensures ok { IfOk result (λ n. n ≡ length detections.now) }
    ensures err { IfErr result (λ e. e ≡ Fault.Memory) }
{
    match u32::try_from(detections.len()) {
        Ok(number) => Ok(number),
        Err(_) => Err(Fault::Memory),
    }
}

fn with_condition(alloc: Global, items: &[Item], negated: bool, rule: Rule) -> Result<Rule, Fault>
    ensures ok { IfOk result (λ made. rule_view made ≡ spec.with_condition items.now negated (rule_view rule)) }
    ensures err { IfErr result (λ e. e ≡ Fault.Memory) }
{
    let Rule {
        head,
        source,
        detections,
        conditions,
    } = rule;
    let number = next_number(detections.as_slice())?;
    let detection = added_detection(alloc, head.place, items)?;
    let conditions = and_each(alloc, Added { number, negated }, conditions)?;
    let mut detections = detections;
    detections.push(detection)?;
    Ok(Rule {
        head,
        source,
        detections,
        conditions,
    })
}

/// The rule with the items as one more detection, which each condition asks for, or with `negated` asks not to hold. Its place and
/// that of its items is the rule's. A rule that grows too large so is refused 99 at its place, before the items are copied.
pub fn add_condition(
    alloc: Global,
    limits: &Limits,
    items: &Alternative,
    negated: bool,
    rule: Rule,
) -> Result<Rule, Fault>
    ensures { Judged (λ made. rule_view made ≡ spec.with_condition items.now negated (rule_view rule))
        (grown_refusal limits.now rule.head.place (spec.with_condition items.now negated (rule_view rule)).detections) result }
{
    judge_added(
        limits,
        rule.head.place,
        rule.detections.as_slice(),
        items.as_slice(),
    )?;
    let made = with_condition(alloc, items.as_slice(), negated, rule)?;
    Ok(made)
}
