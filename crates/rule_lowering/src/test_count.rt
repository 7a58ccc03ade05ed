//! How many tests the tree of a rule has, counted up to 2^127 - 1 before it is made.

ghost use Rattle.std.specs.Prelude.{◌≡◌, ◌+◌, ◌-◌, ◌*◌, ◌^◌, ◌≤◌, min, slice_index, IfOk, IfErr};
ghost use Rattle.rule_lowering.specs.Counts as spec;
ghost use Rattle.rule_model.specs.Plain.{rule_view};
ghost use Rattle.sig_conditions.specs.Formulas.{form_view, forms_view, forms_of, numbered};

use modifier_windash::dash_count;
use rule_detections::{Alternative, Detection, Fields, Item, Test, Tests};
use rule_model::Rule;
use sig_base::Fault;
use sig_conditions::Formula;
use std::alloc::Global;

/// The greatest number that is told.
const MOST: u128 = i128::MAX as u128;

fn add(count: u128, more: u128) -> u128
    requires first { count ≤ 2 ^ 127 - 1 }
    requires second { more ≤ 2 ^ 127 - 1 }
    ensures { result ≡ min (count + more) (2 ^ 127 - 1) }
{
    (count + more).min(MOST)
}

fn times(count: u128, fields: usize) -> u128
    ensures { result ≡ min (count * fields) (2 ^ 127 - 1) }
{
    count.saturating_mul(fields as u128).min(MOST)
}

/// The choices of dashes at so many places.
fn count_choices(places: usize) -> u128
    ensures { result ≡ min (5 ^ places) (2 ^ 127 - 1) }
{
    let mut count = 1;
    for _ in 0..places {
        count = times(count, 5);
    }
    count
}

fn count_test(test: &Test) -> u128
    ensures { result ≡ min (spec.test_count test.now) (2 ^ 127 - 1) }
{
    match test {
        Test::Fits { pattern, .. } => count_choices(dash_count(pattern)),
        Test::Inside(network) => u128::from(network.pattern_count()),
        Test::Absent
        | Test::Exists(_)
        | Test::Equals(_)
        | Test::Compare { .. }
        | Test::SameAs(_)
        | Test::Finds { .. } => 1,
    }
}

fn count_value(tests: &[Test]) -> u128
    ensures { result ≡ min (spec.value_count tests.now) (2 ^ 127 - 1) }
{
    let mut count = 0;
    for test in tests {
        count = add(count, count_test(test));
    }
    count
}

fn count_values(values: &[Tests]) -> u128
    ensures { result ≡ min (spec.values_count values.now) (2 ^ 127 - 1) }
{
    let mut count = 0;
    for value in values {
        count = add(count, count_value(value.as_slice()));
    }
    count
}

/// The tests of an item, where keywords search so many fields.
fn count_item(searched: usize, item: &Item) -> u128
    ensures { result ≡ min (spec.item_count searched item.now) (2 ^ 127 - 1) }
{
    let values = count_values(item.tests.as_slice());
    match &item.fields {
        Fields::Keyword => times(values, searched),
        Fields::Names(names) => times(values, names.as_slice().len()),
    }
}

fn count_alternative(searched: usize, items: &[Item]) -> u128
    ensures { result ≡ min (spec.alternative_count searched items.now) (2 ^ 127 - 1) }
{
    let mut count = 0;
    for item in items {
        count = add(count, count_item(searched, item));
    }
    count
}

fn count_alternatives(searched: usize, alternatives: &[Alternative]) -> u128
    ensures { result ≡ min (spec.alternatives_count searched alternatives.now) (2 ^ 127 - 1) }
{
    let mut count = 0;
    for alternative in alternatives {
        count = add(count, count_alternative(searched, alternative.as_slice()));
    }
    count
}

/// The tests of each detection.
fn count_detections(
    alloc: Global,
    searched: usize,
    detections: &[Detection],
) -> Result<Vec<u128>, Fault>
    ensures ok { IfOk result (λ counts. counts.items ≡ spec.detection_counts (2 ^ 127 - 1) searched detections.now) }
    ensures err { IfErr result (λ e. e ≡ Fault.Memory) }
{
    let mut counts = Vec::new(alloc);
    for detection in detections {
        counts.push(count_alternatives(searched, detection.alternatives.as_slice()))?;
    }
    Ok(counts)
}

/// The tests of the detection of this number; none where there is no such detection.
fn count_of(counts: &[u128], number: u32) -> u128
    ensures { result ≡ min (slice_index counts.now number) (2 ^ 127 - 1) }
{
    match counts.get(number as usize) {
        Some(count) => (*count).min(MOST),
        None => 0,
    }
}

/// The tests of the detections of some numbers.
fn count_taken(counts: &[u128], taken: &[u32]) -> u128
    ensures count { result ≡ spec.forms_count (2 ^ 127 - 1) counts.now (forms_of (numbered taken.now)) }
    ensures most { result ≤ 2 ^ 127 - 1 }
{
    let mut count = 0;
    for number in taken {
        count = add(count, count_of(counts, *number));
    }
    count
}

/// The tests of a formula over detections that have so many.
#[cycle(counter)]
fn count_formula(counts: &[u128], formula: &Formula) -> u128
    ensures count { result ≡ spec.form_count (2 ^ 127 - 1) counts.now (form_view formula.now) }
    ensures most { result ≤ 2 ^ 127 - 1 }
{
    match formula {
        Formula::Detection(number) => count_of(counts, *number),
        Formula::OneOf(taken) => count_taken(counts, taken.as_slice()),
        Formula::AllOf(taken) => count_taken(counts, taken.as_slice()),
        Formula::Not(part) => count_formula(counts, part),
        Formula::And(parts) => count_formulas(counts, parts),
        Formula::Or(parts) => count_formulas(counts, parts),
    }
}

#[cycle(counter)]
fn count_formulas(counts: &[u128], parts: &[Formula]) -> u128
    ensures count { result ≡ spec.forms_count (2 ^ 127 - 1) counts.now (forms_of (forms_view parts.now)) }
    ensures most { result ≤ 2 ^ 127 - 1 }
{
    let mut count = 0;
    for part in parts {
        count = add(count, count_formula(counts, part));
    }
    count
}

/// The tests of a rule's tree, where keywords search so many fields.
pub fn count_rule(alloc: Global, searched: usize, rule: &Rule) -> Result<u128, Fault>
    ensures ok { IfOk result (λ count. count ≡ spec.rule_count (2 ^ 127 - 1) searched (rule_view rule.now)) }
    ensures most { IfOk result (λ count. count ≤ 2 ^ 127 - 1) }
    ensures err { IfErr result (λ e. e ≡ Fault.Memory) }
{
    let counts = count_detections(alloc, searched, rule.detections.as_slice())?;
    Ok(count_formulas(counts.as_slice(), &rule.conditions))
}
