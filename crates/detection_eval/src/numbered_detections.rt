//! Detections whose names and regular expressions become numbers.

ghost use Rattle.std.specs.Prelude.{◌≡◌, map, option_and_then, IfOk, IfErr};
ghost use Rattle.event_schema.specs.Rows.{field_number};
ghost use Rattle.schema_index.specs.Numbered.{AreNumbered};
ghost use Rattle.rule_detections.specs.TestExpressions.{expression_of};
ghost use Rattle.rule_detections.specs.References.{reference_of};
ghost use Rattle.text_index.specs.Numbers.{first_number};
ghost use Rattle.detection_eval.specs.Ready as spec;

use crate::numbered::{
    Asked, FieldPlaces, NumberedAlternative, NumberedDetection, NumberedItem, NumberedTest,
    NumberedTests, NumberedValues,
};
use event_schema::Field;
use rule_detections::{Detection, Fields, Item, Test, Tests};
use schema_index::FieldNumbers;
use sig_base::{Fault, Text};
use std::alloc::Global;
use text_index::TextIndex;

/// The number of each name's field.
fn number_names(
    alloc: Global,
    fields: &[Field],
    numbers: &FieldNumbers,
    names: &[Text],
) -> Result<FieldPlaces, Fault>
    requires { AreNumbered fields.now numbers.now }
    ensures ok { IfOk result (λ places. places ≡ map (field_number fields.now) names.now) }
    ensures err { IfErr result (λ e. e ≡ Fault.Memory) }
{
    let mut places = FieldPlaces::with_capacity(alloc, names.len())?;
    for name in names {
        places.push(numbers.look_up(fields, name))?;
    }
    Ok(places)
}

fn number_asked(
    alloc: Global,
    fields: &[Field],
    numbers: &FieldNumbers,
    asked: &Fields,
) -> Result<Asked, Fault>
    requires { AreNumbered fields.now numbers.now }
    ensures ok { IfOk result (λ a. a ≡ spec.asked_of fields.now asked.now) }
    ensures err { IfErr result (λ e. e ≡ Fault.Memory) }
{
    match asked {
        Fields::Keyword => Ok(Asked::Searched),
        Fields::Names(names) => {
            let places = number_names(alloc, fields, numbers, names.as_slice())?;
            Ok(Asked::Numbers(places))
        }
    }
}

/// The number of the field that a test compares with.
fn number_reference(fields: &[Field], numbers: &FieldNumbers, test: &Test) -> Option<u32>
    requires { AreNumbered fields.now numbers.now }
    ensures { result ≡ option_and_then (field_number fields.now) (reference_of test.now) }
{
    match test.reference() {
        Some(name) => numbers.look_up(fields, name),
        None => None,
    }
}

/// The number of the regular expression that a test searches for.
fn number_search(alloc: Global, texts: &TextIndex, test: &Test) -> Result<Option<u32>, Fault>
    ensures ok { IfOk result (λ number. number ≡ option_and_then (first_number texts.now) (expression_of test.now)) }
    ensures err { IfErr result (λ e. e ≡ Fault.Memory) }
{
    match test.expression(alloc)? {
        Some(text) => Ok(texts.find(&text)),
        None => Ok(None),
    }
}

fn number_test(
    alloc: Global,
    fields: &[Field],
    numbers: &FieldNumbers,
    texts: &TextIndex,
    test: &Test,
) -> Result<NumberedTest, Fault>
    requires { AreNumbered fields.now numbers.now }
    ensures ok { IfOk result (λ t. t ≡ spec.numbered_test fields.now texts.now test.now) }
    ensures err { IfErr result (λ e. e ≡ Fault.Memory) }
{
    let other = number_reference(fields, numbers, test);
    let search = number_search(alloc, texts, test)?;
    let test = test.copy(alloc)?;
    Ok(NumberedTest {
        test,
        other,
        search,
    })
}

fn number_value(
    alloc: Global,
    fields: &[Field],
    numbers: &FieldNumbers,
    texts: &TextIndex,
    tests: &[Test],
) -> Result<NumberedTests, Fault>
    requires { AreNumbered fields.now numbers.now }
    ensures ok { IfOk result (λ all. all ≡ map (spec.numbered_test fields.now texts.now) tests.now) }
    ensures err { IfErr result (λ e. e ≡ Fault.Memory) }
{
    let mut all = NumberedTests::with_capacity(alloc, tests.len())?;
    for test in tests {
        all.push(number_test(alloc, fields, numbers, texts, test)?)?;
    }
    Ok(all)
}

fn number_values(
    alloc: Global,
    fields: &[Field],
    numbers: &FieldNumbers,
    texts: &TextIndex,
    values: &[Tests],
) -> Result<NumberedValues, Fault>
    requires { AreNumbered fields.now numbers.now }
    ensures ok { IfOk result (λ all. all ≡ map (map (spec.numbered_test fields.now texts.now)) values.now) }
    ensures err { IfErr result (λ e. e ≡ Fault.Memory) }
{
    let mut all = NumberedValues::with_capacity(alloc, values.len())?;
    for tests in values {
        all.push(number_value(alloc, fields, numbers, texts, tests.as_slice())?)?;
    }
    Ok(all)
}

fn number_item(
    alloc: Global,
    fields: &[Field],
    numbers: &FieldNumbers,
    texts: &TextIndex,
    item: &Item,
) -> Result<NumberedItem, Fault>
    requires { AreNumbered fields.now numbers.now }
    ensures ok { IfOk result (λ i. i ≡ spec.numbered_item fields.now texts.now item.now) }
    ensures err { IfErr result (λ e. e ≡ Fault.Memory) }
{
    let asked = number_asked(alloc, fields, numbers, &item.fields)?;
    let tests = number_values(alloc, fields, numbers, texts, item.tests.as_slice())?;
    Ok(NumberedItem {
        asked,
        joined: item.joined,
        tests,
    })
}

fn number_alternative(
    alloc: Global,
    fields: &[Field],
    numbers: &FieldNumbers,
    texts: &TextIndex,
    items: &[Item],
) -> Result<NumberedAlternative, Fault>
    requires { AreNumbered fields.now numbers.now }
    ensures ok { IfOk result (λ all. all ≡ map (spec.numbered_item fields.now texts.now) items.now) }
    ensures err { IfErr result (λ e. e ≡ Fault.Memory) }
{
    let mut all = NumberedAlternative::with_capacity(alloc, items.len())?;
    for item in items {
        all.push(number_item(alloc, fields, numbers, texts, item)?)?;
    }
    Ok(all)
}

fn number_detection(
    alloc: Global,
    fields: &[Field],
    numbers: &FieldNumbers,
    texts: &TextIndex,
    detection: &Detection,
) -> Result<NumberedDetection, Fault>
    requires { AreNumbered fields.now numbers.now }
    ensures ok { IfOk result (λ all. all ≡ spec.numbered_detection fields.now texts.now detection.now) }
    ensures err { IfErr result (λ e. e ≡ Fault.Memory) }
{
    let alternatives = detection.alternatives.as_slice();
    let mut all = NumberedDetection::with_capacity(alloc, alternatives.len())?;
    for items in alternatives {
        all.push(number_alternative(alloc, fields, numbers, texts, items.as_slice())?)?;
    }
    Ok(all)
}

/// The detections of a rule, with numbers for its names and its regular expressions.
pub fn number_detections(
    alloc: Global,
    fields: &[Field],
    numbers: &FieldNumbers,
    texts: &TextIndex,
    detections: &[Detection],
) -> Result<Vec<NumberedDetection>, Fault>
    requires { AreNumbered fields.now numbers.now }
    ensures ok { IfOk result (λ all. all.items ≡ map (spec.numbered_detection fields.now texts.now) detections.now) }
    ensures err { IfErr result (λ e. e ≡ Fault.Memory) }
{
    let mut all = Vec::with_capacity(alloc, detections.len())?;
    for detection in detections {
        all.push(number_detection(alloc, fields, numbers, texts, detection)?)?;
    }
    Ok(all)
}
