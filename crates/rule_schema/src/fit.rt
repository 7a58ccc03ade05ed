//! Whether a rule fits a schema.

ghost use Rattle.std.specs.Prelude.{◌≡◌, map};
ghost use Rattle.std.specs.List.{list_any, flat_map};
ghost use Rattle.event_schema.specs.declared.schema.Field.{Field};
ghost use Rattle.schema_index.specs.Numbered.{AreNumbered};
ghost use Rattle.sig_base.specs.Judged.{Judged, first, must};
ghost use Rattle.rule_detections.specs.declared.item.Fields.TheVariants.{Names};
ghost use Rattle.rule_model.specs.Plain.{rule_view};
ghost use Rattle.rule_schema.specs.Fitting.{AnswersRefusal};
ghost use Rattle.rule_schema.specs.Inferred as spec;
ghost use Rattle.rule_schema.specs.Looked.{AreNumberedIfAny};

use crate::kinds::asked_by;
use crate::seen::{look_names, look_references};
use event_schema::{Field, Schema};
use rule_detections::{Alternative, Detection, Fields, Item, Tests};
use rule_model::Rule;
use schema_index::FieldNumbers;
use sig_base::{Code, Detail, Fault, Place, Refusal, Text};
use std::alloc::Global;

/// Whether keywords search one of the fields.
fn has_search(fields: &[Field]) -> bool
    ensures { result ≡ list_any (λ (field : Field). field.search) fields.now }
{
    fields.iter().any(|field| field.search)
}

/// Whether keywords search one of the fields that are numbered.
fn has_searched(numbers: &FieldNumbers, fields: &[Field]) -> bool
    requires { AreNumbered fields.now numbers.now }
    ensures { result ≡ list_any (λ (field : Field). field.search) fields.now }
{
    !numbers.searched().is_empty()
}

fn are_searched(fields: &[Field], numbers: &Option<FieldNumbers>) -> bool
    requires { AreNumberedIfAny fields.now numbers.now }
    ensures { result ≡ list_any (λ (field : Field). field.search) fields.now }
{
    match numbers {
        Some(numbers) => has_searched(numbers, fields),
        None => has_search(fields),
    }
}

/// The refusal with this code at this place, unless the condition holds.
pub(crate) fn unless(code: Code, place: Place, holds: bool) -> Option<Refusal>
    ensures { result ≡ must code place holds }
{
    if holds {
        return None;
    }
    Some(Refusal {
        code,
        place,
        detail: Detail::None,
    })
}

/// Why an item with these tests of its values doesn't fit the fields by its names and those that its tests compare them with.
/// Each of them is looked up once.
#[tactic(auto, using(crate::proofs::Looking::all_known, crate::proofs::Looking::all_suit))]
fn names_refusal(
    fields: &[Field],
    numbers: &Option<FieldNumbers>,
    place: Place,
    values: &[Tests],
    names: &[Text],
) -> Option<Refusal>
    requires { AreNumberedIfAny fields.now numbers.now }
    ensures { result ≡ spec.fields_refusal fields.now place values.now (Names names.now) }
{
    let own = look_names(fields, numbers, names);
    let others = look_references(fields, numbers, values);
    let unknown = unless(Code::UNKNOWN_FIELD, place, own.are_known(others));
    if unknown.is_some() {
        return unknown;
    }
    unless(
        Code::KIND_MISMATCH,
        place,
        own.suits(others, asked_by(values)),
    )
}

fn item_refusal(fields: &[Field], numbers: &Option<FieldNumbers>, item: &Item) -> Option<Refusal>
    requires { AreNumberedIfAny fields.now numbers.now }
    ensures { result ≡ spec.item_line fields.now item.now }
{
    match &item.fields {
        Fields::Keyword => unless(
            Code::NO_SEARCH_FIELD,
            item.place,
            are_searched(fields, numbers),
        ),
        Fields::Names(names) => names_refusal(
            fields,
            numbers,
            item.place,
            item.tests.as_slice(),
            names.as_slice(),
        ),
    }
}

#[tactic(auto, using(crate::proofs::FirstRefused::line_here, crate::proofs::FirstRefused::line_on))]
fn items_refusal(
    fields: &[Field],
    numbers: &Option<FieldNumbers>,
    items: &[Item],
) -> Option<Refusal>
    requires { AreNumberedIfAny fields.now numbers.now }
    ensures { result ≡ first (map (spec.item_line fields.now) items.now) }
{
    for item in items {
        if let Some(refusal) = item_refusal(fields, numbers, item) {
            return Some(refusal);
        }
    }
    None
}

#[tactic(auto, using(crate::proofs::FirstRefused::part_here, crate::proofs::FirstRefused::part_on))]
fn alternatives_refusal(
    fields: &[Field],
    numbers: &Option<FieldNumbers>,
    alternatives: &[Alternative],
) -> Option<Refusal>
    requires { AreNumberedIfAny fields.now numbers.now }
    ensures { result ≡ first (map (spec.item_line fields.now) (flat_map (λ items. items) alternatives.now)) }
{
    for alternative in alternatives {
        if let Some(refusal) = items_refusal(fields, numbers, alternative.as_slice()) {
            return Some(refusal);
        }
    }
    None
}

#[tactic(auto, using(crate::proofs::FirstRefused::part_here, crate::proofs::FirstRefused::part_on))]
fn detections_refusal(
    fields: &[Field],
    numbers: &Option<FieldNumbers>,
    detections: &[Detection],
) -> Option<Refusal>
    requires { AreNumberedIfAny fields.now numbers.now }
    ensures { result ≡ first (map (spec.item_line fields.now) (spec.items_of detections.now)) }
{
    for detection in detections {
        let alternatives = detection.alternatives.as_slice();
        if let Some(refusal) = alternatives_refusal(fields, numbers, alternatives) {
            return Some(refusal);
        }
    }
    None
}

/// Whether a rule fits a schema, without memory: each name is compared with each field. Its first item, in the rule's order,
/// with a name that no field of the schema has exactly, or that compares with such a name, is refused 81; one that asks for a
/// number or an address of a field of another kind, or compares a field of whole numbers with one that isn't, 82; and a keyword
/// where keywords search no field 83.
pub fn fit_schema(rule: &Rule, schema: &Schema) -> Result<(), Refusal>
    ensures { AnswersRefusal (spec.fit_refusal schema.now (rule_view rule.now)) result }
{
    let numbers: Option<FieldNumbers> = None;
    match detections_refusal(
        schema.fields.as_slice(),
        &numbers,
        rule.detections.as_slice(),
    ) {
        Some(refusal) => Err(refusal),
        None => Ok(()),
    }
}

/// The same answer as that of `fit_schema`, where each name is found by an index, as is worth its memory where there are many
/// fields.
pub fn fit_indexed(alloc: Global, rule: &Rule, schema: &Schema) -> Result<(), Fault>
    ensures { Judged (λ done. Unit {0}) (spec.fit_refusal schema.now (rule_view rule.now)) result }
{
    let numbers = Some(FieldNumbers::of(alloc, schema.fields.as_slice())?);
    match detections_refusal(
        schema.fields.as_slice(),
        &numbers,
        rule.detections.as_slice(),
    ) {
        Some(refusal) => Err(Fault::Refused(refusal)),
        None => Ok(()),
    }
}
