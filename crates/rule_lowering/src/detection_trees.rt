//! The trees of detections.
#![tactic(auto, using(crate::proofs::Levels::level_ends))]

ghost use Rattle.std.specs.Prelude.{◌≡◌, map, IfOk, IfErr};
ghost use Rattle.backend_core.specs.FieldAt.{kind_at};
ghost use Rattle.backend_core.specs.View.{tree_view};
ghost use Rattle.rule_lowering.specs.Joining.{join};
ghost use Rattle.schema_index.specs.Numbered.{AreNumbered};
ghost use Rattle.schema_index.specs.Numbers.{number_of};
ghost use Rattle.rule_lowering.specs.TreeOf as spec;
ghost use Rattle.rule_detections.specs.declared.item.Fields.TheVariants.{Keyword, Names};
ghost use Rattle.modifier_words.specs.declared.modifier.Joined.TheVariants.{Any};
ghost use Rattle.rule_detections.specs.declared.test.Test.TheVariants.{Fits, Inside};

use crate::joins::{add_part, close_parts};
use crate::leaf_tests::leaf_test;
use backend_core::{Leaf, LeafTest, Tree, kind_of};
use event_schema::Field;
use modifier_windash::{choice, dash_count};
use modifier_words::Joined;
use rule_detections::{Detection, Fields, Item, Test, Tests};
use schema_index::FieldNumbers;
use sig_base::{Fault, Place, Text};
use sig_encode::Network;
use sig_strings::SharedPattern;
use std::alloc::Global;

fn leaf_if_any(place: Place, field: u32, test: Option<LeafTest>) -> Tree
    ensures { tree_view result ≡ spec.leaf_if_any place field test }
{
    match test {
        Some(test) => Tree::Leaf(Leaf { field, test, place }),
        None => Tree::Never,
    }
}

/// A test without dash places at the field of this number.
fn lower_written(
    alloc: Global,
    fields: &[Field],
    numbers: &FieldNumbers,
    place: Place,
    field: u32,
    test: &Test,
) -> Result<Tree, Fault>
    requires { AreNumbered fields.now numbers.now }
    ensures ok { IfOk result (λ t. tree_view t ≡ spec.written_tree fields.now place (kind_at fields.now field) field test.now) }
    ensures err { IfErr result (λ e. e ≡ Fault.Memory) }
{
    let kind = kind_of(fields, field);
    let test = leaf_test(alloc, fields, numbers, kind, test)?;
    Ok(leaf_if_any(place, field, test))
}

/// One choice of dashes at the field of this number.
fn lower_choice(
    alloc: Global,
    fields: &[Field],
    numbers: &FieldNumbers,
    place: Place,
    field: u32,
    pattern: SharedPattern,
    cased: bool,
) -> Result<Tree, Fault>
    requires { AreNumbered fields.now numbers.now }
    ensures ok { IfOk result (λ t. tree_view t ≡ spec.written_tree fields.now place (kind_at fields.now field) field (Fits pattern cased)) }
    ensures err { IfErr result (λ e. e ≡ Fault.Memory) }
{
    let test = Test::Fits { pattern, cased };
    lower_written(alloc, fields, numbers, place, field, &test)
}

/// A pattern's choices of dashes, made one by one.
fn lower_choices(
    alloc: Global,
    fields: &[Field],
    numbers: &FieldNumbers,
    place: Place,
    field: u32,
    pattern: &SharedPattern,
    cased: bool,
) -> Result<Tree, Fault>
    requires { AreNumbered fields.now numbers.now }
    ensures ok { IfOk result (λ t. tree_view t ≡ spec.test_tree fields.now place (kind_at fields.now field) field (Fits pattern.now cased)) }
    ensures err { IfErr result (λ e. e ≡ Fault.Memory) }
{
    let mut parts = Vec::new(alloc);
    while let Some(chosen) = choice(alloc, pattern, parts.len() as u64)? {
        let part = lower_choice(alloc, fields, numbers, place, field, chosen, cased)?;
        parts.push(part)?;
    }
    Ok(close_parts(Joined::Any, parts))
}

/// A network's patterns.
fn lower_network(
    alloc: Global,
    fields: &[Field],
    numbers: &FieldNumbers,
    place: Place,
    field: u32,
    network: &Network,
) -> Result<Tree, Fault>
    requires { AreNumbered fields.now numbers.now }
    ensures ok { IfOk result (λ t. tree_view t ≡ spec.test_tree fields.now place (kind_at fields.now field) field (Inside network.now)) }
    ensures err { IfErr result (λ e. e ≡ Fault.Memory) }
{
    let patterns = network.patterns(alloc)?;
    let mut parts = Vec::new(alloc);
    for pattern in patterns {
        let pattern = SharedPattern::share(alloc, pattern)?;
        let part = lower_choice(alloc, fields, numbers, place, field, pattern, false)?;
        parts.push(part)?;
    }
    Ok(close_parts(Joined::Any, parts))
}

/// A test at the field of this number.
fn lower_test(
    alloc: Global,
    fields: &[Field],
    numbers: &FieldNumbers,
    place: Place,
    field: u32,
    test: &Test,
) -> Result<Tree, Fault>
    requires { AreNumbered fields.now numbers.now }
    ensures ok { IfOk result (λ t. tree_view t ≡ spec.test_tree fields.now place (kind_at fields.now field) field test.now) }
    ensures err { IfErr result (λ e. e ≡ Fault.Memory) }
{
    match test {
        Test::Fits { pattern, cased } => {
            if dash_count(pattern) == 0 {
                return lower_written(alloc, fields, numbers, place, field, test);
            }
            lower_choices(alloc, fields, numbers, place, field, pattern, *cased)
        }
        Test::Inside(network) => lower_network(alloc, fields, numbers, place, field, network),
        Test::Absent
        | Test::Exists(_)
        | Test::Equals(_)
        | Test::Compare { .. }
        | Test::SameAs(_)
        | Test::Finds { .. } => { lower_written(alloc, fields, numbers, place, field, test) }
    }
}

/// A value at the field of this number.
fn lower_value(
    alloc: Global,
    fields: &[Field],
    numbers: &FieldNumbers,
    place: Place,
    field: u32,
    tests: &[Test],
) -> Result<Tree, Fault>
    requires { AreNumbered fields.now numbers.now }
    ensures ok { IfOk result (λ t. tree_view t ≡ spec.value_tree fields.now place (kind_at fields.now field) field tests.now) }
    ensures err { IfErr result (λ e. e ≡ Fault.Memory) }
{
    if let [test] = tests {
        return lower_test(alloc, fields, numbers, place, field, test);
    }
    let mut parts = Vec::new(alloc);
    for test in tests {
        let part = lower_test(alloc, fields, numbers, place, field, test)?;
        add_part(Joined::Any, &mut parts, part)?;
    }
    Ok(close_parts(Joined::Any, parts))
}

/// The values of an item at the field of this number.
fn lower_values(
    alloc: Global,
    fields: &[Field],
    numbers: &FieldNumbers,
    place: Place,
    joined: Joined,
    values: &[Tests],
    field: u32,
) -> Result<Tree, Fault>
    requires { AreNumbered fields.now numbers.now }
    ensures ok { IfOk result (λ t. tree_view t ≡ spec.number_tree fields.now place joined values.now field) }
    ensures err { IfErr result (λ e. e ≡ Fault.Memory) }
{
    if let [value] = values {
        return lower_value(alloc, fields, numbers, place, field, value.as_slice());
    }
    let mut parts = Vec::new(alloc);
    for value in values {
        let part = lower_value(alloc, fields, numbers, place, field, value.as_slice())?;
        add_part(joined, &mut parts, part)?;
    }
    Ok(close_parts(joined, parts))
}

/// A value at some one of these fields.
fn lower_keyword(
    alloc: Global,
    fields: &[Field],
    numbers: &FieldNumbers,
    place: Place,
    searched: &[u32],
    tests: &[Test],
) -> Result<Tree, Fault>
    requires { AreNumbered fields.now numbers.now }
    ensures ok { IfOk result (λ t. tree_view t
        ≡ join Any (map (λ field. spec.value_tree fields.now place (kind_at fields.now field) field tests.now) searched.now)) }
    ensures err { IfErr result (λ e. e ≡ Fault.Memory) }
{
    let mut parts = Vec::new(alloc);
    for field in searched {
        let part = lower_value(alloc, fields, numbers, place, *field, tests)?;
        add_part(Joined::Any, &mut parts, part)?;
    }
    Ok(close_parts(Joined::Any, parts))
}

/// The values of an item at this name's field.
fn lower_name(
    alloc: Global,
    fields: &[Field],
    numbers: &FieldNumbers,
    item: &Item,
    name: &Text,
) -> Result<Tree, Fault>
    requires { AreNumbered fields.now numbers.now }
    ensures ok { IfOk result (λ t. tree_view t
        ≡ spec.number_tree fields.now item.now.place item.now.joined item.now.tests (number_of fields.now name.now)) }
    ensures err { IfErr result (λ e. e ≡ Fault.Memory) }
{
    let field = numbers.find(fields, name);
    lower_values(
        alloc,
        fields,
        numbers,
        item.place,
        item.joined,
        item.tests.as_slice(),
        field,
    )
}

/// The values of an item at some one of these names' fields.
fn lower_names(
    alloc: Global,
    fields: &[Field],
    numbers: &FieldNumbers,
    item: &Item,
    names: &[Text],
) -> Result<Tree, Fault>
    requires { AreNumbered fields.now numbers.now }
    ensures ok { IfOk result (λ t. tree_view t ≡ spec.fields_tree fields.now item.now.place item.now.joined item.now.tests (Names names.now)) }
    ensures err { IfErr result (λ e. e ≡ Fault.Memory) }
{
    if let [name] = names {
        return lower_name(alloc, fields, numbers, item, name);
    }
    let mut parts = Vec::new(alloc);
    for name in names {
        let part = lower_name(alloc, fields, numbers, item, name)?;
        add_part(Joined::Any, &mut parts, part)?;
    }
    Ok(close_parts(Joined::Any, parts))
}

/// The values of a keyword.
fn lower_keywords(
    alloc: Global,
    fields: &[Field],
    numbers: &FieldNumbers,
    item: &Item,
) -> Result<Tree, Fault>
    requires { AreNumbered fields.now numbers.now }
    ensures ok { IfOk result (λ t. tree_view t ≡ spec.fields_tree fields.now item.now.place item.now.joined item.now.tests Keyword) }
    ensures err { IfErr result (λ e. e ≡ Fault.Memory) }
{
    let mut parts = Vec::new(alloc);
    for value in item.tests.as_slice() {
        let part = lower_keyword(
            alloc,
            fields,
            numbers,
            item.place,
            numbers.searched(),
            value.as_slice(),
        )?;
        add_part(item.joined, &mut parts, part)?;
    }
    Ok(close_parts(item.joined, parts))
}

fn lower_item(
    alloc: Global,
    fields: &[Field],
    numbers: &FieldNumbers,
    item: &Item,
) -> Result<Tree, Fault>
    requires { AreNumbered fields.now numbers.now }
    ensures ok { IfOk result (λ t. tree_view t ≡ spec.item_tree fields.now item.now) }
    ensures err { IfErr result (λ e. e ≡ Fault.Memory) }
{
    match &item.fields {
        Fields::Keyword => lower_keywords(alloc, fields, numbers, item),
        Fields::Names(names) => lower_names(alloc, fields, numbers, item, names.as_slice()),
    }
}

/// All items of an alternative.
fn lower_alternative(
    alloc: Global,
    fields: &[Field],
    numbers: &FieldNumbers,
    items: &[Item],
) -> Result<Tree, Fault>
    requires { AreNumbered fields.now numbers.now }
    ensures ok { IfOk result (λ t. tree_view t ≡ spec.alternative_tree fields.now items.now) }
    ensures err { IfErr result (λ e. e ≡ Fault.Memory) }
{
    if let [item] = items {
        return lower_item(alloc, fields, numbers, item);
    }
    let mut parts = Vec::new(alloc);
    for item in items {
        let part = lower_item(alloc, fields, numbers, item)?;
        add_part(Joined::All, &mut parts, part)?;
    }
    Ok(close_parts(Joined::All, parts))
}

/// Some one of a detection's alternatives.
fn lower_detection(
    alloc: Global,
    fields: &[Field],
    numbers: &FieldNumbers,
    detection: &Detection,
) -> Result<Tree, Fault>
    requires { AreNumbered fields.now numbers.now }
    ensures ok { IfOk result (λ t. tree_view t ≡ spec.detection_tree fields.now detection.now) }
    ensures err { IfErr result (λ e. e ≡ Fault.Memory) }
{
    let mut parts = Vec::new(alloc);
    for alternative in detection.alternatives.as_slice() {
        let part = lower_alternative(alloc, fields, numbers, alternative.as_slice())?;
        add_part(Joined::Any, &mut parts, part)?;
    }
    Ok(close_parts(Joined::Any, parts))
}

/// The detection of this number; where there is none, a tree that never holds.
pub fn lower_numbered(
    alloc: Global,
    fields: &[Field],
    numbers: &FieldNumbers,
    detections: &[Detection],
    number: u32,
) -> Result<Tree, Fault>
    requires { AreNumbered fields.now numbers.now }
    ensures ok { IfOk result (λ t. tree_view t ≡ spec.numbered_tree fields.now detections.now number) }
    ensures err { IfErr result (λ e. e ≡ Fault.Memory) }
{
    match detections.get(number as usize) {
        Some(detection) => lower_detection(alloc, fields, numbers, detection),
        None => Ok(close_parts(Joined::Any, Vec::new(alloc))),
    }
}
