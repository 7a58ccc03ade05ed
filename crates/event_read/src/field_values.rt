//! What a field takes of a JSON value.

ghost use Rattle.std.specs.Prelude.{◌≡◌, ◌≤◌, None, Err, Ok, Some, true, length, nat_lt, IfOk, IfSome};
ghost use Rattle.std.specs.List.{list_all};
ghost use Rattle.std.specs.Str.{chars};
ghost use Rattle.event_read.specs.Answers.{Answers};
ghost use Rattle.event_read.specs.Takes as spec;
ghost use Rattle.event_schema.specs.declared.value.Value.TheVariants as values;
ghost use Rattle.serde_json.specs.Find.{as_i64};
ghost use Rattle.sig_base.specs.Texts.{is_ascii};
ghost use Rattle.event_schema.specs.Events.{AreValuesOf, IsOfKind};
ghost use Rattle.event_schema.specs.Lists.{EachOf};
ghost use Rattle.event_schema.specs.declared.schema.FieldKind.TheVariants as kinds;
ghost use Rattle.serde_json.specs.View.{view, items_view, number_view};

use crate::decimals::is_decimal;
use crate::quads::is_address;
use event_schema::{Field, FieldKind, FieldValues, Value as FieldValue, decimal};
use event_time::is_whole;
use serde_json::{Number, Value};
use sig_base::{Code, Fault, Place, Text, refused};
use std::alloc::Global;

/// What a field of texts takes of a text.
fn as_text(alloc: Global, text: &str, place: Place) -> Result<Option<FieldValue>, Fault>
    ensures taken { Answers place (spec.as_text (chars text.now)) result }
    ensures kind { IfOk result (λ v. IfSome v (IsOfKind kinds.Text)) }
{
    if text.as_bytes().contains(&0) {
        return Err(refused(Code::EVENT_NUL, place));
    }
    Ok(Some(FieldValue::Text(Text::copy(alloc, text)?)))
}

fn as_digits(alloc: Global, number: i64, place: Place) -> Result<Option<FieldValue>, Fault>
    ensures taken { Answers place (spec.as_digits number) result }
    ensures kind { IfOk result (λ v. IfSome v (IsOfKind kinds.Text)) }
{
    if !is_whole(number) {
        return Err(refused(Code::EVENT_RANGE, place));
    }
    Ok(Some(FieldValue::Text(decimal(alloc, number)?)))
}

fn as_whole(number: i64, place: Place) -> Result<Option<FieldValue>, Fault>
    ensures taken { Answers place (spec.as_whole number) result }
    ensures kind { IfOk result (λ v. IfSome v (IsOfKind kinds.Whole)) }
{
    if !is_whole(number) {
        return Err(refused(Code::EVENT_RANGE, place));
    }
    Ok(Some(FieldValue::Whole(number)))
}

fn text_of_number(alloc: Global, number: &Number, place: Place) -> Result<Option<FieldValue>, Fault>
    ensures taken { Answers place (spec.text_of_number (number_view number.now)) result }
    ensures kind { IfOk result (λ v. IfSome v (IsOfKind kinds.Text)) }
{
    match number.as_i64() {
        Some(whole) => as_digits(alloc, whole, place),
        None => Err(refused(beyond(number), place)),
    }
}

fn whole_of_number(number: &Number, place: Place) -> Result<Option<FieldValue>, Fault>
    ensures taken { Answers place (spec.whole_of_number (number_view number.now)) result }
    ensures kind { IfOk result (λ v. IfSome v (IsOfKind kinds.Whole)) }
{
    match number.as_i64() {
        Some(whole) => as_whole(whole, place),
        None => Err(refused(beyond(number), place)),
    }
}

/// Why a number that isn't one of 64 bits with a sign is refused.
fn beyond(number: &Number) -> Code
    ensures whole { as_i64 (number_view number.now) ≡ None → spec.whole_of_number (number_view number.now) ≡ Err result }
    ensures text { as_i64 (number_view number.now) ≡ None → spec.text_of_number (number_view number.now) ≡ Err result }
{
    if number.is_u64() {
        Code::EVENT_RANGE
    } else {
        Code::EVENT_KIND
    }
}

fn literal(alloc: Global, text: &str, place: Place) -> Result<Option<FieldValue>, Fault>
    requires ascii { is_ascii text.now ≡ true }
    requires plain { list_all (λ c. nat_lt 0 c) text.now ≡ true }
    ensures taken { Answers place (Ok (Some (values.Text text.now))) result }
    ensures kind { IfOk result (λ v. IfSome v (IsOfKind kinds.Text)) }
{
    Ok(Some(FieldValue::Text(Text::copy(alloc, text)?)))
}

/// What a field of texts takes.
fn text_of(alloc: Global, value: &Value, place: Place) -> Result<Option<FieldValue>, Fault>
    ensures taken { Answers place (spec.text_of (view value.now)) result }
    ensures kind { IfOk result (λ v. IfSome v (IsOfKind kinds.Text)) }
{
    match value {
        Value::Null => Ok(None),
        Value::Bool(true) => literal(alloc, "true", place),
        Value::Bool(false) => literal(alloc, "false", place),
        Value::Number(number) => text_of_number(alloc, number, place),
        Value::String(text) => as_text(alloc, text.as_str(), place),
        Value::Array(_) => Err(refused(Code::EVENT_KIND, place)),
        Value::Object(_) => Err(refused(Code::EVENT_KIND, place)),
    }
}

/// What a field of whole numbers takes of a text.
fn whole_of_text(text: &str, place: Place) -> Result<Option<FieldValue>, Fault>
    ensures taken { Answers place (spec.whole_of_text text.now) result }
    ensures kind { IfOk result (λ v. IfSome v (IsOfKind kinds.Whole)) }
{
    if !is_decimal(text.as_bytes()) {
        return Err(refused(Code::EVENT_KIND, place));
    }
    match text.parse::<i64>() {
        Ok(number) => as_whole(number, place),
        Err(_) => Err(refused(Code::EVENT_RANGE, place)),
    }
}

/// What a field of whole numbers takes.
fn whole_of(value: &Value, place: Place) -> Result<Option<FieldValue>, Fault>
    ensures taken { Answers place (spec.whole_of (view value.now)) result }
    ensures kind { IfOk result (λ v. IfSome v (IsOfKind kinds.Whole)) }
{
    match value {
        Value::Null => Ok(None),
        Value::Number(number) => whole_of_number(number, place),
        Value::String(text) => whole_of_text(text.as_str(), place),
        Value::Bool(_) => Err(refused(Code::EVENT_KIND, place)),
        Value::Array(_) => Err(refused(Code::EVENT_KIND, place)),
        Value::Object(_) => Err(refused(Code::EVENT_KIND, place)),
    }
}

/// What a field of addresses takes of a text.
fn address_of_text(alloc: Global, text: &str, place: Place) -> Result<Option<FieldValue>, Fault>
    ensures taken { Answers place (spec.address_of_text text.now) result }
    ensures kind { IfOk result (λ v. IfSome v (IsOfKind kinds.Address)) }
{
    if !is_address(text.as_bytes()) {
        return Err(refused(Code::EVENT_KIND, place));
    }
    as_text(alloc, text, place)
}

/// What a field of addresses takes.
fn address_of(alloc: Global, value: &Value, place: Place) -> Result<Option<FieldValue>, Fault>
    ensures taken { Answers place (spec.address_of (view value.now)) result }
    ensures kind { IfOk result (λ v. IfSome v (IsOfKind kinds.Address)) }
{
    match value {
        Value::Null => Ok(None),
        Value::String(text) => address_of_text(alloc, text.as_str(), place),
        Value::Bool(_) => Err(refused(Code::EVENT_KIND, place)),
        Value::Number(_) => Err(refused(Code::EVENT_KIND, place)),
        Value::Array(_) => Err(refused(Code::EVENT_KIND, place)),
        Value::Object(_) => Err(refused(Code::EVENT_KIND, place)),
    }
}

/// The single value that a field of this kind takes of a JSON value.
fn take_single(
    alloc: Global,
    kind: FieldKind,
    value: &Value,
    place: Place,
) -> Result<Option<FieldValue>, Fault>
    ensures taken { Answers place (spec.take_single kind (view value.now)) result }
    ensures kind { IfOk result (λ v. IfSome v (IsOfKind kind)) }
{
    match kind {
        FieldKind::Text => text_of(alloc, value, place),
        FieldKind::Whole => whole_of(value, place),
        FieldKind::Address => address_of(alloc, value, place),
    }
}

/// The values of a list's elements.
fn take_each(
    alloc: Global,
    kind: FieldKind,
    items: &[Value],
    place: Place,
) -> Result<FieldValues, Fault>
    ensures taken { Answers place (spec.take_each kind (items_view items.now)) result }
    ensures kind { IfOk result (λ vs. EachOf (IsOfKind kind) vs) }
{
    let mut values = Vec::new(alloc);
    for item in items {
        match take_single(alloc, kind, item, place) {
            Ok(Some(value)) => values.push(value)?,
            Ok(None) => continue,
            Err(fault) => return Err(fault),
        }
    }
    Ok(FieldValues::from_vec(values))
}

/// A list of one value, or of none.
fn take_alone(
    alloc: Global,
    kind: FieldKind,
    value: &Value,
    place: Place,
) -> Result<FieldValues, Fault>
    ensures taken { Answers place (spec.alone (spec.take_single kind (view value.now))) result }
    ensures kind { IfOk result (λ vs. EachOf (IsOfKind kind) vs) }
    ensures few { IfOk result (λ vs. length vs ≤ 1) }
{
    match take_single(alloc, kind, value, place) {
        Ok(Some(value)) => Ok(FieldValues::one(value)),
        Ok(None) => Ok(FieldValues::none()),
        Err(fault) => Err(fault),
    }
}

/// What a field of several values takes: a list, or a single value.
fn take_many(
    alloc: Global,
    kind: FieldKind,
    value: &Value,
    place: Place,
) -> Result<FieldValues, Fault>
    ensures taken { Answers place (spec.take_many kind (view value.now)) result }
    ensures kind { IfOk result (λ vs. EachOf (IsOfKind kind) vs) }
{
    match value {
        Value::Array(items) => take_each(alloc, kind, items.as_slice(), place),
        Value::Null => take_alone(alloc, kind, value, place),
        Value::Bool(_) => take_alone(alloc, kind, value, place),
        Value::Number(_) => take_alone(alloc, kind, value, place),
        Value::String(_) => take_alone(alloc, kind, value, place),
        Value::Object(_) => take_alone(alloc, kind, value, place),
    }
}

/// The values that a field takes of a JSON value.
pub(super) fn take_values(
    alloc: Global,
    field: &Field,
    value: &Value,
    place: Place,
) -> Result<FieldValues, Fault>
    ensures taken { Answers place (spec.take_values field.now.kind field.now.many (view value.now)) result }
    ensures are { IfOk result (λ vs. AreValuesOf field.now vs) }
{
    if field.many {
        return take_many(alloc, field.kind, value, place);
    }
    take_alone(alloc, field.kind, value, place)
}
