//! Which JSON values are schemas, but for what their names and kinds allow.

ghost use Rattle.std.specs.Prelude.{◌≡◌};
ghost use Rattle.event_read.specs.Keys.{keys_of};
ghost use Rattle.event_read.specs.SchemaOf as spec;
ghost use Rattle.serde_json.specs.Find.{get};
ghost use Rattle.serde_json.specs.View.{view, items_view, members_view};

use event_schema::{FieldKind, TimeForm};
use serde_json::{Map, Value};

/// What an object is, which says the keys that it may have.
#[derive(Clone, Copy)]
enum Keys {
    Schema,
    Field,
    Time,
}

fn is_key(keys: Keys, key: &str) -> bool
    ensures { result ≡ spec.is_one_of (keys_of keys) key.now }
{
    match keys {
        Keys::Schema => key == "table" || key == "fields" || key == "time",
        Keys::Field => {
            key == "name"
                || key == "kind"
                || key == "at"
                || key == "search"
                || key == "cased"
                || key == "many"
        }
        Keys::Time => key == "at" || key == "form",
    }
}

fn are_keys(keys: Keys, map: &Map<String, Value>) -> bool
    ensures { result ≡ spec.all_keys (spec.is_one_of (keys_of keys)) (members_view map.now.entries) }
{
    for (key, _value) in map.iter() {
        if !is_key(keys, key.as_str()) {
            return false;
        }
    }
    true
}

fn has_only(keys: Keys, value: &Value) -> bool
    ensures { result ≡ spec.has_only (keys_of keys) (view value.now) }
{
    match value.as_object() {
        Some(map) => are_keys(keys, map),
        None => false,
    }
}

fn all_texts(items: &[Value]) -> bool
    ensures { result ≡ spec.all_items spec.is_text (items_view items.now) }
{
    for item in items {
        if !item.is_string() {
            return false;
        }
    }
    true
}

fn some_texts(items: &[Value]) -> bool
    ensures { result ≡ spec.some_items spec.is_text (items_view items.now) }
{
    match items {
        [] => false,
        [first, rest @ ..] => first.is_string() && all_texts(rest),
    }
}

/// Whether the value is a list of texts that has one.
fn is_path(value: &Value) -> bool
    ensures { result ≡ spec.is_list_of spec.is_text (view value.now) }
{
    match value.as_array() {
        Some(items) => some_texts(items.as_slice()),
        None => false,
    }
}

/// The kind of fields that the word is.
pub(super) fn kind_of(word: &str) -> Option<FieldKind>
    ensures { result ≡ spec.kind_of word.now }
{
    if word == "text" {
        Some(FieldKind::Text)
    } else if word == "whole" {
        Some(FieldKind::Whole)
    } else if word == "address" {
        Some(FieldKind::Address)
    } else {
        None
    }
}

/// The form of times that the word is.
pub(super) fn form_of(word: &str) -> Option<TimeForm>
    ensures { result ≡ spec.form_of word.now }
{
    if word == "text" {
        Some(TimeForm::Text)
    } else if word == "seconds" {
        Some(TimeForm::Seconds)
    } else if word == "millis" {
        Some(TimeForm::Millis)
    } else {
        None
    }
}

fn is_kind(value: &Value) -> bool
    ensures { result ≡ spec.is_kind (view value.now) }
{
    match value.as_str() {
        Some(word) => kind_of(word).is_some(),
        None => false,
    }
}

fn is_form(value: &Value) -> bool
    ensures { result ≡ spec.is_form (view value.now) }
{
    match value.as_str() {
        Some(word) => form_of(word).is_some(),
        None => false,
    }
}

fn has_text(value: &Value, key: &str) -> bool
    ensures { result ≡ spec.passes spec.is_text (get key.now (view value.now)) }
{
    match value.get(key) {
        Some(text) => text.is_string(),
        None => false,
    }
}

fn has_text_if_any(value: &Value, key: &str) -> bool
    ensures { result ≡ spec.passes_if_any spec.is_text (get key.now (view value.now)) }
{
    match value.get(key) {
        Some(text) => text.is_string(),
        None => true,
    }
}

fn has_flag_if_any(value: &Value, key: &str) -> bool
    ensures { result ≡ spec.passes_if_any spec.is_flag (get key.now (view value.now)) }
{
    match value.get(key) {
        Some(flag) => flag.is_boolean(),
        None => true,
    }
}

fn has_kind(value: &Value, key: &str) -> bool
    ensures { result ≡ spec.passes spec.is_kind (get key.now (view value.now)) }
{
    match value.get(key) {
        Some(kind) => is_kind(kind),
        None => false,
    }
}

fn has_form(value: &Value, key: &str) -> bool
    ensures { result ≡ spec.passes spec.is_form (get key.now (view value.now)) }
{
    match value.get(key) {
        Some(form) => is_form(form),
        None => false,
    }
}

fn has_path(value: &Value, key: &str) -> bool
    ensures { result ≡ spec.passes (spec.is_list_of spec.is_text) (get key.now (view value.now)) }
{
    match value.get(key) {
        Some(path) => is_path(path),
        None => false,
    }
}

fn has_path_if_any(value: &Value, key: &str) -> bool
    ensures { result ≡ spec.passes_if_any (spec.is_list_of spec.is_text) (get key.now (view value.now)) }
{
    match value.get(key) {
        Some(path) => is_path(path),
        None => true,
    }
}

fn is_field(value: &Value) -> bool
    ensures { result ≡ spec.is_field (view value.now) }
{
    has_only(Keys::Field, value)
        && has_text(value, "name")
        && has_kind(value, "kind")
        && has_path_if_any(value, "at")
        && has_flag_if_any(value, "search")
        && has_flag_if_any(value, "cased")
        && has_flag_if_any(value, "many")
}

fn all_fields(items: &[Value]) -> bool
    ensures { result ≡ spec.all_items spec.is_field (items_view items.now) }
{
    for item in items {
        if !is_field(item) {
            return false;
        }
    }
    true
}

fn some_fields(items: &[Value]) -> bool
    ensures { result ≡ spec.some_items spec.is_field (items_view items.now) }
{
    match items {
        [] => false,
        [first, rest @ ..] => is_field(first) && all_fields(rest),
    }
}

fn are_fields(value: &Value) -> bool
    ensures { result ≡ spec.is_list_of spec.is_field (view value.now) }
{
    match value.as_array() {
        Some(items) => some_fields(items.as_slice()),
        None => false,
    }
}

fn has_fields(value: &Value, key: &str) -> bool
    ensures { result ≡ spec.passes (spec.is_list_of spec.is_field) (get key.now (view value.now)) }
{
    match value.get(key) {
        Some(fields) => are_fields(fields),
        None => false,
    }
}

fn is_time(value: &Value) -> bool
    ensures { result ≡ spec.is_time (view value.now) }
{
    has_only(Keys::Time, value) && has_path(value, "at") && has_form(value, "form")
}

fn has_time_if_any(value: &Value, key: &str) -> bool
    ensures { result ≡ spec.passes_if_any spec.is_time (get key.now (view value.now)) }
{
    match value.get(key) {
        Some(time) => is_time(time),
        None => true,
    }
}

/// Whether the value is a schema, but for what its names and kinds allow.
pub(super) fn is_schema(value: &Value) -> bool
    ensures { result ≡ spec.is_schema (view value.now) }
{
    has_only(Keys::Schema, value)
        && has_fields(value, "fields")
        && has_text_if_any(value, "table")
        && has_time_if_any(value, "time")
}
