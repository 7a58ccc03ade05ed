//! What JSON values say, as parts of a schema.

ghost use Rattle.std.specs.Prelude.{◌≡◌, ◌∷◌, [], true, codes, IfOk, IfErr, option_map};
ghost use Rattle.std.specs.Str.{chars};
ghost use Rattle.event_read.specs.SchemaOf as spec;
ghost use Rattle.serde_json.specs.Find.{get};
ghost use Rattle.serde_json.specs.View.{view, items_view};

use crate::shapes::{form_of, kind_of};
use event_schema::{Field, FieldKind, FieldList, Schema, Time, TimeForm};
use serde_json::Value;
use sig_base::{Fault, Text, Texts};
use std::alloc::Global;

fn text_of(alloc: Global, value: &Value) -> Result<Text, Fault>
    ensures ok { IfOk result (λ t. t ≡ spec.text_of (view value.now)) }
    ensures err { IfErr result (λ e. e ≡ Fault.Memory) }
{
    match value.as_str() {
        Some(text) => Text::copy(alloc, text),
        None => Ok(Text::new(alloc)),
    }
}

fn text_at(alloc: Global, value: &Value, key: &str) -> Result<Text, Fault>
    ensures ok { IfOk result (λ t. t ≡ spec.text_at key.now (view value.now)) }
    ensures err { IfErr result (λ e. e ≡ Fault.Memory) }
{
    match value.get(key) {
        Some(found) => text_of(alloc, found),
        None => Ok(Text::new(alloc)),
    }
}

fn flag_of(value: &Value) -> bool
    ensures { result ≡ spec.flag_of (view value.now) }
{
    match value.as_bool() {
        Some(flag) => flag,
        None => false,
    }
}

fn flag_at(value: &Value, key: &str) -> bool
    ensures { result ≡ spec.flag_at key.now (view value.now) }
{
    match value.get(key) {
        Some(found) => flag_of(found),
        None => false,
    }
}

fn kind_in(value: &Value) -> FieldKind
    ensures { result ≡ spec.kind_in (view value.now) }
{
    let Some(word) = value.as_str() else {
        return FieldKind::Text;
    };
    match kind_of(word) {
        Some(kind) => kind,
        None => FieldKind::Text,
    }
}

fn kind_at(value: &Value, key: &str) -> FieldKind
    ensures { result ≡ spec.kind_at key.now (view value.now) }
{
    match value.get(key) {
        Some(found) => kind_in(found),
        None => FieldKind::Text,
    }
}

fn form_in(value: &Value) -> TimeForm
    ensures { result ≡ spec.form_in (view value.now) }
{
    let Some(word) = value.as_str() else {
        return TimeForm::Text;
    };
    match form_of(word) {
        Some(form) => form,
        None => TimeForm::Text,
    }
}

fn form_at(value: &Value, key: &str) -> TimeForm
    ensures { result ≡ spec.form_at key.now (view value.now) }
{
    match value.get(key) {
        Some(found) => form_in(found),
        None => TimeForm::Text,
    }
}

fn items_of(value: &Value) -> &[Value]
    ensures { items_view result.now ≡ spec.items_of (view value.now) }
{
    match value.as_array() {
        Some(items) => items.as_slice(),
        None => &[],
    }
}

fn items_at<'v>(value: &'v Value, key: &str) -> &'v [Value]
    ensures { items_view result.now ≡ spec.items_at key.now (view value.now) }
{
    match value.get(key) {
        Some(found) => items_of(found),
        None => &[],
    }
}

fn texts_of(alloc: Global, items: &[Value]) -> Result<Texts, Fault>
    ensures ok { IfOk result (λ texts. texts ≡ spec.texts_of (items_view items.now)) }
    ensures err { IfErr result (λ e. e ≡ Fault.Memory) }
{
    let mut texts = Texts::new(alloc);
    for item in items {
        texts.push(text_of(alloc, item)?)?;
    }
    Ok(texts)
}

/// The one key that is the name.
fn alone(alloc: Global, name: &str) -> Result<Texts, Fault>
    ensures ok { IfOk result (λ texts. texts ≡ chars name.now ∷ []) }
    ensures err { IfErr result (λ e. e ≡ Fault.Memory) }
{
    let mut texts = Texts::new(alloc);
    texts.push(Text::copy(alloc, name)?)?;
    Ok(texts)
}

/// The keys that lead to a field's value: its own name where none are written.
fn path_of(alloc: Global, name: &str, value: &Value, key: &str) -> Result<Texts, Fault>
    ensures ok { IfOk result (λ texts. texts ≡ spec.path_of (chars name.now) (get key.now (view value.now))) }
    ensures err { IfErr result (λ e. e ≡ Fault.Memory) }
{
    match value.get(key) {
        Some(found) => texts_of(alloc, items_of(found)),
        None => alone(alloc, name),
    }
}

fn field_of(alloc: Global, value: &Value) -> Result<Field, Fault>
    ensures ok { IfOk result (λ field. field ≡ spec.field_of (view value.now)) }
    ensures err { IfErr result (λ e. e ≡ Fault.Memory) }
{
    let name = text_at(alloc, value, "name")?;
    let at = path_of(alloc, name.as_str(), value, "at")?;
    Ok(Field {
        name,
        kind: kind_at(value, "kind"),
        at,
        search: flag_at(value, "search"),
        cased: flag_at(value, "cased"),
        many: flag_at(value, "many"),
    })
}

fn fields_of(alloc: Global, items: &[Value]) -> Result<FieldList, Fault>
    ensures ok { IfOk result (λ fields. fields ≡ spec.fields_of (items_view items.now)) }
    ensures err { IfErr result (λ e. e ≡ Fault.Memory) }
{
    let mut fields = FieldList::new(alloc);
    for item in items {
        fields.push(field_of(alloc, item)?)?;
    }
    Ok(fields)
}

fn time_of(alloc: Global, value: &Value) -> Result<Time, Fault>
    ensures ok { IfOk result (λ time. time ≡ spec.time_of (view value.now)) }
    ensures err { IfErr result (λ e. e ≡ Fault.Memory) }
{
    let at = texts_of(alloc, items_at(value, "at"))?;
    Ok(Time {
        at,
        form: form_at(value, "form"),
    })
}

fn time_at(alloc: Global, value: &Value, key: &str) -> Result<Option<Time>, Fault>
    ensures ok { IfOk result (λ time. time ≡ option_map spec.time_of (get key.now (view value.now))) }
    ensures err { IfErr result (λ e. e ≡ Fault.Memory) }
{
    match value.get(key) {
        Some(found) => Ok(Some(time_of(alloc, found)?)),
        None => Ok(None),
    }
}

/// The name of the table where none is written.
fn default_table(alloc: Global) -> Result<Text, Fault>
    ensures ok { IfOk result (λ table. table ≡ codes "events") }
    ensures err { IfErr result (λ e. e ≡ Fault.Memory) }
{
    Text::copy(alloc, "events")
}

fn table_at(alloc: Global, value: &Value, key: &str) -> Result<Text, Fault>
    ensures ok { IfOk result (λ table. table ≡ spec.table_of (get key.now (view value.now))) }
    ensures err { IfErr result (λ e. e ≡ Fault.Memory) }
{
    match value.get(key) {
        Some(found) => text_of(alloc, found),
        None => default_table(alloc),
    }
}

/// What a value that is a schema says.
pub(super) fn schema_in(alloc: Global, value: &Value) -> Result<Schema, Fault>
    ensures ok { IfOk result (λ schema. schema ≡ spec.schema_in (view value.now)) }
    ensures err { IfErr result (λ e. e ≡ Fault.Memory) }
{
    let table = table_at(alloc, value, "table")?;
    let fields = fields_of(alloc, items_at(value, "fields"))?;
    let time = time_at(alloc, value, "time")?;
    Ok(Schema {
        table,
        fields,
        time,
    })
}
