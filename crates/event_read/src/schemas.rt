//! Schemas, read from the bytes of a file.

ghost use Rattle.std.specs.Prelude.{◌≡◌, IfOk, Some};
ghost use Rattle.std.specs.List.{list_all};
ghost use Rattle.event_read.specs.Answers.{Answers};
ghost use Rattle.event_read.specs.SchemaOf as spec;
ghost use Rattle.event_schema.specs.Schemas as schemas;
ghost use Rattle.event_schema.specs.Schemas.{IsSchema};
ghost use Rattle.serde_json.specs.View.{view};

use crate::json_values::read_json;
use crate::parts::schema_in;
use crate::repeats::has_repeats;
use crate::shapes::is_schema;
use event_schema::{Field, FieldKind, Schema, is_legal};
use serde_json::Value;
use sig_base::{Code, Fault, Limits, Place, Text, refused};
use std::alloc::Global;

fn may_be_searched(kind: FieldKind) -> bool
    ensures { result ≡ schemas.may_be_searched kind }
{
    match kind {
        FieldKind::Text => true,
        FieldKind::Whole => false,
        FieldKind::Address => false,
    }
}

fn may_be_cased(kind: FieldKind) -> bool
    ensures { result ≡ schemas.may_be_cased kind }
{
    match kind {
        FieldKind::Text => true,
        FieldKind::Whole => false,
        FieldKind::Address => true,
    }
}

/// Whether the name is legal; a text is of scalar values by itself.
#[tactic(auto, using(crate::proofs::SchemaNames::legal_name))]
fn is_name(name: &Text) -> bool
    ensures { result ≡ spec.is_name name.now }
{
    is_legal(name)
}

/// Whether the field's name is legal, and its kind may be searched and cased where it is.
fn is_allowed(field: &Field) -> bool
    ensures { result ≡ spec.is_allowed field.now }
{
    is_name(&field.name)
        && (!field.search || may_be_searched(field.kind))
        && (!field.cased || may_be_cased(field.kind))
}

fn all_allowed(fields: &[Field]) -> bool
    ensures { result ≡ list_all spec.is_allowed fields.now }
{
    fields.iter().all(is_allowed)
}

fn are_allowed(schema: &Schema) -> bool
    ensures { result ≡ spec.are_allowed schema.now }
{
    is_name(&schema.table) && all_allowed(schema.fields.as_slice())
}

/// The schema, unless it has too many fields or names that stand there twice.
fn counted(alloc: Global, limits: &Limits, schema: Schema, place: Place) -> Result<Schema, Fault>
    ensures { Answers place (spec.counted limits.now schema) result }
{
    if schema.fields.as_slice().len() > limits.schema_fields {
        return Err(refused(Code::SCHEMA_LIMIT, place));
    }
    match has_repeats(alloc, schema.fields.as_slice()) {
        Ok(true) => Err(refused(Code::SCHEMA_REPEAT, place)),
        Ok(false) => Ok(schema),
        Err(fault) => Err(fault),
    }
}

/// The schema that a JSON value is.
fn shaped(alloc: Global, limits: &Limits, value: &Value, place: Place) -> Result<Schema, Fault>
    ensures taken { Answers place (spec.shaped limits.now (Some (view value.now))) result }
    ensures is_schema { IfOk result IsSchema }
{
    if !is_schema(value) {
        return Err(refused(Code::SCHEMA_SHAPE, place));
    }
    let schema = match schema_in(alloc, value) {
        Ok(schema) => schema,
        Err(fault) => return Err(fault),
    };
    if !are_allowed(&schema) {
        return Err(refused(Code::SCHEMA_SHAPE, place));
    }
    counted(alloc, limits, schema, place)
}

/// Reads the bytes of a file as a schema. Refusals stand at 1:1: 23 where there are too many bytes, 20 where they are no JSON
/// value, 21 where it is no schema, 23 where it has too many fields, 22 where names repeat.
pub fn read_schema(alloc: Global, limits: &Limits, bytes: &[u8]) -> Result<Schema, Fault>
    ensures taken { Answers (record { line = 1; column = 1 }) (spec.schema_of limits.now bytes.now) result }
    ensures is_schema { IfOk result IsSchema }
{
    let place = Place { line: 1, column: 1 };
    if bytes.len() > limits.file_bytes {
        return Err(refused(Code::SCHEMA_LIMIT, place));
    }
    match read_json(alloc, bytes) {
        Ok(Some(value)) => shaped(alloc, limits, &value, place),
        Ok(None) => Err(refused(Code::SCHEMA_JSON, place)),
        Err(fault) => Err(fault),
    }
}
