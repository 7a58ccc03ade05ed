//! Fields by their numbers.

ghost use Rattle.std.specs.Prelude.{◌≡◌};
ghost use Rattle.std.specs.Str.{chars};
ghost use Rattle.backend_core.specs.FieldAt as spec;

use event_schema::{Field, FieldKind};

/// The name of the field of this number, which is empty where there is no such field.
pub fn name_of(fields: &[Field], number: u32) -> &str
    ensures { chars result.now ≡ spec.name_at fields.now number }
{
    match fields.get(number as usize) {
        Some(field) => field.name.as_str(),
        None => "",
    }
}

/// The kind of the field of this number, which is that of texts where there is no such field.
pub fn kind_of(fields: &[Field], number: u32) -> FieldKind
    ensures { result ≡ spec.kind_at fields.now number }
{
    match fields.get(number as usize) {
        Some(field) => field.kind,
        None => FieldKind::Text,
    }
}

/// Whether the field of this number may have several values.
pub fn is_many(fields: &[Field], number: u32) -> bool
    ensures { result ≡ spec.is_many fields.now number }
{
    match fields.get(number as usize) {
        Some(field) => field.many,
        None => false,
    }
}
