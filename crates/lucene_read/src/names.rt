//! Names of fields and of their twins.

ghost use Rattle.std.specs.Prelude.{◌≡◌, ◌<◌, ◌^◌, ℕ, List, length, option_map};
ghost use Rattle.std.specs.Str.{bytes_eq, chars};
ghost use Rattle.event_schema.specs.Schemas.{twin};
ghost use Rattle.lucene_lang.specs.Faults.{is_whole};
ghost use Rattle.lucene_lang.specs.Query as query;
ghost use Rattle.lucene_read.specs.Known.{is_base, known_in};

use crate::partial::Known;
use event_schema::{Field, FieldKind};
use sig_base::Text;

fn is_whole(kind: FieldKind) -> bool
    ensures { result ≡ is_whole kind }
{
    match kind {
        FieldKind::Whole => true,
        FieldKind::Text | FieldKind::Address => false,
    }
}

/// What stands before `.cased` at a name's end: the name whose twin this is.
fn twin_base(name: &Text) -> Option<&str>
    ensures { (text : List ℕ) → is_base (option_map (λ s. chars s.now) result) text ≡ bytes_eq (twin text) name.now }
{
    match name.as_str().strip_suffix(".cased") {
        Some(base) => Some(base),
        None => None,
    }
}

fn is_base(base: Option<&str>, text: &Text) -> bool
    ensures { result ≡ is_base (option_map (λ s. chars s.now) base.entry) text.now }
{
    match base {
        Some(base) => text.is(base),
        None => false,
    }
}

/// Whether a name with this base is that of a field's twin.
fn is_twin(field: &Field, name: &Text, base: Option<&str>) -> bool
    requires { (text : List ℕ) → is_base (option_map (λ s. chars s.now) base) text ≡ bytes_eq (twin text) name.now }
    ensures { result ≡ query.is_twin field.now name.now }
{
    field.cased && is_base(base, &field.name)
}

/// The first field that has this name, or whose twin has it.
pub(crate) fn known_in(fields: &[Field], name: &Text) -> Option<Known>
    requires { length fields.now < 2 ^ 32 }
    ensures { result ≡ known_in 0 fields.now name.now }
{
    let base = twin_base(name);
    for (i, field) in fields.iter().enumerate() {
        let whole = is_whole(field.kind);
        if field.name.equals(name) {
            return Some(Known {
                field: i as u32,
                cased: false,
                whole,
            });
        }
        if is_twin(field, name, base) {
            return Some(Known {
                field: i as u32,
                cased: true,
                whole,
            });
        }
    }
    None
}
