//! Names of fields and tables.

ghost use Rattle.std.specs.Prelude.{◌≡◌, true};
ghost use Rattle.std.specs.List.{list_all};
ghost use Rattle.std.specs.Str.{chars, all_scalars};
ghost use Rattle.event_schema.specs.Names as spec;

use sig_base::{Text, count_of};

/// Whether a character may stand in the name of a field or table.
fn is_name_char(c: char) -> bool
    ensures { result ≡ spec.is_name_char c }
{
    c >= ' ' && c != '\u{7f}' && c != '|'
}

fn has_name_chars(name: &str) -> bool
    ensures { result ≡ list_all spec.is_name_char (chars name.now) }
{
    name.chars().all(is_name_char)
}

/// Whether this may be the name of a field or table: it has 1 to 128 characters, none of them below U+0020, U+007F or `|`.
pub fn is_legal(name: &Text) -> bool
    ensures legal { result ≡ spec.is_legal name.now }
    ensures scalars { all_scalars name.now ≡ true }
{
    let count = count_of(name.as_str());
    1 <= count && count <= 128 && has_name_chars(name.as_str())
}
