//! Patterns of LIKE.

ghost use Rattle.std.specs.Prelude.{◌≡◌, Some};
ghost use Rattle.sql_lang.specs.Expression.{escape_of};
ghost use Rattle.sql_lang.specs.Faults as faults;
ghost use Rattle.sql_check.specs.Turns.{is_bad_here, escapes};

use sig_base::{Text, first_char};

/// The one character of a text.
pub(crate) fn one_character(text: &Text) -> Option<char>
    ensures { result ≡ escape_of (Some text.now) }
{
    let Some(front) = first_char(text.as_str()) else {
        return None;
    };
    match first_char(front.1) {
        Some(_) => None,
        None => Some(front.0),
    }
}

/// Whether an escape character before this one is none.
fn is_bad_here(escape: char, escaped: bool, c: char) -> bool
    ensures { result ≡ is_bad_here escape escaped c }
{
    escaped && c != '%' && c != '_' && c != escape
}

/// Whether this character is an escape character.
fn escapes(escape: char, escaped: bool, c: char) -> bool
    ensures { result ≡ escapes escape escaped c }
{
    !escaped && c == escape
}

/// Whether an escape character stands at the end, or before another character than `%`, `_` and itself.
pub(crate) fn is_bad_like(escape: char, pattern: &Text) -> bool
    ensures { result ≡ faults.is_bad_like escape pattern.now }
{
    let mut escaped = false;
    let mut left = pattern.as_str();
    while let Some((c, rest)) = first_char(left) {
        if is_bad_here(escape, escaped, c) {
            return true;
        }
        escaped = escapes(escape, escaped, c);
        left = rest;
    }
    escaped
}
