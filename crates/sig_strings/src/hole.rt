ghost use Rattle.std.specs.Prelude.{◌≡◌, IfOk, IfErr};
ghost use Rattle.std.specs.Str.{chars};
ghost use Rattle.sig_strings.specs.Spells.{is_special as is_special_char, is_word_char};
ghost use Rattle.sig_strings.specs.Signs as signs;

use sig_base::{Fault, Text, first_char};
use std::alloc::Global;

/// Whether this is a character of `[A-Za-z0-9_]`.
pub fn is_word(c: char) -> bool
    ensures { result ≡ is_word_char c }
{
    c.is_ascii_alphanumeric() || c == '_'
}

/// Whether a backslash makes this character plain.
pub fn is_special(c: char) -> bool
    ensures { result ≡ is_special_char c }
{
    c == '*' || c == '?' || c == '\\'
}

/// What stands behind a placeholder whose first `%` was read, or `None` where no placeholder begins there.
pub fn hole_end(text: &str) -> Option<&str>
    ensures { signs.EndsHole (chars text.now) result }
{
    let mut left = text;
    let mut named = false;
    loop {
        let Some((c, rest)) = first_char(left) else {
            return None;
        };
        if c == '%' {
            if named {
                return Some(rest);
            }
            return None;
        }
        if !is_word(c) {
            return None;
        }
        named = true;
        left = rest;
    }
}

/// The name of the placeholder that stands at the front of the text.
pub fn hole_name(alloc: Global, text: &str) -> Result<Text, Fault>
    ensures ok { IfOk result (λ name. name ≡ signs.hole_name (chars text.now)) }
    ensures err { IfErr result (λ e. e ≡ Fault.Memory) }
{
    let mut name = Text::new(alloc);
    let Some((_, mut left)) = first_char(text) else {
        return Ok(name);
    };
    loop {
        let Some((c, rest)) = first_char(left) else {
            return Ok(name);
        };
        if !is_word(c) {
            return Ok(name);
        }
        name.push(c)?;
        left = rest;
    }
}
