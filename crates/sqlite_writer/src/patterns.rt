//! The texts of patterns, as they stand in quotes.

ghost use Rattle.std.specs.Prelude.{◌≡◌, ◌++◌, OnOk};
ghost use Rattle.std.specs.List.{flat_map};
ghost use Rattle.sig_strings.specs.Edits.{plain_text};
ghost use Rattle.sql_layout.specs.Escaped.{like_text, glob_text, is_like_sign as is_like_sign_char, is_glob_sign as is_glob_sign_char};
ghost use Rattle.sql_layout.specs.Layout.{doubled};
ghost use Rattle.sql_like.specs.Writable.{sql_parts};
ghost use Rattle.sqlite_writer.specs.Signs.{like_sign, glob_sign};

use crate::output::put_inside;
use sig_base::Text;
use sig_strings::Part;
use std::alloc::AllocError;

fn is_like_sign(c: char) -> bool
    ensures { result ≡ is_like_sign_char c }
{
    c == '%' || c == '_' || c == '\\'
}

fn is_glob_sign(c: char) -> bool
    ensures { result ≡ is_glob_sign_char c }
{
    c == '*' || c == '?' || c == '['
}

/// Adds a character, behind a backslash where it's a sign of LIKE.
fn put_like_char(out: &mut Text, c: char) -> Result<(), AllocError>
    ensures { OnOk result (out.new ≡ out.old ++ doubled 39 (like_sign (Part.Char c))) }
{
    if is_like_sign(c) {
        out.push('\\')?;
    }
    put_inside(out, '\'', c)
}

fn put_like_part(out: &mut Text, part: &Part) -> Result<(), AllocError>
    ensures { OnOk result (out.new ≡ out.old ++ doubled 39 (like_sign part.now)) }
{
    match part {
        Part::Char(c) => put_like_char(out, *c),
        Part::One => out.push('_'),
        Part::Run => out.push('%'),
        Part::Dash | Part::Hole(_) => Ok(()),
    }
}

#[tactic(auto, using(crate::proofs::Doubled::next_doubled))]
fn put_like_parts(out: &mut Text, parts: &[Part]) -> Result<(), AllocError>
    ensures { OnOk result (out.new ≡ out.old ++ doubled 39 (flat_map like_sign parts.now)) }
{
    for part in parts {
        put_like_part(out, part)?;
    }
    Ok(())
}

/// Adds the text of a pattern behind LIKE, where the backslash is the escape character.
#[tactic(auto, using(crate::proofs::Signed::like_signs_are))]
pub(crate) fn put_like(out: &mut Text, parts: &[Part]) -> Result<(), AllocError>
    ensures { OnOk result (out.new ≡ out.old ++ doubled 39 (like_text (sql_parts parts.now))) }
{
    put_like_parts(out, parts)
}

/// Adds a character, in brackets where it's a sign of GLOB.
#[tactic(auto, using(crate::proofs::Doubled::doubled_append))]
fn put_glob_char(out: &mut Text, c: char) -> Result<(), AllocError>
    ensures { OnOk result (out.new ≡ out.old ++ doubled 39 (glob_sign (Part.Char c))) }
{
    if is_glob_sign(c) {
        out.push('[')?;
        put_inside(out, '\'', c)?;
        out.push(']')?;
        return Ok(());
    }
    put_inside(out, '\'', c)
}

fn put_glob_part(out: &mut Text, part: &Part) -> Result<(), AllocError>
    ensures { OnOk result (out.new ≡ out.old ++ doubled 39 (glob_sign part.now)) }
{
    match part {
        Part::Char(c) => put_glob_char(out, *c),
        Part::One => out.push('?'),
        Part::Run => out.push('*'),
        Part::Dash | Part::Hole(_) => Ok(()),
    }
}

#[tactic(auto, using(crate::proofs::Doubled::next_doubled))]
fn put_glob_parts(out: &mut Text, parts: &[Part]) -> Result<(), AllocError>
    ensures { OnOk result (out.new ≡ out.old ++ doubled 39 (flat_map glob_sign parts.now)) }
{
    for part in parts {
        put_glob_part(out, part)?;
    }
    Ok(())
}

/// Adds the text of a pattern behind GLOB.
#[tactic(auto, using(crate::proofs::Signed::glob_signs_are))]
pub(crate) fn put_glob(out: &mut Text, parts: &[Part]) -> Result<(), AllocError>
    ensures { OnOk result (out.new ≡ out.old ++ doubled 39 (glob_text (sql_parts parts.now))) }
{
    put_glob_parts(out, parts)
}

/// Adds the characters of a pattern.
#[tactic(auto, using(crate::proofs::Doubled::next_doubled))]
pub(crate) fn put_characters(out: &mut Text, parts: &[Part]) -> Result<(), AllocError>
    ensures { OnOk result (out.new ≡ out.old ++ doubled 39 (plain_text parts.now)) }
{
    for part in parts {
        if let Part::Char(c) = part {
            put_inside(out, '\'', *c)?;
        }
    }
    Ok(())
}
