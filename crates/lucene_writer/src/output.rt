//! Pieces of a query's text.

ghost use Rattle.std.specs.Prelude.{◌≡◌, ◌++◌, true, IfErr, OnOk, [], ◌∷◌};
ghost use Rattle.std.specs.List.{flat_map};
ghost use Rattle.std.specs.Str.{chars};
ghost use Rattle.sig_base.specs.Texts.{is_ascii};
ghost use Rattle.lucene_layout.specs.Escaped as escapes;
ghost use Rattle.lucene_writer.specs.Pieces as pieces;
ghost use Rattle.lucene_writer.specs.Told.{searched};

use sig_base::{Fault, Text};
use sig_strings::Part;
use std::alloc::{AllocError, Global};

/// Adds a piece of ASCII.
pub(crate) fn put(out: &mut Text, piece: &str) -> Result<(), Fault>
    requires { is_ascii piece.now ≡ true }
    ensures ok { OnOk result (out.new ≡ out.old ++ piece.now) }
    ensures err { IfErr result (λ e. e ≡ Fault.Memory) }
{
    out.push_str(piece)?;
    Ok(())
}

/// Adds a piece of ASCII, or nothing.
pub(crate) fn put_if(out: &mut Text, so: bool, piece: &str) -> Result<(), Fault>
    requires { is_ascii piece.now ≡ true }
    ensures ok { OnOk result (out.new ≡ out.old ++ pieces.piece_if so piece.now) }
    ensures err { IfErr result (λ e. e ≡ Fault.Memory) }
{
    if so {
        return put(out, piece);
    }
    Ok(())
}

fn is_special(c: char) -> bool
    ensures { result ≡ escapes.is_special c }
{
    c == '+'
        || c == '-'
        || c == '&'
        || c == '|'
        || c == '!'
        || c == '('
        || c == ')'
        || c == '{'
        || c == '}'
        || c == '['
        || c == ']'
        || c == '^'
        || c == '"'
        || c == '~'
        || c == '*'
        || c == '?'
        || c == ':'
        || c == '\\'
        || c == '/'
        || c == ' '
        || c == '\t'
        || c == '\n'
        || c == '\r'
        || c == '\u{3000}'
}

fn put_char(out: &mut Text, c: char) -> Result<(), AllocError>
    ensures { OnOk result (out.new ≡ out.old ++ pieces.char_sign c) }
{
    if is_special(c) {
        out.push('\\')?;
    }
    out.push(c)?;
    Ok(())
}

fn put_part(out: &mut Text, part: &Part) -> Result<(), AllocError>
    ensures { OnOk result (out.new ≡ out.old ++ pieces.part_sign part.now) }
{
    match part {
        Part::Char(c) => put_char(out, *c),
        Part::One => out.push('?'),
        Part::Run => out.push('*'),
        Part::Dash | Part::Hole(_) => Ok(()),
    }
}

#[tactic(auto, using(crate::proofs::Signs::next_sign))]
fn put_parts(out: &mut Text, parts: &[Part]) -> Result<(), AllocError>
    ensures { OnOk result (out.new ≡ out.old ++ flat_map pieces.part_sign parts.now) }
{
    for part in parts {
        put_part(out, part)?;
    }
    Ok(())
}

#[tactic(auto, using(crate::proofs::Signs::one_sign))]
fn put_chars(out: &mut Text, text: &str) -> Result<(), AllocError>
    ensures { OnOk result (out.new ≡ out.old ++ flat_map pieces.char_sign (chars text.now)) }
{
    for c in text.chars() {
        put_char(out, c)?;
    }
    Ok(())
}

fn is_word(text: &Text) -> bool
    ensures { result ≡ escapes.is_word_text text.now }
{
    text.is("AND") || text.is("OR") || text.is("NOT")
}

/// Adds a run, behind a backslash where it would be a word.
fn put_run(out: &mut Text, run: &Text) -> Result<(), AllocError>
    ensures { OnOk result (out.new ≡ out.old ++ escapes.word_escaped run.now) }
{
    if is_word(run) {
        out.push('\\')?;
    }
    out.push_str(run.as_str())
}

/// Adds a pattern as a term.
pub(crate) fn put_pattern(alloc: Global, out: &mut Text, parts: &[Part]) -> Result<(), Fault>
    ensures ok { OnOk result (out.new ≡ out.old ++ pieces.pattern_text parts.now) }
    ensures err { IfErr result (λ e. e ≡ Fault.Memory) }
{
    let mut run = Text::new(alloc);
    put_parts(&mut run, parts)?;
    put_run(out, &run)?;
    Ok(())
}

/// Adds a text as a term.
pub(crate) fn put_plain(alloc: Global, out: &mut Text, text: &str) -> Result<(), Fault>
    ensures ok { OnOk result (out.new ≡ out.old ++ pieces.plain_text (chars text.now)) }
    ensures err { IfErr result (λ e. e ≡ Fault.Memory) }
{
    let mut run = Text::new(alloc);
    put_chars(&mut run, text)?;
    put_run(out, &run)?;
    Ok(())
}

/// Adds the name of a field, or of its twin.
#[tactic(auto, using(crate::proofs::Signs::twin_signs))]
pub(crate) fn put_name(alloc: Global, out: &mut Text, name: &str, twin: bool) -> Result<(), Fault>
    ensures ok { OnOk result (out.new ≡ out.old ++ pieces.plain_text (searched twin (chars name.now))) }
    ensures err { IfErr result (λ e. e ≡ Fault.Memory) }
{
    let mut run = Text::new(alloc);
    put_chars(&mut run, name)?;
    put_if(&mut run, twin, ".cased")?;
    put_run(out, &run)?;
    Ok(())
}
