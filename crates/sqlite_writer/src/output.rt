//! Pieces of a query's text.

ghost use Rattle.std.specs.Prelude.{◌≡◌, ◌∷◌, ◌++◌, [], true, IfErr, OnOk};
ghost use Rattle.std.specs.Str.{chars};
ghost use Rattle.sig_base.specs.Texts.{is_ascii};
ghost use Rattle.sql_layout.specs.Layout.{doubled, in_quotes};
ghost use Rattle.sqlite_writer.specs.Pieces.{piece_if, word_of};

use crate::place::Kind;
use sig_base::{Fault, Text};
use std::alloc::AllocError;

/// Adds a piece of ASCII.
pub(crate) fn put(out: &mut Text, piece: &str) -> Result<(), Fault>
    requires { is_ascii piece.now ≡ true }
    ensures ok { OnOk result (out.new ≡ out.old ++ piece.now) }
    ensures err { IfErr result (λ e. e ≡ Fault.Memory) }
{
    out.push_str(piece)?;
    Ok(())
}

/// Adds a piece of ASCII, or nothing.
pub(crate) fn put_if(out: &mut Text, so: bool, piece: &str) -> Result<(), Fault>
    requires { is_ascii piece.now ≡ true }
    ensures ok { OnOk result (out.new ≡ out.old ++ piece_if so piece.now) }
    ensures err { IfErr result (λ e. e ≡ Fault.Memory) }
{
    if so {
        return put(out, piece);
    }
    Ok(())
}

/// Adds the word between the parts of a list, or nothing.
pub(crate) fn put_word_if(out: &mut Text, so: bool, kind: Kind) -> Result<(), Fault>
    ensures ok { OnOk result (out.new ≡ out.old ++ piece_if so (word_of kind)) }
    ensures err { IfErr result (λ e. e ≡ Fault.Memory) }
{
    match kind {
        Kind::All => put_if(out, so, " AND "),
        Kind::Any => put_if(out, so, " OR "),
    }
}

/// Adds a character of a text in quotes, doubled where it's the quote.
pub(crate) fn put_inside(out: &mut Text, quote: char, c: char) -> Result<(), AllocError>
    ensures { OnOk result (out.new ≡ out.old ++ doubled quote (c ∷ [])) }
{
    if c == quote {
        out.push(c)?;
    }
    out.push(c)?;
    Ok(())
}

/// Adds a text, each quote in it doubled.
#[tactic(auto, using(crate::proofs::Doubled::one_doubled))]
pub(crate) fn put_doubled(out: &mut Text, quote: char, text: &str) -> Result<(), AllocError>
    ensures { OnOk result (out.new ≡ out.old ++ doubled quote (chars text.now)) }
{
    for c in text.chars() {
        put_inside(out, quote, c)?;
    }
    Ok(())
}

/// Adds what stands between the quotes of a name.
fn put_name_inside(out: &mut Text, name: &str) -> Result<(), AllocError>
    ensures { OnOk result (out.new ≡ out.old ++ doubled 34 (chars name.now)) }
{
    if name.as_bytes().contains(&b'"') {
        return put_doubled(out, '"', name);
    }
    out.push_str(name)
}

/// Adds a name in quotes, each quote inside doubled.
pub(crate) fn put_name(out: &mut Text, name: &str) -> Result<(), Fault>
    ensures ok { OnOk result (out.new ≡ out.old ++ in_quotes 34 (chars name.now)) }
    ensures err { IfErr result (λ e. e ≡ Fault.Memory) }
{
    out.push('"')?;
    put_name_inside(out, name)?;
    out.push('"')?;
    Ok(())
}
