//! Texts that are read as patterns, without placeholders, however long they are.

ghost use Rattle.std.specs.Prelude.{◌≡◌, ◌≤◌, ◌++◌, ◌∷◌, length, false, IfOk, IfErr};
ghost use Rattle.std.specs.Str.{chars};
ghost use Rattle.sig_strings.specs.Spells.{is_special};
ghost use Rattle.modifier_values.specs.Parts.{parts_of};
ghost use Rattle.pipeline_fill.specs.Entries as spec;
ghost use Rattle.pipeline_fill.specs.Made.{entry_view, texts_view};
ghost use Rattle.pipeline_fill.specs.Read.{plain_part};

use crate::entry::Entry;
use crate::growth::add;
use sig_base::{Fault, Sequence, Text, first_char};
use sig_strings::Part;
use std::alloc::Global;

/// The parts of a pattern up to some place.
pub type Front = Sequence<Part>;

fn is_special(c: char) -> bool
    ensures { result ≡ is_special c }
{
    c == '*' || c == '?' || c == '\\'
}

/// What a character other than a backslash is.
fn plain_part(c: char) -> Part
    ensures { result ≡ plain_part c }
{
    match c {
        '*' => Part::Run,
        '?' => Part::One,
        _ => Part::Char(c),
    }
}

/// Adds what a backslash before this text is, and gives what is left of the text.
#[tactic(auto, using(crate::proofs::ReadLemmas::backslash_last, crate::proofs::ReadLemmas::backslash_plain, crate::proofs::ReadLemmas::backslash_itself))]
fn push_backslash<'t>(parts: &mut Front, rest: &'t str) -> Result<&'t str, Fault>
    ensures ok { IfOk result (λ left. parts.new ++ parts_of false (chars left.now) ≡ parts.old ++ parts_of false (92 ∷ chars rest.now)) }
    ensures shorter { IfOk result (λ left. length left.now ≤ length rest.now) }
    ensures err { IfErr result (λ e. e ≡ Fault.Memory) }
{
    let Some((next, behind)) = first_char(rest) else {
        parts.push(Part::Char('\\'))?;
        return Ok(rest);
    };
    if is_special(next) {
        parts.push(Part::Char(next))?;
        return Ok(behind);
    }
    parts.push(Part::Char('\\'))?;
    Ok(rest)
}

/// Adds what a character before this text is, and gives what is left of the text.
#[tactic(auto, using(crate::proofs::ReadLemmas::plain_first))]
fn push_front<'t>(parts: &mut Front, c: char, rest: &'t str) -> Result<&'t str, Fault>
    ensures ok { IfOk result (λ left. parts.new ++ parts_of false (chars left.now) ≡ parts.old ++ parts_of false (c ∷ chars rest.now)) }
    ensures shorter { IfOk result (λ left. length left.now ≤ length rest.now) }
    ensures err { IfErr result (λ e. e ≡ Fault.Memory) }
{
    if c == '\\' {
        return push_backslash(parts, rest);
    }
    parts.push(plain_part(c))?;
    Ok(rest)
}

/// The pattern that a text spells, which has no more parts than the text has characters.
#[tactic(auto, using(crate::proofs::ReadLemmas::read_turn, crate::proofs::ReadLemmas::read_end))]
pub fn read_value(alloc: Global, text: &Text) -> Result<Front, Fault>
    ensures ok { IfOk result (λ parts. parts ≡ parts_of false text.now) }
    ensures err { IfErr result (λ e. e ≡ Fault.Memory) }
{
    let mut parts = Front::new(alloc);
    let mut left = text.as_str();
    while let Some((c, rest)) = first_char(left) {
        left = push_front(&mut parts, c, rest)?;
    }
    Ok(parts)
}

/// The patterns that texts spell.
pub fn read_values(alloc: Global, texts: &[Text]) -> Result<Vec<Front>, Fault>
    ensures ok { IfOk result (λ all. all.items ≡ spec.patterns_of texts.now) }
    ensures err { IfErr result (λ e. e ≡ Fault.Memory) }
{
    let mut all = Vec::with_capacity(alloc, texts.len())?;
    for text in texts {
        all.push(read_value(alloc, text)?)?;
    }
    Ok(all)
}

/// The entry of texts, each of which is read here once.
pub fn measured<'s>(alloc: Global, texts: &'s [Text]) -> Result<Entry<'s>, Fault>
    ensures ok { IfOk result (λ e. entry_view e ≡ texts_view texts.now) }
    ensures err { IfErr result (λ e. e ≡ Fault.Memory) }
{
    let mut longest = 0;
    let mut extent = 0;
    for text in texts {
        let read = read_value(alloc, text)?;
        let count = read.as_slice().len();
        longest = longest.max(count);
        extent = add(extent, count as u128);
    }
    Ok(Entry {
        texts,
        longest,
        extent,
    })
}
