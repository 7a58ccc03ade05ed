ghost use Rattle.std.specs.Prelude.{◌≡◌, ◌≤◌, IfOk, IfErr, length, None, Some, drop, if◌then◌else◌};
ghost use Rattle.sig_strings.specs.Edits as edits;

use crate::hole::is_word;
use crate::part::Part;
use crate::pattern::Pattern;
use sig_base::{Fault, Text};
use std::alloc::Global;

fn is_char(part: &Part) -> bool
    ensures { result ≡ edits.is_char part.now }
{
    match part {
        Part::Char(_) => true,
        _ => false,
    }
}

fn is_run(part: &Part) -> bool
    ensures { result ≡ edits.is_run part.now }
{
    match part {
        Part::Run => true,
        _ => false,
    }
}

fn is_word_part(part: &Part) -> bool
    ensures { result ≡ edits.is_word_part part.now }
{
    match part {
        Part::Char(c) => is_word(*c),
        _ => false,
    }
}

fn is_dash_sign(part: &Part) -> bool
    ensures { result ≡ edits.is_dash_sign part.now }
{
    match part {
        Part::Char(c) => *c == '-' || *c == '/',
        _ => false,
    }
}

fn is_written_part(part: &Part) -> bool
    ensures { result ≡ edits.is_written part.now }
{
    match part {
        Part::Char(_) | Part::One | Part::Run => true,
        _ => false,
    }
}

fn starts_with_run(parts: &[Part]) -> bool
    ensures { result ≡ edits.starts_with_run parts.now }
{
    match parts.first() {
        Some(part) => is_run(part),
        None => false,
    }
}

fn ends_with_run(parts: &[Part]) -> bool
    ensures { result ≡ edits.ends_with_run parts.now }
{
    match parts.last() {
        Some(part) => is_run(part),
        None => false,
    }
}

/// Whether the part at this index is a word's character.
fn starts_with_word(parts: &[Part], at: usize) -> bool
    requires { at ≤ length parts.now }
    ensures { result ≡ edits.starts_with_word (drop at parts.now) }
{
    match parts.get(at) {
        Some(part) => is_word_part(part),
        None => false,
    }
}

/// Makes the dashes among the parts.
fn make_dashes(parts: &mut Vec<Part>)
    ensures { parts.new.items ≡ edits.dashes_of parts.old.items }
{
    let mut in_word = false;
    for i in 0..parts.len() {
        let word = is_word_part(&parts[i]);
        if is_dash_sign(&parts[i]) && !in_word && starts_with_word(parts, i + 1) {
            parts[i] = Part::Dash;
        }
        in_word = word;
    }
}

fn plain_text(alloc: Global, parts: &[Part]) -> Result<Text, Fault>
    ensures ok { IfOk result (λ text. text ≡ edits.plain_text parts.now) }
    ensures err { IfErr result (λ e. e ≡ Fault.Memory) }
{
    let mut text = Text::with_capacity(alloc, parts.len())?;
    for part in parts {
        if let Part::Char(c) = part {
            text.push(*c)?;
        }
    }
    Ok(text)
}

impl Pattern {
    /// Puts a run before the parts, unless one is there.
    pub fn with_run_before(self) -> Result<Pattern, Fault>
        ensures ok { IfOk result (λ pattern. pattern ≡ edits.with_run_before self) }
        ensures err { IfErr result (λ e. e ≡ Fault.Memory) }
    {
        if starts_with_run(self.parts()) {
            return Ok(self);
        }
        let mut parts = self.into_parts();
        parts.insert(0, Part::Run)?;
        Ok(Pattern::of_parts(parts))
    }

    /// Puts a run behind the parts, unless one is there.
    pub fn with_run_after(self) -> Result<Pattern, Fault>
        ensures ok { IfOk result (λ pattern. pattern ≡ edits.with_run_after self) }
        ensures err { IfErr result (λ e. e ≡ Fault.Memory) }
    {
        if ends_with_run(self.parts()) {
            return Ok(self);
        }
        let mut parts = self.into_parts();
        parts.push(Part::Run)?;
        Ok(Pattern::of_parts(parts))
    }

    /// Each `-` and `/` that begins a word, and doesn't stand behind one, becomes a dash. (Which ones do is
    /// this converter's own choice for `windash`.)
    pub fn dashes(self) -> Pattern
        ensures { result ≡ edits.dashes_of self }
    {
        let mut parts = self.into_parts();
        make_dashes(&mut parts);
        Pattern::of_parts(parts)
    }

    /// Whether some part isn't a character.
    pub fn has_wildcard(&self) -> bool
        ensures { result ≡ edits.has_wildcard self.now }
    {
        self.parts().iter().any(|part| !is_char(part))
    }

    /// Whether a text can spell the pattern without placeholders: it has neither placeholders nor dashes.
    pub fn is_written(&self) -> bool
        ensures { result ≡ edits.all_written self.now }
    {
        self.parts().iter().all(is_written_part)
    }

    /// The characters, where all parts are characters.
    pub fn plain_text(&self, alloc: Global) -> Result<Option<Text>, Fault>
        ensures ok { IfOk result (λ text.
            text ≡ (if edits.has_wildcard self.now then None else Some (edits.plain_text self.now))) }
        ensures err { IfErr result (λ e. e ≡ Fault.Memory) }
    {
        if self.has_wildcard() {
            return Ok(None);
        }
        let text = plain_text(alloc, self.parts())?;
        Ok(Some(text))
    }
}
