ghost use Rattle.std.specs.Prelude.{◌≡◌, ◌++◌, ◌∷◌, [], List, true, false, IfOk, IfErr, OnOk, OnErr, if◌then◌else◌};
ghost use Rattle.sig_strings.specs.Edits as edits;
ghost use Rattle.sig_strings.specs.Spells.{Spells};
ghost use Rattle.sig_strings.specs.declared.part.Part.{Part};

use crate::hole::is_special;
use crate::part::Part;
use crate::pattern::Pattern;
use sig_base::{Fault, Text};
use std::alloc::Global;

/// Adds a character, behind a backslash where it would be read as more than itself.
fn write_char(text: &mut Text, c: char) -> Result<(), Fault>
    ensures ok { OnOk result (text.new ≡ text.old ++ edits.sigma_piece (Part.Char c)) }
    ensures err { IfErr result (λ e. e ≡ Fault.Memory) }
{
    if is_special(c) {
        text.push('\\')?;
    }
    text.push(c)?;
    Ok(())
}

/// Adds the text of a part.
fn write_part(text: &mut Text, part: &Part) -> Result<(), Fault>
    ensures ok { OnOk result (text.new ≡ text.old ++ edits.sigma_piece part.now) }
    ensures err { IfErr result (λ e. e ≡ Fault.Memory) }
{
    match part {
        Part::Char(c) => return write_char(text, *c),
        Part::One => text.push('?')?,
        Part::Run => text.push('*')?,
        Part::Dash | Part::Hole(_) => (),
    }
    Ok(())
}

fn write_parts(alloc: Global, parts: &[Part]) -> Result<Text, Fault>
    ensures ok { IfOk result (λ text. text ≡ edits.sigma_text parts.now) }
    ensures err { IfErr result (λ e. e ≡ Fault.Memory) }
{
    let mut text = Text::new(alloc);
    for part in parts {
        write_part(&mut text, part)?;
    }
    Ok(text)
}

impl Pattern {
    /// The text that spells this pattern where placeholders aren't read, with a backslash before each `*`, `?` and
    /// backslash among its characters.
    pub fn write_sigma(&self, alloc: Global) -> Result<Text, Fault>
        requires { edits.all_written self.now ≡ true }
        ensures text { IfOk result (λ text. text ≡ edits.sigma_text self.now) }
        ensures spelled { IfOk result (λ text. Spells false text self.now) }
        ensures no_other { IfOk result (λ text. (other : List Part) → Spells false text other → other ≡ self.now) }
        ensures err { IfErr result (λ e. e ≡ Fault.Memory) }
    {
        write_parts(alloc, self.parts())
    }
}
