//! What becomes of a name: one text, or several.

ghost use Rattle.std.specs.Prelude.{◌≡◌, ◌++◌, ◌∷◌, [], length, IfOk, IfErr};
ghost use Rattle.pipeline_rename.specs.Made.{texts_made};

use sig_base::{Fault, Text};
use std::alloc::Global;

/// Texts that are to be made: one, or each of these prefixes with this back behind it.
#[derive(Drop)]
pub enum Made<'m> {
    One(Text),
    Each { prefixes: &'m [Text], back: Text },
}

/// The first text, and behind it the second.
pub fn joined(alloc: Global, front: &Text, back: &Text) -> Result<Text, Fault>
    ensures ok { IfOk result (λ t. t ≡ front.now ++ back.now) }
    ensures err { IfErr result (λ e. e ≡ Fault.Memory) }
{
    let mut text = Text::copy(alloc, front.as_str())?;
    text.push_str(back.as_str())?;
    Ok(text)
}

/// The name itself.
pub fn itself<'m>(alloc: Global, name: &Text) -> Result<Made<'m>, Fault>
    ensures ok { IfOk result (λ made. texts_made made ≡ name.now ∷ []) }
    ensures err { IfErr result (λ e. e ≡ Fault.Memory) }
{
    Ok(Made::One(Text::copy(alloc, name.as_str())?))
}

impl<'m> Made<'m> {
    /// How many texts.
    pub fn count(&self) -> usize
        ensures { result ≡ length (texts_made self.now) }
    {
        match self {
            Made::One(_) => 1,
            Made::Each { prefixes, back: _ } => prefixes.len(),
        }
    }
}
