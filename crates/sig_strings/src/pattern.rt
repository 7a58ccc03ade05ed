ghost use Rattle.std.specs.Prelude.{◌≡◌, IfErr, IfOk};

use crate::part::Part;
use sig_base::Fault;
use std::marker::Model;

/// What a text of a rule asks of an event's text: its parts, from left to right.
#[derive(Drop, Debug)]
pub struct Pattern {
    parts: Vec<Part>,
}

impl Model for Pattern {
    ghost use Rattle.std.specs.Prelude.{List};
    ghost use Rattle.sig_strings.specs.declared.part.Part.{Part};

    ghost Value = { List Part };

    ghost view = { λ p. p.parts.items };
}

impl Pattern {
    /// The pattern of these parts, without a copy.
    pub fn of_parts(parts: Vec<Part>) -> Pattern
        ensures { result ≡ parts.items }
    {
        Pattern { parts }
    }

    /// Lends the parts.
    pub fn parts(&self) -> &[Part]
        ensures { result.now ≡ self.now }
    {
        self.parts.as_slice()
    }

    /// A pattern of a copy of the parts; only want of memory is answered.
    pub fn copy(&self) -> Result<Pattern, Fault>
        ensures ok { IfOk result (λ pattern. pattern ≡ self.now) }
        ensures err { IfErr result (λ e. e ≡ Fault.Memory) }
    {
        let parts = self.parts.clone()?;
        Ok(Pattern { parts })
    }

    pub(crate) fn into_parts(self) -> Vec<Part>
        ensures { result.items ≡ self }
    {
        let Pattern { parts } = self;
        parts
    }
}
