ghost use Rattle.std.specs.Prelude.{◌≡◌, ◌↔◌, List, true, false, IfOk, IfErr, IsTrue, None, Some, if◌then◌else◌};
ghost use Rattle.std.specs.Str.{chars};
ghost use Rattle.sig_strings.specs.Edits as edits;
ghost use Rattle.sig_strings.specs.Fits.{Fits};
ghost use Rattle.sig_strings.specs.Spells.{Spells};
ghost use Rattle.sig_strings.specs.declared.part.Part.{Part};

use crate::part::Part;
use crate::pattern::Pattern;
use sig_base::{Fault, Text};
use std::alloc::Global;
use std::marker::Model;
use std::rc::Rc;

/// A pattern that its copies share, which contracts see as the list of its parts.
#[derive(Drop, Debug)]
pub struct SharedPattern {
    shared: Rc<Pattern>,
}

impl Model for SharedPattern {
    ghost use Rattle.std.specs.Prelude.{List};
    ghost use Rattle.sig_strings.specs.declared.part.Part.{Part};

    ghost Value = { List Part };

    ghost view = { λ p. p.shared.value };
}

impl SharedPattern {
    /// Shares a pattern, without a copy of its parts; only want of memory is answered.
    pub fn share(alloc: Global, pattern: Pattern) -> Result<SharedPattern, Fault>
        ensures ok { IfOk result (λ shared. shared ≡ pattern) }
        ensures err { IfErr result (λ e. e ≡ Fault.Memory) }
    {
        let shared = Rc::new(alloc, pattern)?;
        Ok(SharedPattern { shared })
    }

    /// Lends the parts.
    pub fn parts(&self) -> &[Part]
        ensures { result.now ≡ self.now }
    {
        self.shared.parts()
    }

    /// The same pattern, without a copy of its parts; only want of memory is answered.
    pub fn copy(&self) -> Result<SharedPattern, Fault>
        ensures ok { IfOk result (λ pattern. pattern ≡ self.now) }
        ensures err { IfErr result (λ e. e ≡ Fault.Memory) }
    {
        let shared = self.shared.clone()?;
        Ok(SharedPattern { shared })
    }

    /// Whether a text fits, as `Pattern::fits` says.
    pub fn fits(&self, text: &str, cased: bool) -> bool
        ensures { IsTrue result ↔ Fits self.now (chars text.now) cased }
    {
        self.shared.fits(text, cased)
    }

    /// Whether some part isn't a character.
    pub fn has_wildcard(&self) -> bool
        ensures { result ≡ edits.has_wildcard self.now }
    {
        self.shared.has_wildcard()
    }

    /// Whether a text can spell the pattern without placeholders.
    pub fn is_written(&self) -> bool
        ensures { result ≡ edits.all_written self.now }
    {
        self.shared.is_written()
    }

    /// The characters, where all parts are characters; only want of memory is answered.
    pub fn plain_text(&self, alloc: Global) -> Result<Option<Text>, Fault>
        ensures ok { IfOk result (λ text. text ≡ (if edits.has_wildcard self.now then None else Some (edits.plain_text self.now))) }
        ensures err { IfErr result (λ e. e ≡ Fault.Memory) }
    {
        self.shared.plain_text(alloc)
    }

    /// The text that spells the pattern, as `Pattern::write_sigma` says; only want of memory is answered.
    pub fn write_sigma(&self, alloc: Global) -> Result<Text, Fault>
        requires { edits.all_written self.now ≡ true }
        ensures text { IfOk result (λ text. text ≡ edits.sigma_text self.now) }
        ensures spelled { IfOk result (λ text. Spells false text self.now) }
        ensures no_other { IfOk result (λ text. (other : List Part) → Spells false text other → other ≡ self.now) }
        ensures err { IfErr result (λ e. e ≡ Fault.Memory) }
    {
        self.shared.write_sigma(alloc)
    }
}
