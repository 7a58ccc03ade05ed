//! The builder of the program.

ghost use Rattle.std.specs.Prelude.{◌≡◌, ⊤, [], IsErr};
ghost use Rattle.std.specs.Str.{chars};
ghost use Rattle.query_lang.specs.Built.{CanRefuse, BuildAnswers};

use crate::builder::{BuildFault, Builder};
use regex::{Error, Regex};
use sig_base::Text;
use std::alloc::Global;
use std::marker::Model;

/// Builds by `Regex::new`, and keeps the texts that it refused. A call whose ordinal, from 1, is failing is refused at once.
#[derive(Drop)]
pub struct CrateBuilder {
    refused: Vec<Text>,
    failing: Vec<u64>,
    calls: u64,
}

impl Model for CrateBuilder {
    ghost use Rattle.std.specs.Prelude.{List, ℕ};

    ghost Value = { List (List ℕ) };

    ghost view = { λ b. b.refused.items };
}

impl CrateBuilder {
    /// With the ordinals of the calls that fail; takes no memory.
    pub fn new(alloc: Global, failing: Vec<u64>) -> CrateBuilder
        ensures { result ≡ [] }
    {
        CrateBuilder {
            refused: Vec::new(alloc),
            failing,
            calls: 0,
        }
    }

    /// Keeps a text that is refused, or finds no memory for it.
    fn refuse(
        &mut self,
        alloc: Global,
        pattern: &str,
        fault: BuildFault,
    ) -> Result<Regex, BuildFault>
        requires { CanRefuse fault (chars pattern.now) }
        ensures refused { BuildAnswers self.old self.new (chars pattern.now) result }
        ensures err { IsErr result }
    {
        match Text::copy(alloc, pattern) {
            Ok(text) => match self.refused.push(text) {
                Ok(()) => Err(fault),
                Err(_) => Err(BuildFault::Memory),
            },
            Err(_) => Err(BuildFault::Memory),
        }
    }
}

impl Builder for CrateBuilder {
    ghost refused = { λ b. b };

    ghost has_built = { λ b text. ⊤ };

    fn build(&mut self, alloc: Global, pattern: &str) -> Result<Regex, BuildFault> {
        self.calls = self.calls.saturating_add(1);
        if self.failing.contains(&self.calls) {
            return self.refuse(alloc, pattern, BuildFault::Refused);
        }
        match Regex::new(alloc, pattern) {
            Ok(regex) => Ok(regex),
            Err(Error::OutOfMemory) => Err(BuildFault::Memory),
            Err(Error::Syntax(_)) => self.refuse(alloc, pattern, BuildFault::Syntax),
            Err(_) => self.refuse(alloc, pattern, BuildFault::Refused),
        }
    }
}
