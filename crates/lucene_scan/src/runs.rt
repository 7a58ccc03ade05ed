//! The characters of a run.

ghost use Rattle.std.specs.Prelude.{◌≡◌, [], ◌∷◌, ◌++◌, OnOk, OnErr};

use lucene_lang::Written;
use std::alloc::{AllocError, Global};
use std::marker::Model;

/// Characters in order, which contracts see as a list.
#[derive(Drop, Debug)]
pub struct Run {
    items: Vec<Written>,
}

impl Model for Run {
    ghost use Rattle.std.specs.Prelude.{List};
    ghost use Rattle.lucene_lang.specs.declared.written.Written.{Written};

    ghost Value = { List Written };

    ghost view = { λ r. r.items.items };
}

impl Run {
    /// None yet.
    pub fn new(alloc: Global) -> Run
        ensures { result ≡ [] }
    {
        Run {
            items: Vec::new(alloc),
        }
    }

    /// Adds a character at the end, and leaves the run as it was where memory is missing.
    pub fn push(&mut self, c: Written) -> Result<(), AllocError>
        ensures ok { OnOk result (self.new ≡ self.old ++ c ∷ []) }
        ensures err { OnErr result (self.new ≡ self.old) }
    {
        self.items.push(c)?;
        Ok(())
    }

    /// Lends the characters.
    pub fn as_slice(&self) -> &[Written]
        ensures { result.now ≡ self.now }
    {
        self.items.as_slice()
    }
}
