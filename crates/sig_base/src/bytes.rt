//! Bytes, which contracts see as a list.

ghost use Rattle.std.specs.Prelude.{◌≡◌, IfOk, IfErr};

use crate::refusal::Fault;
use std::alloc::Global;
use std::marker::Model;

/// Any bytes, as those of a file.
#[derive(Drop, Debug)]
pub struct Bytes {
    items: Vec<u8>,
}

impl Model for Bytes {
    ghost use Rattle.std.specs.Prelude.{List, ℕ};

    ghost Value = { List ℕ };

    ghost view = { λ b. b.items.items };
}

impl Bytes {
    /// The same bytes; only want of memory is answered.
    pub fn copy(alloc: Global, bytes: &[u8]) -> Result<Bytes, Fault>
        ensures ok { IfOk result (λ b. b ≡ bytes.now) }
        ensures err { IfErr result (λ e. e ≡ Fault.Memory) }
    {
        Ok(Bytes {
            items: Vec::from_slice(alloc, bytes)?,
        })
    }

    /// The bytes of a vector, without a copy.
    pub fn from_vec(items: Vec<u8>) -> Bytes
        ensures { result ≡ items.items }
    {
        Bytes { items }
    }

    /// The bytes as a vector, without a copy.
    pub fn into_vec(self) -> Vec<u8>
        ensures { result.items ≡ self }
    {
        self.items
    }

    /// Lends the bytes.
    pub fn as_slice(&self) -> &[u8]
        ensures { result.now ≡ self.now }
    {
        self.items.as_slice()
    }
}
