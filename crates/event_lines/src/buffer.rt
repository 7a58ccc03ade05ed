//! Bytes that a source gave and nobody took yet.

ghost use Rattle.std.specs.Prelude.{◌≡◌, ◌≤◌, [], drop, length, true, IfOk, IfErr, OnErr, OnOk, is_some, ◌==◌, ◌<◌, false};
ghost use Rattle.std.specs.Io.KnownBytes.{Consumes, Keeps, IsAtEnd};
ghost use Rattle.sig_base.specs.Causes.{HasCause};

use sig_base::{Failed, Fault, Source};
use std::alloc::Global;
use std::marker::Model;

/// So many bytes are asked of a source at once.
const PIECE: usize = 65_536;

/// A room for bytes of a source, which contracts see as the bytes that nobody took yet.
#[derive(Drop)]
pub(crate) struct Buffer {
    bytes: Vec<u8>,
    start: usize,
    end: usize,
}

impl Model for Buffer {
    ghost use Rattle.std.specs.Prelude.{List, ℕ, ◌≤◌, ◌<◌, drop, take, vec_len};

    ghost Value = { List ℕ };

    ghost view = { λ b. drop b.start (take b.end b.bytes.items) };

    ghost invariant = { λ b. (b.start ≤ b.end) × (b.end ≤ vec_len b.bytes) × (0 < vec_len b.bytes) };
}

impl Buffer {
    pub(crate) fn new(alloc: Global) -> Result<Buffer, Fault>
        ensures ok { IfOk result (λ b. b ≡ []) }
        ensures err { IfErr result (λ e. e ≡ Fault.Memory) }
    {
        let mut bytes = Vec::new(alloc);
        bytes.resize(PIECE, 0)?;
        Ok(Buffer {
            bytes,
            start: 0,
            end: 0,
        })
    }

    /// The bytes that nobody took yet.
    pub(crate) fn ahead(&self) -> &[u8]
        ensures { result.now ≡ self.now }
    {
        self.bytes
            .as_slice()
            .split_at(self.end)
            .0
            .split_at(self.start)
            .1
    }

    pub(crate) fn is_empty(&self) -> bool
        ensures { result ≡ (length self.now == 0) }
    {
        self.start == self.end
    }

    /// Takes so many bytes.
    pub(crate) fn pass(&mut self, count: usize)
        requires { count ≤ length self.now }
        ensures { self.new ≡ drop count self.old }
    {
        self.start += count;
    }

    /// Asks the source for bytes where none is ahead; tells whether some are.
    pub(crate) fn fill<S: Source>(&mut self, source: &mut S) -> Result<bool, Failed>
        requires { self.now ≡ [] }
        ensures bytes { OnOk result (Consumes (S.left source.old) (S.left source.new) self.new) }
        ensures some { IfOk result (λ some. some ≡ true → 0 < length self.new) }
        ensures end { IfOk result (λ some. some ≡ false → (self.new ≡ []) × IsAtEnd (S.left source.new)) }
        ensures failed { OnErr result (Keeps (S.left source.old) (S.left source.new) × (self.new ≡ [])) }
        ensures told { is_some (S.left source.new) ≡ is_some (S.left source.old) }
        ensures cause { HasCause (S.faults source.old) (S.faults source.new) result }
    {
        self.start = 0;
        self.end = 0;
        let count = source.read(self.bytes.as_mut_slice())?;
        self.end = count;
        Ok(0 < count)
    }
}
