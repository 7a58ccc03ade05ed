//! A source in memory.

ghost use Rattle.std.specs.Prelude.{◌≡◌, ◌≤◌, Some, length, is_some, OnErr, MatchResult, true, false};
ghost use Rattle.std.specs.Io.{ReadsAtMost};
ghost use Rattle.std.specs.Io.KnownBytes.{ReadConsumes};
ghost use Rattle.sig_base.specs.Causes.{HasCause};
ghost use Rattle.system_io.specs.Memory.{SourceState, is_failing, source_moves, next};

use sig_base::{Bytes, Failed, Source};
use std::marker::Model;

/// Bytes in memory, given in pieces of at most `most`. A read fails where its ordinal, from 1, stands in `failing`.
#[derive(Drop)]
pub struct MemorySource {
    bytes: Bytes,
    at: usize,
    most: usize,
    failing: Vec<u64>,
    calls: u64,
    faults: u64,
}

impl Model for MemorySource {
    ghost use Rattle.std.specs.Prelude.{◌≤◌, drop, length};
    ghost use Rattle.system_io.specs.Memory.{SourceState};

    ghost Value = { SourceState };

    ghost view = { λ s. record { left = drop s.at s.bytes; most = s.most; failing = s.failing.items; calls = s.calls; faults = s.faults } };

    ghost invariant = { λ s. (s.at ≤ length s.bytes) × (1 ≤ s.most) };
}

impl MemorySource {
    /// Takes no memory.
    pub fn new(bytes: Bytes, most: usize, failing: Vec<u64>) -> MemorySource
        requires { 1 ≤ most }
        ensures { result ≡ record { left = bytes; most = most; failing = failing.items; calls = 0; faults = 0 } }
    {
        MemorySource {
            bytes,
            at: 0,
            most,
            failing,
            calls: 0,
            faults: 0,
        }
    }
}

impl Source for MemorySource {
    ghost left = { λ s. Some s.left };

    ghost faults = { λ s. s.faults };

    fn read(&mut self, buf: &mut [u8]) -> Result<usize, Failed>
        ensures bound { ReadsAtMost result buf.new }
        ensures bytes { ReadConsumes (Some self.old.left) (Some self.new.left) result buf.new }
        ensures told { is_some (Some self.new.left) ≡ is_some (Some self.old.left) }
        ensures cause { HasCause self.old.faults self.new.faults result }
        ensures exact { MatchResult result
            (λ n. (is_failing self.old.failing self.old.calls ≡ false) × (n ≡ source_moves self.old (length buf.old)))
            (λ _. is_failing self.old.failing self.old.calls ≡ true) }
        ensures calls { self.new.calls ≡ next self.old.calls }
        ensures count { OnErr result (self.new.faults ≡ next self.old.faults) }
        ensures others { (self.new.failing ≡ self.old.failing) × (self.new.most ≡ self.old.most) }
    {
        self.calls = self.calls.saturating_add(1);
        if self.failing.contains(&self.calls) {
            self.faults = self.faults.saturating_add(1);
            return Err(Failed);
        }
        let rest = self.bytes.as_slice().split_at(self.at).1;
        let count = rest.len().min(self.most).min(buf.len());
        buf.split_at_mut(count)
            .0
            .copy_from_slice(rest.split_at(count).0);
        self.at += count;
        Ok(count)
    }
}
