//! A sink in memory.

ghost use Rattle.std.specs.Prelude.{◌≡◌, ◌≤◌, Some, ◌<◌, [], length, is_some, IfOk, IfErr, OnErr, MatchResult, true, false};
ghost use Rattle.std.specs.Io.{WritesAtMost};
ghost use Rattle.std.specs.Io.KnownBytes.{WriteAppends};
ghost use Rattle.sig_base.specs.Causes.{HasCause};
ghost use Rattle.system_io.specs.Memory.{SinkState, sink_fails, sink_takes, next};

use sig_base::{Failed, Fault, Sink};
use std::alloc::Global;
use std::marker::Model;

/// Takes up to `room` bytes, in pieces of at most `most`. A write fails where its ordinal, from 1, stands in
/// `failing`, and where there is no room for a piece that isn't empty.
#[derive(Drop)]
pub struct MemorySink {
    bytes: Vec<u8>,
    room: usize,
    most: usize,
    failing: Vec<u64>,
    calls: u64,
    faults: u64,
}

impl Model for MemorySink {
    ghost use Rattle.std.specs.Prelude.{◌≤◌, vec_len, vec_capacity};
    ghost use Rattle.system_io.specs.Memory.{SinkState};

    ghost Value = { SinkState };

    ghost view = { λ s. record { taken = s.bytes.items; room = s.room; most = s.most; failing = s.failing.items; calls = s.calls; faults = s.faults } };

    ghost invariant = { λ s. (vec_len s.bytes ≤ s.room) × (s.room ≤ vec_capacity s.bytes) × (1 ≤ s.most) };
}

impl MemorySink {
    /// Reserves `room` bytes, so that no write takes memory; only want of memory is answered.
    pub fn new(
        alloc: Global,
        room: usize,
        most: usize,
        failing: Vec<u64>,
    ) -> Result<MemorySink, Fault>
        requires { 1 ≤ most }
        ensures ok { IfOk result (λ s. s ≡ record { taken = []; room = room; most = most; failing = failing.items; calls = 0; faults = 0 }) }
        ensures err { IfErr result (λ e. e ≡ Fault.Memory) }
    {
        let bytes = Vec::with_capacity(alloc, room)?;
        Ok(MemorySink {
            bytes,
            room,
            most,
            failing,
            calls: 0,
            faults: 0,
        })
    }

    /// Lends what the sink has taken.
    pub fn taken(&self) -> &[u8]
        ensures { result.now ≡ self.now.taken }
    {
        self.bytes.as_slice()
    }
}

impl Sink for MemorySink {
    ghost taken = { λ s. Some s.taken };

    ghost faults = { λ s. s.faults };

    fn write(&mut self, bytes: &[u8]) -> Result<usize, Failed>
        ensures bound { WritesAtMost result bytes.now }
        ensures progress { IfOk result (λ n. 0 < length bytes.now → 0 < n) }
        ensures bytes { WriteAppends (Some self.old.taken) (Some self.new.taken) result bytes.now }
        ensures told { is_some (Some self.new.taken) ≡ is_some (Some self.old.taken) }
        ensures cause { HasCause self.old.faults self.new.faults result }
        ensures exact { MatchResult result
            (λ n. (sink_fails self.old bytes.now ≡ false) × (n ≡ sink_takes self.old bytes.now))
            (λ _. sink_fails self.old bytes.now ≡ true) }
        ensures calls { self.new.calls ≡ next self.old.calls }
        ensures count { OnErr result (self.new.faults ≡ next self.old.faults) }
        ensures others { (self.new.failing ≡ self.old.failing) × (self.new.most ≡ self.old.most) × (self.new.room ≡ self.old.room) }
    {
        self.calls = self.calls.saturating_add(1);
        if self.failing.contains(&self.calls) {
            self.faults = self.faults.saturating_add(1);
            return Err(Failed);
        }
        if self.room <= self.bytes.len() && 0 < bytes.len() {
            self.faults = self.faults.saturating_add(1);
            return Err(Failed);
        }
        let count = bytes.len().min(self.most).min(self.room - self.bytes.len());
        match self.bytes.extend_from_slice(bytes.split_at(count).0) {
            Ok(()) => Ok(count),
            Err(_) => unreachable!(),
        }
    }
}
