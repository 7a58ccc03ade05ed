//! A sink over a real stream.

ghost use Rattle.std.specs.Prelude.{None};

use crate::real::pieces::write_piece;
use sig_base::{Failed, Sink};
use std::io::Write;

/// A stream that is written. It tells no contents; a write that takes nothing of a piece is a failure.
#[derive(Drop)]
pub struct OutputSink<W> {
    writer: W,
    faults: u64,
}

impl<W: Write> OutputSink<W> {
    /// Takes no memory.
    pub fn new(writer: W) -> OutputSink<W> {
        OutputSink { writer, faults: 0 }
    }
}

impl<W: Write> Sink for OutputSink<W> {
    ghost taken = { λ _. None };

    ghost faults = { λ s. s.faults };

    fn write(&mut self, bytes: &[u8]) -> Result<usize, Failed> {
        if bytes.is_empty() {
            return Ok(0);
        }
        match write_piece(&mut self.writer, bytes) {
            Some(count) => Ok(count),
            None => {
                self.faults = self.faults.saturating_add(1);
                Err(Failed)
            }
        }
    }
}
