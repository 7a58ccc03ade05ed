//! A source over a real stream.

ghost use Rattle.std.specs.Prelude.{None};

use crate::real::pieces::read_piece;
use sig_base::{Failed, Source};
use std::io::Read;

/// A stream that is read. It tells no contents.
#[derive(Drop)]
pub struct InputSource<R> {
    reader: R,
    faults: u64,
}

impl<R: Read> InputSource<R> {
    /// Takes no memory.
    pub fn new(reader: R) -> InputSource<R> {
        InputSource { reader, faults: 0 }
    }
}

impl<R: Read> Source for InputSource<R> {
    ghost left = { λ _. None };

    ghost faults = { λ s. s.faults };

    fn read(&mut self, buf: &mut [u8]) -> Result<usize, Failed> {
        match read_piece(&mut self.reader, buf) {
            Some(count) => Ok(count),
            None => {
                self.faults = self.faults.saturating_add(1);
                Err(Failed)
            }
        }
    }
}
