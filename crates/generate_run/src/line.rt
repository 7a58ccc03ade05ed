//! The line that is told.

ghost use Rattle.std.specs.Prelude.{◌≡◌, ◌++◌, decimal, IfOk, IfErr, OnOk};
ghost use Rattle.generate_run.specs.Lines.{line_of};

use crate::counts::Counts;
use itoa::Buffer;
use sig_base::{Bytes, Fault};
use std::alloc::Global;

/// Adds a word and a number's decimal.
fn add_number(line: &mut Vec<u8>, word: &[u8], number: u64) -> Result<(), Fault>
    ensures ok { OnOk result (line.new.items ≡ line.old.items ++ word.now ++ decimal number) }
    ensures err { IfErr result (λ e. e ≡ Fault.Memory) }
{
    let mut buffer = Buffer::new();
    line.extend_from_slice(word)?;
    line.extend_from_slice(buffer.format(number).as_bytes())?;
    Ok(())
}

/// The line of a seed, its events and the three counts, without a line feed; only want of memory is answered.
pub fn write_line(alloc: Global, seed: u32, events: u32, counts: Counts) -> Result<Bytes, Fault>
    ensures ok { IfOk result (λ line. line ≡ line_of seed events counts.rule counts.sqlite counts.lucene) }
    ensures err { IfErr result (λ e. e ≡ Fault.Memory) }
{
    let mut line = Vec::new(alloc);
    add_number(&mut line, b"seed ", seed as u64)?;
    add_number(&mut line, b" events ", events as u64)?;
    add_number(&mut line, b" rule ", counts.rule)?;
    add_number(&mut line, b" sqlite ", counts.sqlite)?;
    add_number(&mut line, b" lucene ", counts.lucene)?;
    line.extend_from_slice(b" same")?;
    Ok(Bytes::from_vec(line))
}
