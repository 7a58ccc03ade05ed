//! How answering or following lines ended, and what was written meanwhile.

use answer_writer::Stop;
use std::alloc::Global;
use std::test::Fail;

pub fn ending(answer: Result<bool, Stop>) -> &'static str {
    match answer {
        Ok(false) => "done",
        Ok(true) => "found",
        Err(Stop::Unread) => "unread",
        Err(Stop::Unwritten) => "unwritten",
        Err(Stop::Memory) => "memory",
    }
}

fn push_bytes(text: &mut String, bytes: &[u8]) -> Result<(), Fail> {
    for byte in bytes {
        text.push(*byte as char)?;
    }
    Ok(())
}

/// How it ended, what stands on the output and what on the error output, with `|` between.
pub fn shown(alloc: Global, end: &str, out: &[u8], err: &[u8]) -> Result<String, Fail> {
    let mut all = String::from_str(alloc, end)?;
    all.push('|')?;
    push_bytes(&mut all, out)?;
    all.push('|')?;
    push_bytes(&mut all, err)?;
    Ok(all)
}
