//! A file that is cut after each of its bytes: each front has one answer, and the status says which.

use crate::runs::{Command, Inputs, run_in};
use case_read::{Ran, Trouble, World};
use std::alloc::Global;

/// How many lines there are, each ended by a line feed.
fn lines_in(text: &[u8]) -> usize {
    text.iter().filter(|byte| **byte == b'\n').count()
}

/// Whether a run wrote one line: to the output where it ended with 0, to the error output where it
/// ended with 1.
fn is_answered(ran: &Ran) -> bool {
    let out = lines_in(ran.out.as_slice());
    let err = lines_in(ran.err.as_slice());
    match ran.status {
        0 => out == 1 && err == 0,
        1 => out == 0 && err == 1,
        _ => false,
    }
}

fn front_of(bytes: &[u8], length: usize) -> &[u8] {
    bytes.split_at(length.min(bytes.len())).0
}

/// The inputs with the file of this name cut after so many bytes.
fn cut(alloc: Global, inputs: &Inputs, name: &str, length: usize) -> Result<Inputs, Trouble> {
    let mut files = Vec::new(alloc);
    for file in inputs.files.as_slice() {
        let mut bytes = file.1.as_slice();
        if file.0.as_str() == name {
            bytes = front_of(bytes, length);
        }
        let bytes = Vec::from_slice(alloc, bytes)?;
        files.push((String::from_str(alloc, file.0.as_str())?, bytes))?;
    }
    let events = Vec::from_slice(alloc, inputs.events.as_slice())?;
    Ok(Inputs { files, events })
}

/// How many bytes the file of this name has; 0 if there is none.
fn length_of(inputs: &Inputs, name: &str) -> usize {
    for file in inputs.files.as_slice() {
        if file.0.as_str() == name {
            return file.1.len();
        }
    }
    0
}

/// What is wrong with a command's runs over the fronts of a file, or nothing.
pub fn broken_front(
    alloc: Global,
    world: World,
    command: Command,
    name: &str,
) -> Result<Option<String>, Trouble> {
    let whole = length_of(command.inputs, name);
    if whole == 0 {
        return Err(Trouble::of(alloc, "no file that is cut", name));
    }
    for length in 1..whole {
        let inputs = cut(alloc, command.inputs, name, length)?;
        let front = Command {
            words: command.words,
            inputs: &inputs,
        };
        if !is_answered(&run_in(alloc, world, front)?) {
            let line = format!(in alloc; "{name} cut after byte {length} hasn't one answer")?;
            return Ok(Some(line));
        }
    }
    Ok(None)
}
