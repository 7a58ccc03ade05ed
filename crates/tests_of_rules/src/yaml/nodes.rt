//! Many lines, more than a case can hold.

use crate::tables::assert_told;
use sig_base::Place;
use std::alloc::Global;
use std::test::Fail;
use yaml_blocks::read_block;
use yaml_inline::{Halt, Line};
use yaml_tree::Kind;

/// What is read of the lines of a text: how many entries, or the code of a refusal and its place.
fn shown(alloc: Global, text: &str) -> Result<String, Fail> {
    let all: Vec<char> = text.chars().collect(alloc)?;
    let mut lines = Vec::new(alloc);
    let mut number = 0u32;
    for part in all.as_slice().split(|c| *c == '\n') {
        if part.len() < u32::MAX as usize && number < u32::MAX {
            number += 1;
            lines.push(Line { number, text: part })?;
        }
    }
    match &read_block(alloc, 32, Place::START, &lines) {
        Ok(node) => match &node.kind {
            Kind::Map(entries) => Ok(format!(in alloc; "{} entries", entries.len())?),
            _ => Ok(String::from_str(alloc, "no map")?),
        },
        Err(Halt::Refused(code, place)) => {
            let (line, column) = (place.line, place.column);
            Ok(format!(in alloc; "{code:?} {line}:{column}")?)
        }
        Err(halt) => Ok(format!(in alloc; "{halt:?}")?),
    }
}

/// What is read of 20,000 different keys, each on its line.
fn of_keys(alloc: Global) -> Result<String, Fail> {
    let mut keys = String::new(alloc);
    for at in 0..20000 {
        keys.push_str(format!(in alloc; "k{at}:\n")?.as_str())?;
    }
    shown(alloc, keys.as_str())
}

/// What is read of 20,000 lines of one key.
fn of_one_key(alloc: Global) -> Result<String, Fail> {
    let mut all = String::new(alloc);
    for _ in 0..20000 {
        all.push_str("a:\n")?;
    }
    shown(alloc, all.as_str())
}

#[test]
fn reads_many_lines(rt: HostRuntime) -> Result<(), Fail> {
    assert_told(&rt, of_keys(rt.alloc()), "20000 entries")?;
    assert_told(&rt, of_one_key(rt.alloc()), "Code(5) 2:1")
}
