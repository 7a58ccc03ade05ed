//! Texts whose holes `‹name›` are filled.

use crate::trouble::Trouble;
use std::alloc::Global;

/// A hole's name between its signs, and the text that fills it.
#[derive(Drop)]
pub struct Hole {
    pub sign: String,
    pub text: String,
    /// Whether it has to be used: a case's own, and not one of those that cases share.
    pub is_owed: bool,
}

/// How many blanks a line begins with.
fn indent_of(line: &str) -> usize {
    line.len()
        .saturating_sub(line.trim_start_matches(' ').len())
}

/// Adds a text whose later lines begin with so many blanks.
fn add_indented(all: &mut String, text: &str, indent: usize) -> Result<(), Trouble> {
    let mut is_first = true;
    for line in text.split('\n') {
        if !is_first {
            all.push('\n')?;
            for _ in 0..indent {
                all.push(' ')?;
            }
        }
        is_first = false;
        all.push_str(line)?;
    }
    Ok(())
}

/// Adds a line with this text in the place of each sign.
fn add_filled(all: &mut String, line: &str, sign: &str, text: &str) -> Result<(), Trouble> {
    let indent = indent_of(line);
    let mut is_first = true;
    for part in line.split(sign) {
        if !is_first {
            add_indented(all, text, indent)?;
        }
        is_first = false;
        all.push_str(part)?;
    }
    Ok(())
}

/// A text with another one in the place of each sign, whose later lines begin with the blanks that
/// the sign's line begins with.
fn filled_once(alloc: Global, whole: &str, sign: &str, text: &str) -> Result<String, Trouble> {
    let mut all = String::new(alloc);
    let mut is_first = true;
    for line in whole.split('\n') {
        if !is_first {
            all.push('\n')?;
        }
        is_first = false;
        add_filled(&mut all, line, sign, text)?;
    }
    Ok(all)
}

/// A text with its holes filled, in their order; those that are used are owed no longer.
pub fn filled(alloc: Global, whole: &str, holes: &mut [Hole]) -> Result<String, Trouble> {
    let mut all = String::from_str(alloc, whole)?;
    for hole in holes.iter_mut() {
        if all.contains(hole.sign.as_str()) {
            all = filled_once(alloc, all.as_str(), hole.sign.as_str(), hole.text.as_str())?;
            hole.is_owed = false;
        }
    }
    Ok(all)
}
