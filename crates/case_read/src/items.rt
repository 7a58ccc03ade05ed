//! The items of a file of cases: its headings, its commands and its parts with their texts.

use crate::trouble::Trouble;
use std::alloc::Global;

/// What an item is.
#[derive(Clone, Copy, PartialEq, Eq)]
pub enum Kind {
    /// `=== TITLE`: what the cases after it share.
    Shared,
    /// `== TITLE`: a case.
    Case,
    /// `$ sigma WORD..`
    Command,
    /// `--- NAME.END` or `--- file NAME`
    File,
    /// `--- events`
    Events,
    /// `--- out`
    Out,
    /// `--- err`
    Err,
    /// `--- with NAME [TEXT]`: the text of a hole `‹NAME›`.
    With,
    /// `--- WORD WORD..`, as `--- status 1`.
    Setting,
}

/// An item: what stands on its line, and the lines of its text.
#[derive(Drop)]
pub struct Item {
    pub line: u64,
    pub kind: Kind,
    pub name: String,
    pub text: String,
    /// Whether lines may follow that are its text.
    pub takes_text: bool,
}

/// What a line says of the item that it begins; without a text, the lines below are its text.
#[derive(Clone, Copy)]
struct Start<'a> {
    kind: Kind,
    name: &'a str,
    text: Option<&'a str>,
}

fn with_lines(kind: Kind, name: &str) -> Start<'_> {
    Start {
        kind,
        name,
        text: None,
    }
}

fn with_no_lines(kind: Kind, name: &str) -> Start<'_> {
    Start {
        kind,
        name,
        text: Some(""),
    }
}

/// What a line begins, if it begins an item.
fn start_of(line: &str) -> Option<Start<'_>> {
    if let Some(title) = line.strip_prefix("=== ") {
        return Some(with_no_lines(Kind::Shared, title));
    }
    if let Some(title) = line.strip_prefix("== ") {
        return Some(with_no_lines(Kind::Case, title));
    }
    if let Some(words) = line.strip_prefix("$ ") {
        return Some(with_no_lines(Kind::Command, words));
    }
    match line.strip_prefix("--- ") {
        Some(part) => Some(part_of(part)),
        None => None,
    }
}

/// The text of a hole, on its line or on those below.
fn hole_of(words: &str) -> Start<'_> {
    match words.split_once(' ') {
        Some((name, text)) => Start {
            kind: Kind::With,
            name,
            text: Some(text),
        },
        None => with_lines(Kind::With, words),
    }
}

fn part_of(part: &str) -> Start<'_> {
    match part {
        "events" => return with_lines(Kind::Events, part),
        "out" => return with_lines(Kind::Out, part),
        "err" => return with_lines(Kind::Err, part),
        _ => {}
    }
    if let Some(name) = part.strip_prefix("file ") {
        return with_lines(Kind::File, name);
    }
    if let Some(words) = part.strip_prefix("with ") {
        return hole_of(words);
    }
    if part.contains('.') && !part.contains(' ') {
        return with_lines(Kind::File, part);
    }
    with_no_lines(Kind::Setting, part)
}

fn item_of(alloc: Global, line: u64, start: Start) -> Result<Item, Trouble> {
    Ok(Item {
        line,
        kind: start.kind,
        name: String::from_str(alloc, start.name)?,
        text: String::from_str(alloc, start.text.unwrap_or(""))?,
        takes_text: start.text.is_none(),
    })
}

/// What is wrong with the line of this number.
fn refused(alloc: Global, number: u64, what: &str) -> Trouble {
    match format!(in alloc; "line {number}: {what}") {
        Ok(text) => Trouble::Said(text),
        Err(_) => Trouble::Memory,
    }
}

/// Adds a line to an item's text, after so many empty ones.
fn add_line(item: &mut Item, empty: u64, line: &str) -> Result<(), Trouble> {
    for _ in 0..empty {
        item.text.push('\n')?;
    }
    item.text.push_str(line)?;
    item.text.push('\n')?;
    Ok(())
}

/// Whether something on a line can't be seen.
fn is_unseen(line: &str) -> bool {
    line.ends_with(' ') || line.chars().any(|c| c < ' ' || c == '\u{7f}')
}

/// Adds a line that begins no item, after so many empty ones.
fn add_other(
    alloc: Global,
    items: &mut Vec<Item>,
    number: u64,
    empty: u64,
    line: &str,
) -> Result<(), Trouble> {
    if let Some(item) = items.last_mut() {
        if item.takes_text {
            return add_line(item, empty, line);
        }
    }
    if line.starts_with('#') {
        Ok(())
    } else {
        Err(refused(alloc, number, "a text that belongs to no part"))
    }
}

/// The items of a text. Empty lines at the end of an item's text aren't of it, and lines with `#`
/// are comments where no text can stand.
pub fn items_of(alloc: Global, text: &str) -> Result<Vec<Item>, Trouble> {
    let mut items: Vec<Item> = Vec::new(alloc);
    let mut empty: u64 = 0;
    let mut number: u64 = 0;
    for line in text.split('\n') {
        number = number.saturating_add(1);
        if line.is_empty() {
            empty = empty.saturating_add(1);
            continue;
        }
        if is_unseen(line) {
            return Err(refused(alloc, number, "a byte that isn't seen"));
        }
        match start_of(line) {
            Some(start) => items.push(item_of(alloc, number, start)?)?,
            None => add_other(alloc, &mut items, number, empty, line)?,
        }
        empty = 0;
    }
    Ok(items)
}
