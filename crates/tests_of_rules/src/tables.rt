//! Tables of rows that are told one by one, and nodes of YAML made by hand.

use sig_base::{Fault, Place, Text};
use std::alloc::Global;
use std::process::Abort;
use std::test::Fail;
use yaml_tree::{Entry, Node};

pub const TOP: Place = Place { line: 1, column: 1 };

/// What the rows of a table ask for.
pub trait Asked {
    /// What is told of what a row gives.
    fn told(&self, alloc: Global, given: &str) -> Result<String, Fail>;
}

/// A row, `what is told~what is given`, with what is told of it where that is something else, or nothing.
fn wrong<A: Asked>(alloc: Global, asked: &A, row: &str) -> Result<String, Fail> {
    let Some((want, given)) = row.split_once('~') else {
        return Ok(format!(in alloc; "no row: {row}")?);
    };
    let got = asked.told(alloc, given)?;
    if got.as_str() == want {
        return Ok(String::new(alloc));
    }
    Ok(format!(in alloc; "{row}: {}", got.as_str())?)
}

/// The first row of a table that is told otherwise, with what is told of it, or nothing.
pub fn wrong_row<A: Asked>(alloc: Global, asked: &A, table: &str) -> Result<String, Fail> {
    for row in table.lines() {
        let wrong = wrong(alloc, asked, row)?;
        if !wrong.is_empty() {
            return Ok(wrong);
        }
    }
    Ok(String::new(alloc))
}

/// A text as an answer.
pub fn answer(alloc: Global, text: &str) -> Result<String, Fail> {
    Ok(String::from_str(alloc, text)?)
}

/// Asserts that this is told. A test that ends in it holds nothing that has to be dropped.
pub fn assert_told(rt: &impl Abort, told: Result<String, Fail>, want: &str) -> Result<(), Fail> {
    let told = told?;
    assert_eq!(rt; told.as_str(), want);
    Ok(())
}

/// The code and the place of what refuses something, `48 2:1`, or `memory` where that is missing.
pub fn told_fault(alloc: Global, fault: &Fault) -> Result<String, Fail> {
    let Fault::Refused(refusal) = fault else {
        return Ok(String::from_str(alloc, "memory")?);
    };
    let code = refusal.code.number();
    let place = refusal.place;
    Ok(format!(in alloc; "{code} {}:{}", place.line, place.column)?)
}

pub fn at(line: u32, column: u32) -> Place {
    Place { line, column }
}

pub fn text(alloc: Global, place: Place, content: &str) -> Result<Node, Fail> {
    Ok(Node::text(place, Text::copy(alloc, content)?))
}

/// A null for `null`, an empty list for `[]`, an empty map for `{}`, and else a text.
pub fn value(alloc: Global, place: Place, content: &str) -> Result<Node, Fail> {
    match content {
        "null" => Ok(Node::null(place)),
        "[]" => Ok(Node::list(place, Vec::new(alloc))),
        "{}" => Ok(Node::map(place, Vec::new(alloc))),
        _ => text(alloc, place, content),
    }
}

/// Adds an entry of this key at this place.
pub fn add(
    alloc: Global,
    entries: &mut Vec<Entry>,
    place: Place,
    key: &str,
    value: Node,
) -> Result<(), Fail> {
    let key = Text::copy(alloc, key)?;
    entries.push(Entry { key, place, value })?;
    Ok(())
}

/// Adds an entry of this key at this place, whose value is this text in another column of its line.
pub fn add_text(
    alloc: Global,
    entries: &mut Vec<Entry>,
    place: Place,
    key: &str,
    column: u32,
    content: &str,
) -> Result<(), Fail> {
    let value = text(alloc, at(place.line, column), content)?;
    add(alloc, entries, place, key, value)
}

/// Adds the line `key: value` of a pair, `key=value`.
fn add_pair(alloc: Global, entries: &mut Vec<Entry>, place: Place, pair: &str) -> Result<(), Fail> {
    let Some((key, content)) = pair.split_once('=') else {
        return Err(Fail::from("no pair"));
    };
    let width = if key.len() < 100 {
        key.len() as u32
    } else {
        100
    };
    let column = place.column.saturating_add(width).saturating_add(2);
    let value = value(alloc, at(place.line, column), content)?;
    add(alloc, entries, place, key, value)
}

/// Adds a line for each pair, with `;` between them, from this place on, and answers the line behind them.
pub fn add_pairs(
    alloc: Global,
    entries: &mut Vec<Entry>,
    place: Place,
    pairs: &str,
) -> Result<u32, Fail> {
    let mut line = place.line;
    if pairs.is_empty() {
        return Ok(line);
    }
    for pair in pairs.split(';') {
        add_pair(alloc, entries, at(line, place.column), pair)?;
        line = line.saturating_add(1);
    }
    Ok(line)
}

/// The map with a line for each pair, from this place on.
pub fn map_of_pairs(alloc: Global, place: Place, pairs: &str) -> Result<Node, Fail> {
    let mut entries = Vec::new(alloc);
    add_pairs(alloc, &mut entries, place, pairs)?;
    Ok(Node::map(place, entries))
}
