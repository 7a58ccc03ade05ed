//! Copies of trees.

use crate::tables::assert_told;
use sig_base::{Place, Text};
use std::alloc::Global;
use std::test::Fail;
use yaml_tree::{Entry, Node};

const FIRST: Place = Place { line: 2, column: 3 };

const SHOWN: &str =
    "Node { place: Place { line: 2, column: 3 }, kind: Map([Entry { key: Text { inner: \"a\" }, place: Place { line: 2, column: 3 }, value: Node { place: Place { line: 2, column: 3 }, kind: List([Node { place: Place { line: 2, column: 3 }, kind: Text(Text { inner: \"b\" }) }]) } }]) }";

/// A map of a list of a text, copied.
fn copy_shown(alloc: Global) -> Result<String, Fail> {
    let mut elements = Vec::new(alloc);
    elements.push(Node::text(FIRST, Text::copy(alloc, "b")?))?;
    let mut entries = Vec::new(alloc);
    entries.push(Entry {
        key: Text::copy(alloc, "a")?,
        place: FIRST,
        value: Node::list(FIRST, elements),
    })?;
    let copied = Node::map(FIRST, entries).copy(alloc)?;
    Ok(format!(in alloc; "{copied:?}")?)
}

#[test]
fn copies_a_map(rt: HostRuntime) -> Result<(), Fail> {
    assert_told(&rt, copy_shown(rt.alloc()), SHOWN)
}
