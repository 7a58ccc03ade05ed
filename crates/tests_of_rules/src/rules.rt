//! What a rule keeps of its document, which no command shows. Pairs are `key=value`, with `;` between them.

use crate::tables::{TOP, add, add_pairs, assert_told, at};
use rule_model::Rule;
use sig_base::Limits;
use std::alloc::Global;
use std::test::Fail;
use yaml_tree::{Entry, Node};

/// Adds the map at a key of this line, each pair on a line of its own two columns further, and answers the line behind it.
fn add_map(
    alloc: Global,
    entries: &mut Vec<Entry>,
    line: u32,
    key: &str,
    pairs: &str,
) -> Result<u32, Fail> {
    let mut inner = Vec::new(alloc);
    let first = at(line.saturating_add(1), 3);
    let next = add_pairs(alloc, &mut inner, first, pairs)?;
    add(alloc, entries, at(line, 1), key, Node::map(first, inner))?;
    Ok(next)
}

/// The lines of the head, `logsource:` with its lines, and `detection:` with its lines.
fn document(alloc: Global, head: &str, source: &str, detection: &str) -> Result<Node, Fail> {
    let mut entries = Vec::new(alloc);
    let line = add_pairs(alloc, &mut entries, TOP, head)?;
    let line = add_map(alloc, &mut entries, line, "logsource", source)?;
    add_map(alloc, &mut entries, line, "detection", detection)?;
    Ok(Node::map(TOP, entries))
}

/// The title, how many entries the head keeps, the product, and how many detections and conditions there are.
fn said(alloc: Global, rule: &Rule) -> Result<String, Fail> {
    let title = rule.head.title.as_str();
    let kept = rule.head.rest.len();
    let product = match &rule.source.product {
        Some(product) => product.as_str(),
        None => "-",
    };
    let detections = rule.detections.as_slice().len();
    let conditions = rule.conditions.len();
    Ok(format!(in alloc; "{title} {kept} {product} {detections} {conditions}")?)
}

fn bare_said(alloc: Global, node: &Node) -> Result<String, Fail> {
    let bare = Rule::read_bare(alloc, &Limits::standard(), [].as_slice(), node)?;
    said(alloc, &bare)
}

fn copy_said(alloc: Global, node: &Node) -> Result<String, Fail> {
    let copy = Rule::read(alloc, &Limits::standard(), [].as_slice(), node)?.copy(alloc)?;
    said(alloc, &copy)
}

/// What a document's rule says that is read bare, and then what the copy of the whole one does.
fn said_twice(alloc: Global) -> Result<String, Fail> {
    let node = document(
        alloc,
        "author=a;title=t;tags=[]",
        "product=p",
        "s=x;condition=not s;r=y",
    )?;
    let bare = bare_said(alloc, &node)?;
    let copy = copy_said(alloc, &node)?;
    Ok(format!(in alloc; "{bare}, {copy}")?)
}

#[test]
fn rules_are_read_and_copied(rt: HostRuntime) -> Result<(), Fail> {
    assert_told(&rt, said_twice(rt.alloc()), "t 0 p 2 1, t 4 p 2 1")
}
