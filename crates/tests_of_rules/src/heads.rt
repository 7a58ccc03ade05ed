//! What a head keeps of its document's other keys, which no command shows.

use crate::tables::{TOP, assert_told, map_of_pairs};
use rule_head::Head;
use sig_base::Text;
use std::alloc::Global;
use std::test::Fail;
use yaml_tree::Node;

fn written(text: &Option<Text>) -> &str {
    match text {
        Some(text) => text.as_str(),
        None => "-",
    }
}

/// What a head says, and the keys of the entries that it keeps.
fn said(alloc: Global, head: &Head) -> Result<String, Fail> {
    let title = head.title.as_str();
    let id = written(&head.id);
    let name = written(&head.name);
    let place = head.place;
    let mut text = format!(in alloc; "{title} {id} {name} {}:{}", place.line, place.column)?;
    for entry in &head.rest {
        text.push_str(" ")?;
        text.push_str(entry.key.as_str())?;
    }
    Ok(text)
}

fn bare_said(alloc: Global, node: &Node) -> Result<String, Fail> {
    let bare = Head::read_bare(alloc, node)?;
    said(alloc, &bare)
}

fn copy_said(alloc: Global, node: &Node) -> Result<String, Fail> {
    let copy = Head::read(alloc, node)?.copy(alloc)?;
    said(alloc, &copy)
}

/// What the head of a map says that is read bare, and then what the copy of the whole one does.
fn said_twice(alloc: Global) -> Result<String, Fail> {
    let node = map_of_pairs(alloc, TOP, "author=a;title=t;name=n;tags=[]")?;
    let bare = bare_said(alloc, &node)?;
    let copy = copy_said(alloc, &node)?;
    Ok(format!(in alloc; "{bare}, {copy}")?)
}

#[test]
fn heads_keep_other_entries(rt: HostRuntime) -> Result<(), Fail> {
    assert_told(
        &rt,
        said_twice(rt.alloc()),
        "t - n 1:1, t - n 1:1 author tags",
    )
}
