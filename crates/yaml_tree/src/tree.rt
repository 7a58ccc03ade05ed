//! A document's tree (YAML 1.2, 3.2.1), or why the document has none.

ghost use Rattle.std.specs.Prelude.{◌≡◌, ◌++◌, ◌∷◌, [], IfOk, IfErr};
ghost use Rattle.yaml_tree.specs.Tree.{null, truth, whole, text, scalar, list, map};
ghost use Rattle.yaml_tree.specs.View.{place_view, node_view, kind_view, entry_view, nodes_view, entries_view, elements_of, members_of};

use sig_base::{Fault, Place, Refusal, Text};
use std::alloc::Global;

/// What a node is.
#[derive(Drop, Debug)]
#[cycle(node)]
pub enum Kind {
    Null,
    Truth(bool),
    Whole(i64),
    Text(Text),
    List(Vec<Node>),
    Map(Vec<Entry>),
}

/// An entry of a map. Its place is its key's first character.
#[derive(Drop, Debug)]
#[cycle(node)]
pub struct Entry {
    pub key: Text,
    pub place: Place,
    pub value: Node,
}

/// A node. Its place is its first character; a map's is its first key's, and a null without text
/// has that of its key or dash.
#[derive(Drop, Debug)]
#[cycle(node)]
pub struct Node {
    pub place: Place,
    pub kind: Kind,
}

/// What is read of one document.
#[derive(Drop, Debug)]
pub enum Document {
    Tree(Node),
    Refused(Refusal),
}

impl Node {
    /// A null at a place.
    pub fn null(place: Place) -> Node
        ensures { node_view result ≡ scalar (place_view place) null }
    {
        Node {
            place,
            kind: Kind::Null,
        }
    }

    /// A text at a place.
    pub fn text(place: Place, content: Text) -> Node
        ensures { node_view result ≡ scalar (place_view place) (text content) }
    {
        Node {
            place,
            kind: Kind::Text(content),
        }
    }

    /// A list at the place of its dash or bracket.
    pub fn list(place: Place, elements: Vec<Node>) -> Node
        ensures { node_view result ≡ list (place_view place) (elements_of (nodes_view elements.items)) }
    {
        Node {
            place,
            kind: Kind::List(elements),
        }
    }

    /// A map at the place of its first key, or of its bracket.
    pub fn map(place: Place, entries: Vec<Entry>) -> Node
        ensures { node_view result ≡ map (place_view place) (members_of (entries_view entries.items)) }
    {
        Node {
            place,
            kind: Kind::Map(entries),
        }
    }

    /// An equal node; only want of memory is answered.
    #[cycle(copy)]
    pub fn copy(&self, alloc: Global) -> Result<Node, Fault>
        ensures ok { IfOk result (λ n. node_view n ≡ node_view self.now) }
        ensures err { IfErr result (λ e. e ≡ Fault.Memory) }
    {
        Ok(Node {
            place: self.place,
            kind: self.kind.copy(alloc)?,
        })
    }
}

impl Kind {
    /// An equal kind; only want of memory is answered.
    #[cycle(copy)]
    pub fn copy(&self, alloc: Global) -> Result<Kind, Fault>
        ensures ok { IfOk result (λ k. kind_view k ≡ kind_view self.now) }
        ensures err { IfErr result (λ e. e ≡ Fault.Memory) }
    {
        match self {
            Kind::Null => Ok(Kind::Null),
            Kind::Truth(value) => Ok(Kind::Truth(*value)),
            Kind::Whole(value) => Ok(Kind::Whole(*value)),
            Kind::Text(content) => Ok(Kind::Text(Text::copy(alloc, content.as_str())?)),
            Kind::List(elements) => Ok(Kind::List(copy_nodes(alloc, elements)?)),
            Kind::Map(entries) => Ok(Kind::Map(copy_entries(alloc, entries)?)),
        }
    }
}

impl Entry {
    /// An equal entry; only want of memory is answered.
    #[cycle(copy)]
    pub fn copy(&self, alloc: Global) -> Result<Entry, Fault>
        ensures ok { IfOk result (λ e. entry_view e ≡ entry_view self.now) }
        ensures err { IfErr result (λ e. e ≡ Fault.Memory) }
    {
        Ok(Entry {
            key: Text::copy(alloc, self.key.as_str())?,
            place: self.place,
            value: self.value.copy(alloc)?,
        })
    }
}

#[cycle(copy)]
fn copy_nodes(alloc: Global, nodes: &[Node]) -> Result<Vec<Node>, Fault>
    ensures ok { IfOk result (λ ns. nodes_view ns.items ≡ nodes_view nodes.now) }
    ensures err { IfErr result (λ e. e ≡ Fault.Memory) }
{
    let mut copies = Vec::new(alloc);
    for node in nodes {
        copies.push(node.copy(alloc)?)?;
    }
    Ok(copies)
}

#[cycle(copy)]
fn copy_entries(alloc: Global, entries: &[Entry]) -> Result<Vec<Entry>, Fault>
    ensures ok { IfOk result (λ es. entries_view es.items ≡ entries_view entries.now) }
    ensures err { IfErr result (λ e. e ≡ Fault.Memory) }
{
    let mut copies = Vec::new(alloc);
    for entry in entries {
        copies.push(entry.copy(alloc)?)?;
    }
    Ok(copies)
}
