//! Looking into the trees of documents.

ghost use Rattle.std.specs.Prelude.{◌≡◌, true, false, [], ◌∷◌, Some, None, IfSome, IfNone};
ghost use Rattle.std.specs.Str.{chars};
ghost use Rattle.sig_base.specs.Texts.{is_ascii};
ghost use Rattle.yaml_tree.specs.View.{node_view, nodes_view, entry_view, entries_view};
ghost use Rattle.yaml_tree.specs.Found.{IsFound};
ghost use Rattle.yaml_tree.specs.Nodes.{is_empty, place_of};
ghost use Rattle.yaml_tree.specs.Nodes as spec;

use crate::tree::{Entry, Kind, Node};
use sig_base::{Place, Text};
use std::slice;

/// The place of a node.
#[tactic(auto, using(crate::proofs::NodeViews::node_place))]
pub fn place_of(node: &Node) -> Place
    ensures { result ≡ place_of (node_view node.now) }
{
    node.place
}

/// The entries of a map, in their order.
pub fn entries_of(node: &Node) -> Option<&[Entry]>
    ensures some { IfSome result (λ es. spec.entries_in (node_view node.now) ≡ entries_view es.now) }
    ensures is_map { IfSome result (λ es. spec.is_map (node_view node.now) ≡ true) }
    ensures none { IfNone result (spec.is_map (node_view node.now) ≡ false) }
{
    match &node.kind {
        Kind::Map(entries) => Some(entries.as_slice()),
        Kind::Null | Kind::Truth(_) | Kind::Whole(_) | Kind::Text(_) | Kind::List(_) => None,
    }
}

/// Whether the node is a map.
pub fn is_map(node: &Node) -> bool
    ensures { result ≡ spec.is_map (node_view node.now) }
{
    entries_of(node).is_some()
}

/// The entries of a map, in their order; none of another node.
#[tactic(auto, using(crate::proofs::FoundValues::no_entries))]
pub fn all_entries(node: &Node) -> &[Entry]
    ensures { spec.entries_in (node_view node.now) ≡ entries_view result.now }
{
    match entries_of(node) {
        Some(entries) => entries,
        None => &[],
    }
}

/// The elements of a list, in their order.
pub fn elements_of(node: &Node) -> Option<&[Node]>
    ensures some { IfSome result (λ ns. spec.parts_in (node_view node.now) ≡ nodes_view ns.now) }
    ensures none { IfNone result (spec.parts_in (node_view node.now) ≡ node_view node.now ∷ []) }
{
    match &node.kind {
        Kind::List(elements) => Some(elements.as_slice()),
        Kind::Null | Kind::Truth(_) | Kind::Whole(_) | Kind::Text(_) | Kind::Map(_) => None,
    }
}

/// The elements of a list, or else the node alone.
pub fn parts_of(node: &Node) -> &[Node]
    ensures { nodes_view result.now ≡ spec.parts_in (node_view node.now) }
{
    match elements_of(node) {
        Some(elements) => elements,
        None => slice::from_ref(node),
    }
}

/// Whether there is no node.
pub fn is_empty(nodes: &[Node]) -> bool
    ensures { result ≡ is_empty (nodes_view nodes.now) }
{
    nodes.is_empty()
}

/// The characters of a text.
pub fn text_of(node: &Node) -> Option<&Text>
    ensures some { IfSome result (λ t. spec.text_in (node_view node.now) ≡ t.now) }
    ensures is_text { IfSome result (λ t. spec.is_text (node_view node.now) ≡ true) }
    ensures none { IfNone result (spec.is_text (node_view node.now) ≡ false) }
{
    match &node.kind {
        Kind::Text(text) => Some(text),
        Kind::Null | Kind::Truth(_) | Kind::Whole(_) | Kind::List(_) | Kind::Map(_) => None,
    }
}

/// Whether the node is a null.
pub fn is_null(node: &Node) -> bool
    ensures { result ≡ spec.is_null (node_view node.now) }
{
    match &node.kind {
        Kind::Null => true,
        Kind::Truth(_) | Kind::Whole(_) | Kind::Text(_) | Kind::List(_) | Kind::Map(_) => false,
    }
}

/// Whether the node is a truth value.
pub fn is_truth(node: &Node) -> bool
    ensures { result ≡ spec.is_truth (node_view node.now) }
{
    match &node.kind {
        Kind::Truth(_) => true,
        Kind::Null | Kind::Whole(_) | Kind::Text(_) | Kind::List(_) | Kind::Map(_) => false,
    }
}

/// Whether the node is neither a list nor a map.
pub fn is_scalar(node: &Node) -> bool
    ensures { result ≡ spec.is_scalar (node_view node.now) }
{
    match &node.kind {
        Kind::Null | Kind::Truth(_) | Kind::Whole(_) | Kind::Text(_) => true,
        Kind::List(_) | Kind::Map(_) => false,
    }
}

/// The value at a key.
pub fn find_value<'a>(entries: &'a [Entry], key: &str) -> Option<&'a Node>
    ensures { IsFound (spec.value_in (chars key.now) (entries_view entries.now)) result }
{
    for entry in entries {
        if entry.key.is(key) {
            return Some(&entry.value);
        }
    }
    None
}

/// The value at a key of a map; none where the node is no map.
#[tactic(auto, using(crate::proofs::FoundValues::found_at))]
pub fn value_at<'a>(node: &'a Node, key: &str) -> Option<&'a Node>
    requires { is_ascii key.now ≡ true }
    ensures { IsFound (spec.value_in key.now (spec.entries_in (node_view node.now))) result }
{
    find_value(all_entries(node), key)
}

/// The entries of the map at a key; none where the key isn't there or no map is at it.
pub fn entries_at<'a>(node: &'a Node, key: &str) -> &'a [Entry]
    requires { is_ascii key.now ≡ true }
    ensures { spec.entries_at key.now (node_view node.now) ≡ entries_view result.now }
{
    match value_at(node, key) {
        Some(value) => all_entries(value),
        None => &[],
    }
}

/// Whether a map has the key.
pub fn has_key(node: &Node, key: &str) -> bool
    requires { is_ascii key.now ≡ true }
    ensures { result ≡ spec.has_key key.now (node_view node.now) }
{
    value_at(node, key).is_some()
}
