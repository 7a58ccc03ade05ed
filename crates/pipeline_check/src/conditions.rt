//! The conditions of steps.

ghost use Rattle.std.specs.Prelude.{◌≡◌, map as list_map};
ghost use Rattle.yaml_tree.specs.View.{node_view, nodes_view, entry_view, entries_view};
ghost use Rattle.pipeline_check.specs.Causes.{least};
ghost use Rattle.pipeline_check.specs.Shapes as spec;

use crate::causes::{must, refuse, sooner};
use crate::shapes::{check_list, check_map, check_names, check_text};
use crate::words::{Listing, is_source_key, listing_of};
use sig_base::{Code, Place, Refusal, Text};
use yaml_tree::{Entry, Node, all_entries, has_key, is_map, parts_of, place_of, text_of, value_at};

/// The type of a condition: it's a text, and one that is known.
fn check_type_in(known: bool, node: &Node) -> Option<Refusal>
    ensures { result ≡ spec.type_refusal known (node_view node.now) }
{
    if text_of(node).is_none() {
        return refuse(Code::PIPELINE_SHAPE, place_of(node));
    }
    must(Code::UNKNOWN_CONDITION, place_of(node), known)
}

/// The type of a condition: it's there, a text, and one that is known.
fn check_type(known: bool, node: &Node) -> Option<Refusal>
    ensures { result ≡ spec.typed_refusal known (node_view node.now) }
{
    match value_at(node, "type") {
        Some(value) => check_type_in(known, value),
        None => refuse(Code::PIPELINE_SHAPE, place_of(node)),
    }
}

fn is_logsource(node: &Node) -> bool
    ensures { result ≡ spec.is_logsource (node_view node.now) }
{
    match text_of(node) {
        Some(text) => text.is("logsource"),
        None => false,
    }
}

/// Whether a condition is on log sources.
fn names_logsource(node: &Node) -> bool
    ensures { result ≡ spec.names_logsource (node_view node.now) }
{
    match value_at(node, "type") {
        Some(value) => is_logsource(value),
        None => false,
    }
}

/// What stands at a key of a condition on log sources.
fn check_source_keyed(known: bool, key: &Text, place: Place, value: &Node) -> Option<Refusal>
    ensures { result ≡ spec.source_keyed known key.now place (node_view value.now) }
{
    if key.is("type") {
        return None;
    }
    if known && is_source_key(key) {
        return check_text(value);
    }
    refuse(Code::UNKNOWN_CONDITION, place)
}

fn check_source_entry(known: bool, entry: &Entry) -> Option<Refusal>
    ensures { result ≡ spec.source_entry known (entry_view entry.now) }
{
    check_source_keyed(known, &entry.key, entry.place, &entry.value)
}

fn check_source_entries(known: bool, entries: &[Entry]) -> Option<Refusal>
    ensures { result ≡ least (list_map (spec.source_entry known) (entries_view entries.now)) }
{
    let mut found = None;
    for entry in entries {
        found = sooner(found, check_source_entry(known, entry));
    }
    found
}

fn check_source_known(known: bool, node: &Node) -> Option<Refusal>
    ensures { result ≡ spec.source_known known (node_view node.now) }
{
    let typed = sooner(check_map(node), check_type(known, node));
    sooner(typed, check_source_entries(known, all_entries(node)))
}

fn check_source(node: &Node) -> Option<Refusal>
    ensures { result ≡ spec.source_refusal (node_view node.now) }
{
    check_source_known(names_logsource(node), node)
}

fn check_all_sources(parts: &[Node]) -> Option<Refusal>
    ensures { result ≡ least (list_map spec.source_refusal (nodes_view parts.now)) }
{
    let mut found = None;
    for part in parts {
        found = sooner(found, check_source(part));
    }
    found
}

/// The conditions on log sources.
pub fn check_sources(node: &Node) -> Option<Refusal>
    ensures { result ≡ spec.sources_refusal (node_view node.now) }
{
    sooner(check_list(node), check_all_sources(parts_of(node)))
}

fn listing_in(node: &Node) -> Option<Listing>
    ensures { result ≡ spec.listing_in (node_view node.now) }
{
    match text_of(node) {
        Some(text) => listing_of(text),
        None => None,
    }
}

/// What the names of a condition on fields are.
pub fn listing_at(node: &Node) -> Option<Listing>
    ensures { result ≡ spec.listing_at (node_view node.now) }
{
    match value_at(node, "type") {
        Some(value) => listing_in(value),
        None => None,
    }
}

/// What stands at a key of a condition on fields.
fn check_field_keyed(known: bool, key: &Text, place: Place, value: &Node) -> Option<Refusal>
    ensures { result ≡ spec.field_keyed known key.now place (node_view value.now) }
{
    if key.is("type") {
        return None;
    }
    if known && key.is("fields") {
        return check_names(value);
    }
    refuse(Code::UNKNOWN_CONDITION, place)
}

fn check_field_entry(known: bool, entry: &Entry) -> Option<Refusal>
    ensures { result ≡ spec.field_entry known (entry_view entry.now) }
{
    check_field_keyed(known, &entry.key, entry.place, &entry.value)
}

fn check_field_entries(known: bool, entries: &[Entry]) -> Option<Refusal>
    ensures { result ≡ least (list_map (spec.field_entry known) (entries_view entries.now)) }
{
    let mut found = None;
    for entry in entries {
        found = sooner(found, check_field_entry(known, entry));
    }
    found
}

/// A map, which has names where its type is known.
fn check_field_keys(known: bool, node: &Node) -> Option<Refusal>
    ensures { result ≡ spec.field_keys_refusal known (node_view node.now) }
{
    must(
        Code::PIPELINE_SHAPE,
        place_of(node),
        is_map(node) && (!known || has_key(node, "fields")),
    )
}

fn check_field_known(known: bool, node: &Node) -> Option<Refusal>
    ensures { result ≡ spec.field_known known (node_view node.now) }
{
    let typed = sooner(check_field_keys(known, node), check_type(known, node));
    sooner(typed, check_field_entries(known, all_entries(node)))
}

fn check_field(node: &Node) -> Option<Refusal>
    ensures { result ≡ spec.field_refusal (node_view node.now) }
{
    check_field_known(listing_at(node).is_some(), node)
}

fn check_all_fields(parts: &[Node]) -> Option<Refusal>
    ensures { result ≡ least (list_map spec.field_refusal (nodes_view parts.now)) }
{
    let mut found = None;
    for part in parts {
        found = sooner(found, check_field(part));
    }
    found
}

/// The conditions on fields.
pub fn check_fields(node: &Node) -> Option<Refusal>
    ensures { result ≡ spec.fields_refusal (node_view node.now) }
{
    sooner(check_list(node), check_all_fields(parts_of(node)))
}
