//! Which values stand in pipelines: texts and lists of them, mappings, variables and conditions.

ghost use Rattle.std.specs.Prelude.{◌≡◌, map as list_map};
ghost use Rattle.std.specs.Str.{chars};
ghost use Rattle.yaml_tree.specs.View.{node_view, nodes_view, entry_view, entries_view};
ghost use Rattle.pipeline_check.specs.Causes.{least};
ghost use Rattle.pipeline_check.specs.Shapes as spec;

use crate::causes::{must, sooner};
use sig_base::{Code, Refusal};
use yaml_tree::{
    Entry, Kind, Node, all_entries, is_empty, is_map, is_truth, parts_of, place_of, text_of,
};

fn is_list(node: &Node) -> bool
    ensures { result ≡ spec.is_list (node_view node.now) }
{
    match &node.kind {
        Kind::List(_) => true,
        Kind::Null | Kind::Truth(_) | Kind::Whole(_) | Kind::Text(_) | Kind::Map(_) => false,
    }
}

fn is_whole(node: &Node) -> bool
    ensures { result ≡ spec.is_whole (node_view node.now) }
{
    match &node.kind {
        Kind::Whole(_) => true,
        Kind::Null | Kind::Truth(_) | Kind::Text(_) | Kind::List(_) | Kind::Map(_) => false,
    }
}

/// Whether some character is U+0000.
fn has_nul(text: &str) -> bool
    ensures { result ≡ spec.has_nul (chars text.now) }
{
    text.chars().any(|c| c == '\0')
}

fn is_value(node: &Node) -> bool
    ensures { result ≡ spec.is_value (node_view node.now) }
{
    match &node.kind {
        Kind::Text(text) => !has_nul(text.as_str()),
        Kind::Truth(_) | Kind::Whole(_) => true,
        Kind::Null | Kind::List(_) | Kind::Map(_) => false,
    }
}

pub fn check_list(node: &Node) -> Option<Refusal>
    ensures { result ≡ spec.list_refusal (node_view node.now) }
{
    must(Code::PIPELINE_SHAPE, place_of(node), is_list(node))
}

pub fn check_text(node: &Node) -> Option<Refusal>
    ensures { result ≡ spec.text_refusal (node_view node.now) }
{
    must(
        Code::PIPELINE_SHAPE,
        place_of(node),
        text_of(node).is_some(),
    )
}

pub fn check_truth(node: &Node) -> Option<Refusal>
    ensures { result ≡ spec.truth_refusal (node_view node.now) }
{
    must(Code::PIPELINE_SHAPE, place_of(node), is_truth(node))
}

pub fn check_whole(node: &Node) -> Option<Refusal>
    ensures { result ≡ spec.whole_refusal (node_view node.now) }
{
    must(Code::PIPELINE_SHAPE, place_of(node), is_whole(node))
}

fn is_op(node: &Node) -> bool
    ensures { result ≡ spec.is_op (node_view node.now) }
{
    match text_of(node) {
        Some(text) => text.is("and") || text.is("or"),
        None => false,
    }
}

/// How conditions are joined.
pub fn check_op(node: &Node) -> Option<Refusal>
    ensures { result ≡ spec.op_refusal (node_view node.now) }
{
    must(Code::PIPELINE_SHAPE, place_of(node), is_op(node))
}

fn check_texts(parts: &[Node]) -> Option<Refusal>
    ensures { result ≡ least (list_map spec.text_refusal (nodes_view parts.now)) }
{
    let mut found = None;
    for part in parts {
        found = sooner(found, check_text(part));
    }
    found
}

/// A list of texts.
pub fn check_names(node: &Node) -> Option<Refusal>
    ensures { result ≡ spec.names_refusal (node_view node.now) }
{
    sooner(check_list(node), check_texts(parts_of(node)))
}

/// A target of a mapping, which may be read as a pattern.
fn is_target(patterns: bool, node: &Node) -> bool
    ensures { result ≡ spec.is_target patterns (node_view node.now) }
{
    match text_of(node) {
        Some(text) => !patterns || !has_nul(text.as_str()),
        None => false,
    }
}

fn check_target(patterns: bool, node: &Node) -> Option<Refusal>
    ensures { result ≡ spec.target_refusal patterns (node_view node.now) }
{
    must(
        Code::PIPELINE_SHAPE,
        place_of(node),
        is_target(patterns, node),
    )
}

fn check_all_targets(patterns: bool, parts: &[Node]) -> Option<Refusal>
    ensures { result ≡ least (list_map (spec.target_refusal patterns) (nodes_view parts.now)) }
{
    let mut found = None;
    for part in parts {
        found = sooner(found, check_target(patterns, part));
    }
    found
}

/// A value, or a list of them that isn't empty.
fn check_some(node: &Node) -> Option<Refusal>
    ensures { result ≡ spec.some_refusal (node_view node.now) }
{
    must(
        Code::PIPELINE_SHAPE,
        place_of(node),
        !is_empty(parts_of(node)),
    )
}

fn check_targets(patterns: bool, node: &Node) -> Option<Refusal>
    ensures { result ≡ spec.targets_refusal patterns (node_view node.now) }
{
    sooner(
        check_some(node),
        check_all_targets(patterns, parts_of(node)),
    )
}

fn check_mapped(patterns: bool, entry: &Entry) -> Option<Refusal>
    ensures { result ≡ spec.mapped_refusal patterns (entry_view entry.now) }
{
    check_targets(patterns, &entry.value)
}

fn check_all_mapped(patterns: bool, entries: &[Entry]) -> Option<Refusal>
    ensures { result ≡ least (list_map (spec.mapped_refusal patterns) (entries_view entries.now)) }
{
    let mut found = None;
    for entry in entries {
        found = sooner(found, check_mapped(patterns, entry));
    }
    found
}

pub fn check_map(node: &Node) -> Option<Refusal>
    ensures { result ≡ spec.map_refusal (node_view node.now) }
{
    must(Code::PIPELINE_SHAPE, place_of(node), is_map(node))
}

/// A mapping, whose targets may be read as patterns.
pub fn check_mapping(patterns: bool, node: &Node) -> Option<Refusal>
    ensures { result ≡ spec.mapping_refusal patterns (node_view node.now) }
{
    sooner(
        check_map(node),
        check_all_mapped(patterns, all_entries(node)),
    )
}

fn check_value(node: &Node) -> Option<Refusal>
    ensures { result ≡ spec.value_refusal (node_view node.now) }
{
    must(Code::PIPELINE_SHAPE, place_of(node), is_value(node))
}

fn check_all_values(parts: &[Node]) -> Option<Refusal>
    ensures { result ≡ least (list_map spec.value_refusal (nodes_view parts.now)) }
{
    let mut found = None;
    for part in parts {
        found = sooner(found, check_value(part));
    }
    found
}

fn check_values(node: &Node) -> Option<Refusal>
    ensures { result ≡ spec.values_refusal (node_view node.now) }
{
    sooner(check_some(node), check_all_values(parts_of(node)))
}

fn check_var(entry: &Entry) -> Option<Refusal>
    ensures { result ≡ spec.var_refusal (entry_view entry.now) }
{
    check_values(&entry.value)
}

fn check_all_vars(entries: &[Entry]) -> Option<Refusal>
    ensures { result ≡ least (list_map spec.var_refusal (entries_view entries.now)) }
{
    let mut found = None;
    for entry in entries {
        found = sooner(found, check_var(entry));
    }
    found
}

/// The variables.
pub fn check_vars(node: &Node) -> Option<Refusal>
    ensures { result ≡ spec.vars_refusal (node_view node.now) }
{
    sooner(check_map(node), check_all_vars(all_entries(node)))
}
