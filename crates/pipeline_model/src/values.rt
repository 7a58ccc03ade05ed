//! What the values of pipelines say: texts, numbers and lists of them.

ghost use Rattle.std.specs.Prelude.{◌≡◌, true, map as list_map, IfOk, IfErr};
ghost use Rattle.std.specs.Str.{chars};
ghost use Rattle.sig_base.specs.Texts.{is_ascii};
ghost use Rattle.rule_head.specs.Sources.{source_of};
ghost use Rattle.rule_detections.specs.TestsOf.{truth_text};
ghost use Rattle.yaml_tree.specs.View.{node_view, nodes_view, entry_view, entries_view};
ghost use Rattle.yaml_tree.specs.Nodes as nodes;
ghost use Rattle.pipeline_model.specs.Pipelines as spec;

use crate::items::parts_at;
use crate::pipeline::Var;
use crate::step::{FieldCond, Pair};
use event_schema::decimal;
use pipeline_check::{Listing, listing_at};
use rule_head::LogSource;
use sig_base::{Fault, Sequence, Text, Texts};
use std::alloc::Global;
use yaml_tree::{
    Entry, Kind, Node, copy_text, copy_texts, entries_at, parts_of, text_of, value_at,
};

/// The text at a key, or the empty one.
pub(crate) fn copy_text_or_none(alloc: Global, node: &Node, key: &str) -> Result<Text, Fault>
    requires { is_ascii key.now ≡ true }
    ensures ok { IfOk result (λ t. t ≡ spec.text_or_none key.now (node_view node.now)) }
    ensures err { IfErr result (λ e. e ≡ Fault.Memory) }
{
    match value_at(node, key) {
        Some(value) => copy_text(alloc, value),
        None => Ok(Text::new(alloc)),
    }
}

/// The text at a key.
pub(crate) fn copy_text_at(alloc: Global, node: &Node, key: &str) -> Result<Option<Text>, Fault>
    requires { is_ascii key.now ≡ true }
    ensures ok { IfOk result (λ t. t ≡ nodes.text_at key.now (node_view node.now)) }
    ensures err { IfErr result (λ e. e ≡ Fault.Memory) }
{
    match value_at(node, key) {
        Some(value) => Ok(Some(copy_text(alloc, value)?)),
        None => Ok(None),
    }
}

/// The texts at a key.
pub(crate) fn copy_texts_at(alloc: Global, node: &Node, key: &str) -> Result<Texts, Fault>
    requires { is_ascii key.now ≡ true }
    ensures ok { IfOk result (λ ts. ts ≡ spec.texts_at key.now (node_view node.now)) }
    ensures err { IfErr result (λ e. e ≡ Fault.Memory) }
{
    copy_texts(alloc, parts_at(node, key))
}

fn whole_in(node: &Node) -> i64
    ensures { result ≡ spec.whole_in (node_view node.now) }
{
    match &node.kind {
        Kind::Whole(number) => *number,
        Kind::Null | Kind::Truth(_) | Kind::Text(_) | Kind::List(_) | Kind::Map(_) => 0,
    }
}

/// The number of the priority.
pub(crate) fn priority_of(node: &Node) -> i64
    ensures { result ≡ spec.priority_of (node_view node.now) }
{
    match value_at(node, "priority") {
        Some(value) => whole_in(value),
        None => 0,
    }
}

fn truth_in(node: &Node) -> bool
    ensures { result ≡ spec.truth_in (node_view node.now) }
{
    match &node.kind {
        Kind::Truth(truth) => *truth,
        Kind::Null | Kind::Whole(_) | Kind::Text(_) | Kind::List(_) | Kind::Map(_) => false,
    }
}

/// Whether added items are negated.
pub(crate) fn is_negated(node: &Node) -> bool
    ensures { result ≡ spec.is_negated (node_view node.now) }
{
    match value_at(node, "negated") {
        Some(value) => truth_in(value),
        None => false,
    }
}

fn is_or(node: &Node) -> bool
    ensures { result ≡ spec.is_or (node_view node.now) }
{
    match text_of(node) {
        Some(text) => text.is("or"),
        None => false,
    }
}

/// Whether the conditions at a key are joined by `or`.
pub(crate) fn is_or_at(node: &Node, key: &str) -> bool
    requires { is_ascii key.now ≡ true }
    ensures { result ≡ spec.is_or_at key.now (node_view node.now) }
{
    match value_at(node, key) {
        Some(value) => is_or(value),
        None => false,
    }
}

fn truth_text(value: bool) -> &'static str
    ensures { chars result.now ≡ truth_text value }
{
    if value { "true" } else { "false" }
}

/// What a placeholder may stand for.
fn copy_value(alloc: Global, node: &Node) -> Result<Text, Fault>
    ensures ok { IfOk result (λ t. t ≡ spec.value_text (node_view node.now)) }
    ensures err { IfErr result (λ e. e ≡ Fault.Memory) }
{
    match &node.kind {
        Kind::Text(text) => Text::copy(alloc, text.as_str()),
        Kind::Whole(number) => decimal(alloc, *number),
        Kind::Truth(truth) => Text::copy(alloc, truth_text(*truth)),
        Kind::Null | Kind::List(_) | Kind::Map(_) => Ok(Text::new(alloc)),
    }
}

fn copy_values(alloc: Global, parts: &[Node]) -> Result<Texts, Fault>
    ensures ok { IfOk result (λ ts. ts ≡ list_map spec.value_text (nodes_view parts.now)) }
    ensures err { IfErr result (λ e. e ≡ Fault.Memory) }
{
    let mut texts = Texts::with_capacity(alloc, parts.len())?;
    for part in parts {
        texts.push(copy_value(alloc, part)?)?;
    }
    Ok(texts)
}

fn copy_var(alloc: Global, entry: &Entry) -> Result<Var, Fault>
    ensures ok { IfOk result (λ v. v ≡ spec.var_of (entry_view entry.now)) }
    ensures err { IfErr result (λ e. e ≡ Fault.Memory) }
{
    let name = Text::copy(alloc, entry.key.as_str())?;
    let values = copy_values(alloc, parts_of(&entry.value))?;
    Ok(Var { name, values })
}

/// The variables of a pipeline.
pub(crate) fn copy_vars(alloc: Global, entries: &[Entry]) -> Result<Sequence<Var>, Fault>
    ensures ok { IfOk result (λ vars. vars ≡ list_map spec.var_of (entries_view entries.now)) }
    ensures err { IfErr result (λ e. e ≡ Fault.Memory) }
{
    let mut vars = Sequence::new(alloc);
    for entry in entries {
        vars.push(copy_var(alloc, entry)?)?;
    }
    Ok(vars)
}

fn copy_pair(alloc: Global, entry: &Entry) -> Result<Pair, Fault>
    ensures ok { IfOk result (λ p. p ≡ spec.pair_of (entry_view entry.now)) }
    ensures err { IfErr result (λ e. e ≡ Fault.Memory) }
{
    let from = Text::copy(alloc, entry.key.as_str())?;
    let to = copy_texts(alloc, parts_of(&entry.value))?;
    Ok(Pair { from, to })
}

fn copy_pairs(alloc: Global, entries: &[Entry]) -> Result<Sequence<Pair>, Fault>
    ensures ok { IfOk result (λ pairs. pairs ≡ list_map spec.pair_of (entries_view entries.now)) }
    ensures err { IfErr result (λ e. e ≡ Fault.Memory) }
{
    let mut pairs = Sequence::new(alloc);
    for entry in entries {
        pairs.push(copy_pair(alloc, entry)?)?;
    }
    Ok(pairs)
}

/// The mapping of a step.
pub(crate) fn copy_mapping(alloc: Global, node: &Node) -> Result<Sequence<Pair>, Fault>
    ensures ok { IfOk result (λ pairs. pairs ≡ spec.pairs_at (node_view node.now)) }
    ensures err { IfErr result (λ e. e ≡ Fault.Memory) }
{
    copy_pairs(alloc, entries_at(node, "mapping"))
}

/// The log source that a map gives.
pub(crate) fn copy_source(alloc: Global, node: &Node) -> Result<LogSource, Fault>
    ensures ok { IfOk result (λ s. s ≡ source_of (node_view node.now)) }
    ensures err { IfErr result (λ e. e ≡ Fault.Memory) }
{
    let category = copy_text_at(alloc, node, "category")?;
    let product = copy_text_at(alloc, node, "product")?;
    let service = copy_text_at(alloc, node, "service")?;
    Ok(LogSource {
        category,
        product,
        service,
    })
}

fn copy_all_sources(alloc: Global, parts: &[Node]) -> Result<Sequence<LogSource>, Fault>
    ensures ok { IfOk result (λ all. all ≡ list_map source_of (nodes_view parts.now)) }
    ensures err { IfErr result (λ e. e ≡ Fault.Memory) }
{
    let mut sources = Sequence::new(alloc);
    for part in parts {
        sources.push(copy_source(alloc, part)?)?;
    }
    Ok(sources)
}

/// The conditions of a step on log sources.
pub(crate) fn copy_sources(alloc: Global, node: &Node) -> Result<Sequence<LogSource>, Fault>
    ensures ok { IfOk result (λ all. all ≡ spec.sources_at (node_view node.now)) }
    ensures err { IfErr result (λ e. e ≡ Fault.Memory) }
{
    copy_all_sources(alloc, parts_at(node, "rule_conditions"))
}

fn cond_by(listing: Option<Listing>, names: Texts) -> FieldCond
    ensures { result ≡ spec.cond_by listing names }
{
    match listing {
        Some(Listing::Exclude) => FieldCond::Exclude(names),
        Some(Listing::Include) | None => FieldCond::Include(names),
    }
}

fn copy_cond(alloc: Global, node: &Node) -> Result<FieldCond, Fault>
    ensures ok { IfOk result (λ c. c ≡ spec.cond_of (node_view node.now)) }
    ensures err { IfErr result (λ e. e ≡ Fault.Memory) }
{
    let names = copy_texts_at(alloc, node, "fields")?;
    Ok(cond_by(listing_at(node), names))
}

fn copy_all_conds(alloc: Global, parts: &[Node]) -> Result<Sequence<FieldCond>, Fault>
    ensures ok { IfOk result (λ all. all ≡ list_map spec.cond_of (nodes_view parts.now)) }
    ensures err { IfErr result (λ e. e ≡ Fault.Memory) }
{
    let mut conds = Sequence::new(alloc);
    for part in parts {
        conds.push(copy_cond(alloc, part)?)?;
    }
    Ok(conds)
}

/// The conditions of a step on fields.
pub(crate) fn copy_conds(alloc: Global, node: &Node) -> Result<Sequence<FieldCond>, Fault>
    ensures ok { IfOk result (λ all. all ≡ spec.conds_at (node_view node.now)) }
    ensures err { IfErr result (λ e. e ≡ Fault.Memory) }
{
    copy_all_conds(alloc, parts_at(node, "field_name_conditions"))
}
