//! Why a document is no correlation.

ghost use Rattle.std.specs.Prelude.{◌≡◌, ◌∷◌, [], map as list_map, Some, codes, take, drop};
ghost use Rattle.std.specs.List.{list_any};
ghost use Rattle.sig_base.specs.Judged.{Judged, first};
ghost use Rattle.yaml_tree.specs.View.{node_view, nodes_view, entry_view, entries_view};
ghost use Rattle.correlation_read.specs.Words as words;
ghost use Rattle.correlation_read.specs.Timespans as timespans;
ghost use Rattle.correlation_read.specs.Checks as spec;
ghost use Rattle.correlation_read.specs.Correlations.{IsChecked};
ghost use Rattle.yaml_tree.specs.Nodes as nodes;

use crate::timespan::span_of;
use crate::words::{counts, counts_values, kind_of, op_of};
use correlation_windows::CorrelationKind;
use sig_base::{Code, Fault, Place, Text, must, refused};
use yaml_tree::{
    Entry, Kind, Node, all_entries, has_key, is_map, is_truth, parts_of, place_of, text_of,
    value_at,
};

/// What is known of a correlation that isn't refused.
#[derive(Clone, Copy)]
pub(crate) struct Checked {
    pub(crate) kind: CorrelationKind,
    pub(crate) span: i128,
}

fn natural(number: &i64) -> Option<u64>
    ensures { result ≡ spec.natural number.now }
{
    if *number < 0 {
        return None;
    }
    Some(*number as u64)
}

/// The number that a node is, if it's one from 0 on.
pub(crate) fn number_in(node: &Node) -> Option<u64>
    ensures { result ≡ spec.number_in (node_view node.now) }
{
    match &node.kind {
        Kind::Whole(number) => natural(number),
        Kind::Null | Kind::Truth(_) | Kind::Text(_) | Kind::List(_) | Kind::Map(_) => None,
    }
}

/// The type that a value of `type` names.
fn kind_in(node: &Node) -> Option<CorrelationKind>
    ensures { result ≡ words.kind_of (nodes.text_in (node_view node.now)) }
{
    match text_of(node) {
        Some(text) => kind_of(text),
        None => None,
    }
}

/// The type of a correlation.
fn kind_at(node: &Node) -> Option<CorrelationKind>
    ensures { result ≡ spec.kind_at (node_view node.now) }
{
    match value_at(node, "type") {
        Some(value) => kind_in(value),
        None => None,
    }
}

/// The nanoseconds of a value of `timespan`.
fn span_in(node: &Node) -> Option<i128>
    ensures { result ≡ timespans.span_of (nodes.text_in (node_view node.now)) }
{
    match text_of(node) {
        Some(text) => span_of(text),
        None => None,
    }
}

/// The timespan of a correlation.
fn span_at(node: &Node) -> Option<i128>
    ensures { result ≡ spec.span_at (node_view node.now) }
{
    match value_at(node, "timespan") {
        Some(value) => span_in(value),
        None => None,
    }
}

fn check_text(node: &Node) -> Result<(), Fault>
    ensures { Judged (λ done. Unit {0}) (spec.text_refusal (node_view node.now)) result }
{
    must(
        Code::CORRELATION_SHAPE,
        place_of(node),
        text_of(node).is_some(),
    )
}

fn check_texts(parts: &[Node]) -> Result<(), Fault>
    ensures { Judged (λ done. Unit {0}) (first (list_map spec.text_refusal (nodes_view parts.now))) result }
{
    for part in parts {
        check_text(part)?;
    }
    Ok(())
}

fn has_text(node: &Node, text: &Text) -> bool
    ensures { result ≡ spec.has_text text.now (node_view node.now) }
{
    match text_of(node) {
        Some(other) => other.equals(text),
        None => false,
    }
}

fn have_text(parts: &[Node], text: &Text) -> bool
    ensures { result ≡ list_any (λ n. spec.has_text text.now (node_view n)) parts.now }
{
    parts.iter().any(|part| has_text(part, text))
}

/// Whether a node is a text that none of those before it is.
#[tactic(auto, using(crate::proofs::Entered::any_viewed))]
fn is_fresh(before: &[Node], node: &Node) -> bool
    ensures { result ≡ spec.is_fresh (nodes_view before.now) (node_view node.now) }
{
    match text_of(node) {
        Some(text) => !have_text(before, text),
        None => false,
    }
}

fn check_fresh(before: &[Node], node: &Node) -> Result<(), Fault>
    ensures { Judged (λ done. Unit {0}) (spec.fresh_refusal (nodes_view before.now) (node_view node.now)) result }
{
    must(
        Code::CORRELATION_SHAPE,
        place_of(node),
        is_fresh(before, node),
    )
}

fn check_repeats(parts: &[Node]) -> Result<(), Fault>
    ensures { Judged (λ done. Unit {0}) (spec.repeat_refusal [] (nodes_view parts.now)) result }
{
    for (at, part) in parts.iter().enumerate() {
        check_fresh(&parts[..at], part)?;
    }
    Ok(())
}

fn check_rules(node: &Node) -> Result<(), Fault>
    ensures { Judged (λ done. Unit {0}) (spec.rules_refusal (node_view node.now)) result }
{
    let parts = parts_of(node);
    let count = parts.len();
    must(
        Code::CORRELATION_SHAPE,
        place_of(node),
        1 <= count && count <= 64,
    )?;
    check_repeats(parts)
}

/// What stands in a condition at a key.
fn check_tested(kind: CorrelationKind, key: &Text, place: Place, value: &Node) -> Result<(), Fault>
    ensures { Judged (λ done. Unit {0}) (spec.tested_refusal kind key.now place (node_view value.now)) result }
{
    if op_of(key).is_some() {
        return must(
            Code::CORRELATION_SHAPE,
            place_of(value),
            number_in(value).is_some(),
        );
    }
    if counts_values(kind) && key.is("field") {
        return check_text(value);
    }
    Err(refused(Code::CORRELATION_SHAPE, place))
}

fn check_test(kind: CorrelationKind, entry: &Entry) -> Result<(), Fault>
    ensures { Judged (λ done. Unit {0}) (spec.test_refusal kind (entry_view entry.now)) result }
{
    check_tested(kind, &entry.key, entry.place, &entry.value)
}

fn check_tests(kind: CorrelationKind, entries: &[Entry]) -> Result<(), Fault>
    ensures { Judged (λ done. Unit {0}) (first (list_map (spec.test_refusal kind) (entries_view entries.now))) result }
{
    for entry in entries {
        check_test(kind, entry)?;
    }
    Ok(())
}

fn compares(entry: &Entry) -> bool
    ensures { result ≡ spec.compares (entry_view entry.now) }
{
    op_of(&entry.key).is_some()
}

fn has_comparison(entries: &[Entry]) -> bool
    ensures { result ≡ list_any (λ e. spec.compares (entry_view e)) entries.now }
{
    entries.iter().any(compares)
}

#[tactic(auto, using(crate::proofs::Entered::any_viewed))]
fn check_condition(kind: CorrelationKind, node: &Node) -> Result<(), Fault>
    ensures { Judged (λ done. Unit {0}) (spec.condition_refusal kind (node_view node.now)) result }
{
    let place = place_of(node);
    let entries = all_entries(node);
    must(Code::CORRELATION_SHAPE, place, is_map(node))?;
    must(Code::CORRELATION_SHAPE, place, has_comparison(entries))?;
    let has_field = !counts_values(kind) || has_key(node, "field");
    must(Code::CORRELATION_SHAPE, place, has_field)?;
    check_tests(kind, entries)
}

/// What stands at the key `condition`, which has this place.
fn check_conditioned(kind: Option<CorrelationKind>, place: Place, node: &Node) -> Result<(), Fault>
    ensures { Judged (λ done. Unit {0}) (spec.conditioned_refusal kind place (node_view node.now)) result }
{
    let Some(kind) = kind else {
        return Ok(());
    };
    if counts(kind) {
        return check_condition(kind, node);
    }
    Err(refused(Code::CORRELATION_SHAPE, place))
}

fn check_field(entry: &Entry) -> Result<(), Fault>
    ensures { Judged (λ done. Unit {0}) (spec.field_refusal (entry_view entry.now)) result }
{
    check_text(&entry.value)
}

fn check_all_fields(entries: &[Entry]) -> Result<(), Fault>
    ensures { Judged (λ done. Unit {0}) (first (list_map spec.field_refusal (entries_view entries.now))) result }
{
    for entry in entries {
        check_field(entry)?;
    }
    Ok(())
}

fn check_fields(node: &Node) -> Result<(), Fault>
    ensures { Judged (λ done. Unit {0}) (spec.fields_refusal (node_view node.now)) result }
{
    must(Code::CORRELATION_SHAPE, place_of(node), is_map(node))?;
    check_all_fields(all_entries(node))
}

fn check_alias(entry: &Entry) -> Result<(), Fault>
    ensures { Judged (λ done. Unit {0}) (spec.alias_refusal (entry_view entry.now)) result }
{
    check_fields(&entry.value)
}

fn check_all_aliases(entries: &[Entry]) -> Result<(), Fault>
    ensures { Judged (λ done. Unit {0}) (first (list_map spec.alias_refusal (entries_view entries.now))) result }
{
    for entry in entries {
        check_alias(entry)?;
    }
    Ok(())
}

fn check_aliases(node: &Node) -> Result<(), Fault>
    ensures { Judged (λ done. Unit {0}) (spec.aliases_refusal (node_view node.now)) result }
{
    must(Code::CORRELATION_SHAPE, place_of(node), is_map(node))?;
    check_all_aliases(all_entries(node))
}

/// What stands in a correlation at a key.
fn check_keyed(
    kind: Option<CorrelationKind>,
    key: &Text,
    place: Place,
    value: &Node,
) -> Result<(), Fault>
    ensures { Judged (λ done. Unit {0}) (spec.keyed_refusal kind key.now place (node_view value.now)) result }
{
    let shape = Code::CORRELATION_SHAPE;
    if key.is("type") {
        return must(shape, place_of(value), kind_in(value).is_some());
    }
    if key.is("rules") {
        return check_rules(value);
    }
    if key.is("group-by") {
        return check_texts(parts_of(value));
    }
    if key.is("timespan") {
        return must(
            Code::BAD_TIMESPAN,
            place_of(value),
            span_in(value).is_some(),
        );
    }
    if key.is("condition") {
        return check_conditioned(kind, place, value);
    }
    if key.is("aliases") {
        return check_aliases(value);
    }
    if key.is("generate") {
        return must(shape, place_of(value), is_truth(value));
    }
    Err(refused(shape, place))
}

fn check_entry(kind: Option<CorrelationKind>, entry: &Entry) -> Result<(), Fault>
    ensures { Judged (λ done. Unit {0}) (spec.entry_refusal kind (entry_view entry.now)) result }
{
    check_keyed(kind, &entry.key, entry.place, &entry.value)
}

fn check_entries(kind: Option<CorrelationKind>, entries: &[Entry]) -> Result<(), Fault>
    ensures { Judged (λ done. Unit {0}) (first (list_map (spec.entry_refusal kind) (entries_view entries.now))) result }
{
    for entry in entries {
        check_entry(kind, entry)?;
    }
    Ok(())
}

fn wants_condition(kind: Option<CorrelationKind>) -> bool
    ensures { result ≡ spec.wants_condition kind }
{
    match kind {
        Some(kind) => counts(kind),
        None => false,
    }
}

/// Checks the value of `correlation`: the keys that are required, and then its entries in their order.
fn check_all(kind: Option<CorrelationKind>, node: &Node) -> Result<(), Fault>
    ensures { Judged (λ done. Unit {0}) (spec.all_refusal kind (node_view node.now)) result }
{
    let place = place_of(node);
    must(Code::CORRELATION_SHAPE, place, is_map(node))?;
    must(Code::CORRELATION_SHAPE, place, has_key(node, "type"))?;
    must(Code::CORRELATION_SHAPE, place, has_key(node, "rules"))?;
    must(Code::CORRELATION_SHAPE, place, has_key(node, "timespan"))?;
    let has_condition = !wants_condition(kind) || has_key(node, "condition");
    must(Code::CORRELATION_SHAPE, place, has_condition)?;
    check_entries(kind, all_entries(node))
}

/// Checks the value of `correlation`, and answers its type and its timespan.
pub(crate) fn check_body(node: &Node) -> Result<Checked, Fault>
    ensures { Judged (IsChecked (node_view node.now)) (spec.body_refusal (node_view node.now)) result }
{
    let kind = kind_at(node);
    check_all(kind, node)?;
    let Some(kind) = kind else {
        return Err(refused(Code::CORRELATION_SHAPE, place_of(node)));
    };
    let Some(span) = span_at(node) else {
        return Err(refused(Code::BAD_TIMESPAN, place_of(node)));
    };
    Ok(Checked { kind, span })
}
