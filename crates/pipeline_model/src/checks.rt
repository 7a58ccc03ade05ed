//! Why a document is no pipeline.

ghost use Rattle.std.specs.Prelude.{◌≡◌, true, map as list_map, codes, IfOk, IfErr};
ghost use Rattle.sig_base.specs.Judged.{Judged};
ghost use Rattle.sig_base.specs.Texts.{is_ascii};
ghost use Rattle.yaml_tree.specs.View.{node_view, nodes_view, entry_view, entries_view};
ghost use Rattle.yaml_tree.specs.Nodes.{is_empty};
ghost use Rattle.pipeline_check.specs.Causes.{least};
ghost use Rattle.pipeline_check.specs.Shapes as shapes;
ghost use Rattle.pipeline_model.specs.Checks as spec;

use crate::ids::check_ids;
use pipeline_check::{
    Listing, StepKind, check_fields, check_list, check_map, check_mapping, check_names, check_op,
    check_sources, check_text, check_truth, check_vars, check_whole, chooser_of, is_left_out,
    is_same, is_source_key, kind_of, must, refuse, sooner, worded,
};
use sig_base::{Code, Fault, Place, Refusal, Text, refused};
use std::alloc::Global;
use yaml_tree::{Entry, Node, all_entries, has_key, parts_of, place_of, text_of, value_at};

/// The type that a value of `type` names.
fn kind_in(node: &Node) -> Option<StepKind>
    ensures { result ≡ spec.kind_in (node_view node.now) }
{
    match text_of(node) {
        Some(text) => kind_of(text),
        None => None,
    }
}

/// The type of a step.
pub(crate) fn kind_at(node: &Node) -> Option<StepKind>
    ensures { result ≡ spec.kind_at (node_view node.now) }
{
    match value_at(node, "type") {
        Some(value) => kind_in(value),
        None => None,
    }
}

/// The type that a value of `type` names, which is one that is known.
fn known_kind(alloc: Global, node: &Node) -> Result<StepKind, Fault>
    ensures { Judged (λ kind. spec.kind_in (node_view node.now) ≡ Some kind) (spec.kind_refusal (node_view node.now)) result }
{
    let Some(text) = text_of(node) else {
        return Err(refused(Code::PIPELINE_SHAPE, place_of(node)));
    };
    let Some(kind) = kind_of(text) else {
        let refusal = worded(alloc, Code::UNKNOWN_STEP, place_of(node), text)?;
        return Err(Fault::Refused(refusal));
    };
    Ok(kind)
}

/// The type of a step, which has one.
pub(crate) fn typed_kind(alloc: Global, node: &Node) -> Result<StepKind, Fault>
    ensures { Judged (λ kind. spec.kind_at (node_view node.now) ≡ Some kind) (spec.typed_refusal (node_view node.now)) result }
{
    match value_at(node, "type") {
        Some(value) => known_kind(alloc, value),
        None => Err(refused(Code::PIPELINE_SHAPE, place_of(node))),
    }
}

fn check_type(alloc: Global, node: &Node) -> Result<Option<Refusal>, Fault>
    ensures ok { IfOk result (λ r. r ≡ spec.typed_refusal (node_view node.now)) }
    ensures err { IfErr result (λ e. e ≡ Fault.Memory) }
{
    match typed_kind(alloc, node) {
        Ok(_) => Ok(None),
        Err(Fault::Refused(refusal)) => Ok(Some(refusal)),
        Err(Fault::Memory) => Err(Fault::Memory),
    }
}

/// A mapping at the one key of its type.
fn check_lone_mapping(patterns: bool, key: &Text, place: Place, value: &Node) -> Option<Refusal>
    ensures { result ≡ spec.lone_refusal (shapes.mapping_refusal patterns) (codes "mapping") key.now place (node_view value.now) }
{
    if key.is("mapping") {
        return check_mapping(patterns, value);
    }
    refuse(Code::PIPELINE_SHAPE, place)
}

/// A text at the one key of its type.
fn check_lone_text(own: &str, key: &Text, place: Place, value: &Node) -> Option<Refusal>
    requires { is_ascii own.now ≡ true }
    ensures { result ≡ spec.lone_refusal shapes.text_refusal own.now key.now place (node_view value.now) }
{
    if key.is(own) {
        return check_text(value);
    }
    refuse(Code::PIPELINE_SHAPE, place)
}

fn has_none(entries: &[Entry]) -> bool
    ensures { result ≡ is_empty (entries_view entries.now) }
{
    entries.is_empty()
}

fn check_items_shape(node: &Node) -> Option<Refusal>
    ensures { result ≡ spec.items_shape (node_view node.now) }
{
    let filled = !has_none(all_entries(node));
    sooner(
        check_map(node),
        must(Code::PIPELINE_SHAPE, place_of(node), filled),
    )
}

fn check_added(key: &Text, place: Place, value: &Node) -> Option<Refusal>
    ensures { result ≡ spec.added_refusal key.now place (node_view value.now) }
{
    if key.is("conditions") {
        return check_items_shape(value);
    }
    if key.is("negated") {
        return check_truth(value);
    }
    refuse(Code::PIPELINE_SHAPE, place)
}

fn check_changed(key: &Text, place: Place, value: &Node) -> Option<Refusal>
    ensures { result ≡ spec.changed_refusal key.now place (node_view value.now) }
{
    if is_source_key(key) {
        return check_text(value);
    }
    refuse(Code::PIPELINE_SHAPE, place)
}

fn chooser_in(entry: &Entry) -> Option<Listing>
    ensures { result ≡ spec.chooser_in (entry_view entry.now) }
{
    chooser_of(&entry.key)
}

/// The first of `include` and `exclude`.
pub(crate) fn chosen_in(entries: &[Entry]) -> Option<Listing>
    ensures { result ≡ spec.chosen_in (entries_view entries.now) }
{
    for entry in entries {
        if let Some(listing) = chooser_in(entry) {
            return Some(listing);
        }
    }
    None
}

fn is_chosen(own: Listing, chosen: Option<Listing>) -> bool
    ensures { result ≡ spec.is_chosen own chosen }
{
    match chosen {
        Some(listing) => is_same(own, listing),
        None => false,
    }
}

/// The names of placeholders.
fn check_choice(chosen: Option<Listing>, key: &Text, place: Place, value: &Node) -> Option<Refusal>
    ensures { result ≡ spec.choice_refusal chosen key.now place (node_view value.now) }
{
    match chooser_of(key) {
        Some(own) => {
            let first = must(Code::PIPELINE_SHAPE, place, is_chosen(own, chosen));
            sooner(first, check_names(value))
        }
        None => refuse(Code::PIPELINE_SHAPE, place),
    }
}

/// What stands at a key that not every step has.
fn check_own(
    chosen: Option<Listing>,
    kind: StepKind,
    key: &Text,
    place: Place,
    value: &Node,
) -> Option<Refusal>
    ensures { result ≡ spec.own_refusal chosen kind key.now place (node_view value.now) }
{
    match kind {
        StepKind::MapNames | StepKind::MapPrefixes => check_lone_mapping(false, key, place, value),
        StepKind::MapTexts => check_lone_mapping(true, key, place, value),
        StepKind::Prefix => check_lone_text("prefix", key, place, value),
        StepKind::Suffix => check_lone_text("suffix", key, place, value),
        StepKind::FailRule | StepKind::FailItem => check_lone_text("message", key, place, value),
        StepKind::Drop => refuse(Code::PIPELINE_SHAPE, place),
        StepKind::Add => check_added(key, place, value),
        StepKind::Source => check_changed(key, place, value),
        StepKind::FillHoles | StepKind::WildHoles => check_choice(chosen, key, place, value),
    }
}

fn check_own_if(
    chosen: Option<Listing>,
    kind: Option<StepKind>,
    key: &Text,
    place: Place,
    value: &Node,
) -> Option<Refusal>
    ensures { result ≡ spec.own_refusal_if chosen kind key.now place (node_view value.now) }
{
    match kind {
        Some(kind) => check_own(chosen, kind, key, place, value),
        None => None,
    }
}

fn has_needed(kind: StepKind, node: &Node) -> bool
    ensures { result ≡ spec.has_needed kind (node_view node.now) }
{
    match kind {
        StepKind::MapNames | StepKind::MapPrefixes | StepKind::MapTexts => has_key(node, "mapping"),
        StepKind::Prefix => has_key(node, "prefix"),
        StepKind::Suffix => has_key(node, "suffix"),
        StepKind::FailRule | StepKind::FailItem => has_key(node, "message"),
        StepKind::Add => has_key(node, "conditions"),
        StepKind::Drop | StepKind::Source | StepKind::FillHoles | StepKind::WildHoles => true,
    }
}

fn has_needed_if(kind: Option<StepKind>, node: &Node) -> bool
    ensures { result ≡ spec.has_needed_if kind (node_view node.now) }
{
    match kind {
        Some(kind) => has_needed(kind, node),
        None => true,
    }
}

/// What stands at a key of a step but `type`.
fn check_keyed(
    chosen: Option<Listing>,
    kind: Option<StepKind>,
    key: &Text,
    place: Place,
    value: &Node,
) -> Option<Refusal>
    ensures { result ≡ spec.keyed_refusal chosen kind key.now place (node_view value.now) }
{
    if key.is("type") {
        return None;
    }
    if key.is("id") {
        return check_text(value);
    }
    if key.is("rule_conditions") {
        return check_sources(value);
    }
    if key.is("field_name_conditions") {
        return check_fields(value);
    }
    if key.is("rule_cond_op") {
        return check_op(value);
    }
    if key.is("field_name_cond_op") {
        return check_op(value);
    }
    check_own_if(chosen, kind, key, place, value)
}

fn check_entry(chosen: Option<Listing>, kind: Option<StepKind>, entry: &Entry) -> Option<Refusal>
    ensures { result ≡ spec.entry_refusal chosen kind (entry_view entry.now) }
{
    check_keyed(chosen, kind, &entry.key, entry.place, &entry.value)
}

fn check_entries(
    chosen: Option<Listing>,
    kind: Option<StepKind>,
    entries: &[Entry],
) -> Option<Refusal>
    ensures { result ≡ least (list_map (spec.entry_refusal chosen kind) (entries_view entries.now)) }
{
    let mut found = None;
    for entry in entries {
        found = sooner(found, check_entry(chosen, kind, entry));
    }
    found
}

fn check_all_entries(kind: Option<StepKind>, node: &Node) -> Option<Refusal>
    ensures { result ≡ spec.entries_refusal kind (node_view node.now) }
{
    let entries = all_entries(node);
    check_entries(chosen_in(entries), kind, entries)
}

fn check_needed(kind: Option<StepKind>, node: &Node) -> Option<Refusal>
    ensures { result ≡ spec.needed_refusal kind (node_view node.now) }
{
    must(
        Code::PIPELINE_SHAPE,
        place_of(node),
        has_needed_if(kind, node),
    )
}

fn check_step(alloc: Global, node: &Node) -> Result<Option<Refusal>, Fault>
    ensures ok { IfOk result (λ r. r ≡ spec.step_refusal (node_view node.now)) }
    ensures err { IfErr result (λ e. e ≡ Fault.Memory) }
{
    let kind = kind_at(node);
    let typed = sooner(check_map(node), check_type(alloc, node)?);
    let needed = sooner(typed, check_needed(kind, node));
    Ok(sooner(needed, check_all_entries(kind, node)))
}

fn check_all_steps(alloc: Global, parts: &[Node]) -> Result<Option<Refusal>, Fault>
    ensures ok { IfOk result (λ r. r ≡ least (list_map spec.step_refusal (nodes_view parts.now))) }
    ensures err { IfErr result (λ e. e ≡ Fault.Memory) }
{
    let mut found = None;
    for part in parts {
        found = sooner(found, check_step(alloc, part)?);
    }
    Ok(found)
}

fn check_steps(alloc: Global, node: &Node) -> Result<Option<Refusal>, Fault>
    ensures ok { IfOk result (λ r. r ≡ spec.steps_refusal (node_view node.now)) }
    ensures err { IfErr result (λ e. e ≡ Fault.Memory) }
{
    let parts = parts_of(node);
    let steps = sooner(check_list(node), check_all_steps(alloc, parts)?);
    let ids = check_ids(alloc, parts)?;
    Ok(sooner(steps, ids))
}

/// The steps of a pipeline.
fn check_steps_at(alloc: Global, node: &Node) -> Result<Option<Refusal>, Fault>
    ensures ok { IfOk result (λ r. r ≡ spec.steps_refusal_at (node_view node.now)) }
    ensures err { IfErr result (λ e. e ≡ Fault.Memory) }
{
    match value_at(node, "transformations") {
        Some(value) => check_steps(alloc, value),
        None => Ok(None),
    }
}

/// What stands at a key of a pipeline but its steps.
fn check_top(
    alloc: Global,
    key: &Text,
    place: Place,
    value: &Node,
) -> Result<Option<Refusal>, Fault>
    ensures ok { IfOk result (λ r. r ≡ spec.top_refusal key.now place (node_view value.now)) }
    ensures err { IfErr result (λ e. e ≡ Fault.Memory) }
{
    if key.is("name") {
        return Ok(check_text(value));
    }
    if key.is("priority") {
        return Ok(check_whole(value));
    }
    if key.is("vars") {
        return Ok(check_vars(value));
    }
    if is_left_out(key) {
        return Ok(Some(worded(alloc, Code::UNKNOWN_STEP, place, key)?));
    }
    Ok(None)
}

fn check_top_entry(alloc: Global, entry: &Entry) -> Result<Option<Refusal>, Fault>
    ensures ok { IfOk result (λ r. r ≡ spec.top_entry (entry_view entry.now)) }
    ensures err { IfErr result (λ e. e ≡ Fault.Memory) }
{
    check_top(alloc, &entry.key, entry.place, &entry.value)
}

fn check_top_entries(alloc: Global, entries: &[Entry]) -> Result<Option<Refusal>, Fault>
    ensures ok { IfOk result (λ r. r ≡ least (list_map spec.top_entry (entries_view entries.now))) }
    ensures err { IfErr result (λ e. e ≡ Fault.Memory) }
{
    let mut found = None;
    for entry in entries {
        found = sooner(found, check_top_entry(alloc, entry)?);
    }
    Ok(found)
}

/// Why a document is no pipeline, the items aside that are added.
pub(crate) fn check_shape(alloc: Global, node: &Node) -> Result<Option<Refusal>, Fault>
    ensures ok { IfOk result (λ r. r ≡ spec.shape_refusal (node_view node.now)) }
    ensures err { IfErr result (λ e. e ≡ Fault.Memory) }
{
    let entries = check_top_entries(alloc, all_entries(node))?;
    let steps = check_steps_at(alloc, node)?;
    Ok(sooner(sooner(check_map(node), entries), steps))
}
