//! The items that steps add.

ghost use Rattle.std.specs.Prelude.{◌≡◌, true, map as list_map, IfOk, IfErr};
ghost use Rattle.std.specs.List.{AllZip};
ghost use Rattle.sig_base.specs.Judged.{Judged, first};
ghost use Rattle.sig_base.specs.Texts.{is_ascii};
ghost use Rattle.yaml_tree.specs.View.{node_view, nodes_view, entry_view, entries_view};
ghost use Rattle.rule_detections.specs.Items.{IsItem, item_refusal};
ghost use Rattle.pipeline_check.specs.Causes.{least};
ghost use Rattle.pipeline_model.specs.Checks as spec;

use crate::checks::kind_at;
use pipeline_check::{StepKind, sooner};
use rule_detections::{Alternative, Item};
use sig_base::{Fault, Limits, Place, Refusal};
use std::alloc::Global;
use yaml_tree::{Entry, Node, entries_at, parts_of, value_at};

/// The parts of the value at a key: the elements of a list, or else the value alone; none where the key isn't there.
pub fn parts_at<'a>(node: &'a Node, key: &str) -> &'a [Node]
    requires { is_ascii key.now ≡ true }
    ensures { nodes_view result.now ≡ spec.parts_at key.now (node_view node.now) }
{
    match value_at(node, key) {
        Some(value) => parts_of(value),
        None => &[],
    }
}

fn adds(kind: Option<StepKind>) -> bool
    ensures { result ≡ spec.adds kind }
{
    matches!(kind, Some(StepKind::Add))
}

/// The entries of the items that a step adds; a step of another type has none.
pub fn added_in(node: &Node) -> &[Entry]
    ensures { spec.added_in (node_view node.now) ≡ entries_view result.now }
{
    if adds(kind_at(node)) {
        return entries_at(node, "conditions");
    }
    &[]
}

fn check_item(
    alloc: Global,
    limits: &Limits,
    unbuilt: &[Place],
    entry: &Entry,
) -> Result<Option<Refusal>, Fault>
    ensures ok { IfOk result (λ r. r ≡ item_refusal unbuilt.now limits.now (entry_view entry.now)) }
    ensures err { IfErr result (λ e. e ≡ Fault.Memory) }
{
    match Item::read(alloc, limits, unbuilt, entry) {
        Ok(_) => Ok(None),
        Err(Fault::Refused(refusal)) => Ok(Some(refusal)),
        Err(Fault::Memory) => Err(Fault::Memory),
    }
}

fn check_entries(
    alloc: Global,
    limits: &Limits,
    unbuilt: &[Place],
    entries: &[Entry],
) -> Result<Option<Refusal>, Fault>
    ensures ok { IfOk result (λ r. r ≡ least (list_map (item_refusal unbuilt.now limits.now) (entries_view entries.now))) }
    ensures err { IfErr result (λ e. e ≡ Fault.Memory) }
{
    let mut found = None;
    for entry in entries {
        found = sooner(found, check_item(alloc, limits, unbuilt, entry)?);
    }
    Ok(found)
}

fn check_added(
    alloc: Global,
    limits: &Limits,
    unbuilt: &[Place],
    node: &Node,
) -> Result<Option<Refusal>, Fault>
    ensures ok { IfOk result (λ r. r ≡ spec.items_refusal unbuilt.now limits.now (node_view node.now)) }
    ensures err { IfErr result (λ e. e ≡ Fault.Memory) }
{
    check_entries(alloc, limits, unbuilt, added_in(node))
}

fn check_parts(
    alloc: Global,
    limits: &Limits,
    unbuilt: &[Place],
    parts: &[Node],
) -> Result<Option<Refusal>, Fault>
    ensures ok { IfOk result (λ r. r ≡ least (list_map (spec.items_refusal unbuilt.now limits.now) (nodes_view parts.now))) }
    ensures err { IfErr result (λ e. e ≡ Fault.Memory) }
{
    let mut found = None;
    for part in parts {
        found = sooner(found, check_added(alloc, limits, unbuilt, part)?);
    }
    Ok(found)
}

/// The items that the steps of a pipeline add.
pub(crate) fn check_items(
    alloc: Global,
    limits: &Limits,
    unbuilt: &[Place],
    node: &Node,
) -> Result<Option<Refusal>, Fault>
    ensures ok { IfOk result (λ r. r ≡ spec.all_items_refusal unbuilt.now limits.now (node_view node.now)) }
    ensures err { IfErr result (λ e. e ≡ Fault.Memory) }
{
    check_parts(alloc, limits, unbuilt, parts_at(node, "transformations"))
}

/// The items of entries.
pub(crate) fn read_items(
    alloc: Global,
    limits: &Limits,
    unbuilt: &[Place],
    entries: &[Entry],
) -> Result<Alternative, Fault>
    ensures { Judged (λ items. AllZip IsItem (entries_view entries.now) items)
        (first (list_map (item_refusal unbuilt.now limits.now) (entries_view entries.now))) result }
{
    let mut items = Alternative::with_capacity(alloc, entries.len())?;
    for entry in entries {
        let item = Item::read(alloc, limits, unbuilt, entry)?;
        items.push(item)?;
    }
    Ok(items)
}
