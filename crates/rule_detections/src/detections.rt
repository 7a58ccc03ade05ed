//! Reading the detections of rules.

ghost use Rattle.std.specs.Prelude.{◌≡◌, filter, map as list_map, IfOk};
ghost use Rattle.std.specs.List.{AllZip, list_any};
ghost use Rattle.sig_base.specs.Judged.{Judged, first};
ghost use Rattle.event_schema.specs.Lists.{EachOf};
ghost use Rattle.yaml_tree.specs.View.{node_view, nodes_view, entry_view, entries_view};
ghost use Rattle.rule_detections.specs.Detections as spec;
ghost use Rattle.rule_detections.specs.Items.{IsItem, item_refusal, keyword_refusal};
ghost use Rattle.yaml_tree.specs.Nodes.{is_empty as spec_is_empty};
ghost use Rattle.yaml_tree.specs.Nodes.{parts_in};
ghost use Rattle.rule_detections.specs.Whole.{IsWholeItem, IsWholeAlternative, IsWholeDetection};

use crate::detection::{Alternative, Alternatives, Detection, Detections};
use crate::item::Item;
use sig_base::{Code, Fault, Limits, Place, Text, must, refused};
use sig_conditions::is_identifier;
use std::alloc::Global;
use yaml_tree::{
    Entry, Node, all_entries, entries_of, is_empty, is_map, is_null, is_scalar, parts_of, place_of,
};

/// The items of entries.
fn read_items(
    alloc: Global,
    limits: &Limits,
    unbuilt: &[Place],
    entries: &[Entry],
) -> Result<Alternative, Fault>
    ensures judged { Judged (λ items. AllZip IsItem (entries_view entries.now) items)
        (first (list_map (item_refusal unbuilt.now limits.now) (entries_view entries.now))) result }
    ensures whole { IfOk result (λ items. EachOf IsWholeItem items) }
{
    let mut items = Alternative::with_capacity(alloc, entries.len())?;
    for entry in entries {
        let item = Item::read(alloc, limits, unbuilt, entry)?;
        items.push(item)?;
    }
    Ok(items)
}

fn has_none(entries: &[Entry]) -> bool
    ensures { result ≡ spec_is_empty (entries_view entries.now) }
{
    entries.is_empty()
}

/// The items of a map at the place.
fn read_map(
    alloc: Global,
    limits: &Limits,
    unbuilt: &[Place],
    place: Place,
    entries: &[Entry],
) -> Result<Alternative, Fault>
    ensures judged { Judged (λ items. AllZip IsItem (entries_view entries.now) items)
        (spec.items_refusal unbuilt.now limits.now place (entries_view entries.now)) result }
    ensures whole { IfOk result (λ items. IsWholeAlternative items) }
{
    must(Code::EMPTY_DETECTION, place, !has_none(entries))?;
    read_items(alloc, limits, unbuilt, entries)
}

/// The item of a scalar, which is a keyword.
fn read_keyword(
    alloc: Global,
    limits: &Limits,
    unbuilt: &[Place],
    node: &Node,
) -> Result<Alternative, Fault>
    ensures judged { Judged (λ items. spec.IsKeywordAlone (node_view node.now) items) (keyword_refusal unbuilt.now limits.now (node_view node.now)) result }
    ensures whole { IfOk result (λ items. IsWholeAlternative items) }
{
    let item = Item::read_keyword(alloc, limits, unbuilt, node)?;
    let mut items = Alternative::with_capacity(alloc, 1)?;
    items.push(item)?;
    Ok(items)
}

/// Reads a map of items, or a scalar, which is a keyword.
fn read_alternative(
    alloc: Global,
    limits: &Limits,
    unbuilt: &[Place],
    node: &Node,
) -> Result<Alternative, Fault>
    ensures judged { Judged (λ items. spec.IsAlternative (node_view node.now) items) (spec.alternative_refusal unbuilt.now limits.now (node_view node.now)) result }
    ensures whole { IfOk result (λ items. IsWholeAlternative items) }
{
    if let Some(entries) = entries_of(node) {
        return read_map(alloc, limits, unbuilt, place_of(node), entries);
    }
    if !is_scalar(node) {
        return Err(refused(Code::WRONG_SHAPE, place_of(node)));
    }
    read_keyword(alloc, limits, unbuilt, node)
}

/// The alternatives of nodes.
fn read_alternatives(
    alloc: Global,
    limits: &Limits,
    unbuilt: &[Place],
    nodes: &[Node],
) -> Result<Alternatives, Fault>
    ensures judged { Judged (λ all. AllZip spec.IsAlternative (nodes_view nodes.now) all)
        (first (list_map (spec.alternative_refusal unbuilt.now limits.now) (nodes_view nodes.now))) result }
    ensures whole { IfOk result (λ all. EachOf IsWholeAlternative all) }
{
    let mut all = Alternatives::with_capacity(alloc, nodes.len())?;
    for node in nodes {
        let alternative = read_alternative(alloc, limits, unbuilt, node)?;
        all.push(alternative)?;
    }
    Ok(all)
}

/// The alternatives of a detection whose key stands at the place.
fn read_content(
    alloc: Global,
    limits: &Limits,
    unbuilt: &[Place],
    place: Place,
    value: &Node,
) -> Result<Alternatives, Fault>
    ensures judged { Judged (λ all. AllZip spec.IsAlternative (parts_in (node_view value.now)) all)
        (spec.content_refusal unbuilt.now limits.now place (node_view value.now)) result }
    ensures whole { IfOk result (λ all. EachOf IsWholeAlternative all) }
{
    must(Code::EMPTY_DETECTION, place_of(value), !is_null(value))?;
    let parts = parts_of(value);
    must(Code::EMPTY_LIST, place_of(value), !is_empty(parts))?;
    must(
        Code::TOO_MANY_VALUES,
        place,
        parts.len() <= limits.list_values,
    )?;
    read_alternatives(alloc, limits, unbuilt, parts)
}

/// Whether an entry's key may be the name of a detection.
fn is_detection_key(entry: &Entry) -> bool
    ensures { result ≡ spec.is_detection_key (entry_view entry.now) }
{
    is_identifier(&entry.key) && !entry.key.is("timeframe")
}

impl Detection {
    /// Reads an entry of `detection` other than `condition`.
    pub fn read(
        alloc: Global,
        limits: &Limits,
        unbuilt: &[Place],
        entry: &Entry,
    ) -> Result<Detection, Fault>
        ensures judged { Judged (λ d. spec.IsDetection (entry_view entry.now) d) (spec.detection_refusal unbuilt.now limits.now (entry_view entry.now)) result }
        ensures whole { IfOk result (λ d. IsWholeDetection d) }
    {
        must(Code::WRONG_SHAPE, entry.place, is_detection_key(entry))?;
        let alternatives = read_content(alloc, limits, unbuilt, entry.place, &entry.value)?;
        let name = Text::copy(alloc, entry.key.as_str())?;
        Ok(Detection {
            name,
            alternatives,
            place: entry.place,
        })
    }
}

pub(crate) fn is_no_condition(entry: &Entry) -> bool
    ensures { result ≡ spec.is_no_condition (entry_view entry.now) }
{
    !entry.key.is("condition")
}

fn is_identified(entry: &Entry) -> bool
    ensures { result ≡ spec.is_identified (entry_view entry.now) }
{
    !(entry.key.is("condition") || entry.key.is("timeframe"))
}

fn has_identified(entries: &[Entry]) -> bool
    ensures { result ≡ list_any (λ e. spec.is_identified (entry_view e)) entries.now }
{
    entries.iter().any(is_identified)
}

fn begins_with_timeframe(entries: &[Entry]) -> bool
    ensures { result ≡ spec.begins_with_timeframe (entries_view entries.now) }
{
    let Some((first, _)) = entries.split_first() else {
        return false;
    };
    first.key.is("timeframe")
}

/// The detections of entries, of which `condition` is passed over.
fn read_entries(
    alloc: Global,
    limits: &Limits,
    unbuilt: &[Place],
    entries: &[Entry],
) -> Result<Detections, Fault>
    ensures judged { Judged (λ all. AllZip spec.IsDetection (filter spec.is_no_condition (entries_view entries.now)) all)
        (first (list_map (spec.detection_refusal unbuilt.now limits.now) (filter spec.is_no_condition (entries_view entries.now)))) result }
    ensures whole { IfOk result (λ all. EachOf IsWholeDetection all) }
{
    let mut all = Detections::with_capacity(alloc, entries.len())?;
    for entry in entries {
        if !is_no_condition(entry) {
            continue;
        }
        let detection = Detection::read(alloc, limits, unbuilt, entry)?;
        all.push(detection)?;
    }
    Ok(all)
}

/// Reads the value of `detection`: its entries but `condition`, in their order. `unbuilt` are the places of values at which
/// no regular expression is built.
#[tactic(auto, using(crate::proofs::Zips::any_viewed))]
pub fn read_detections(
    alloc: Global,
    limits: &Limits,
    unbuilt: &[Place],
    node: &Node,
) -> Result<Detections, Fault>
    ensures judged { Judged (λ all. spec.AreDetections (node_view node.now) all) (spec.detections_refusal unbuilt.now limits.now (node_view node.now)) result }
    ensures whole { IfOk result (λ all. EachOf IsWholeDetection all) }
{
    must(Code::WRONG_SHAPE, place_of(node), is_map(node))?;
    let entries = all_entries(node);
    let named = has_identified(entries) || begins_with_timeframe(entries);
    must(Code::EMPTY_DETECTION, place_of(node), named)?;
    read_entries(alloc, limits, unbuilt, entries)
}
