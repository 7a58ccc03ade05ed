//! Finding the regular expressions of detections, none of which is built here.

ghost use Rattle.std.specs.Prelude.{◌≡◌, ◌++◌, filter, if◌then◌else◌, is_none, IfOk, IfErr, OnOk, Some, None};
ghost use Rattle.std.specs.List.{flat_map};
ghost use Rattle.modifier_words.specs.declared.form.ChainForm.TheVariants as forms;
ghost use Rattle.rule_detections.specs.Detections.{is_no_condition as spec_is_no_condition};
ghost use Rattle.rule_detections.specs.Expressions as spec;
ghost use Rattle.rule_detections.specs.Items.{key_chain};
ghost use Rattle.rule_detections.specs.TestsOf.{form_use};
ghost use Rattle.modifier_values.specs.Uses as uses;
ghost use Rattle.yaml_tree.specs.Nodes.{place_of as node_place};
ghost use Rattle.yaml_tree.specs.View.{node_view, nodes_view, entry_view, entries_view};

use crate::detections::is_no_condition;
use crate::expression::{Expression, Expressions};
use crate::keys::Key;
use modifier_values::expression_text;
use modifier_words::{Chain, ChainForm, Flags};
use sig_base::{Fault, Limits, Place, Text, count_of};
use std::alloc::Global;
use yaml_tree::{Entry, Node, all_entries, entries_of, parts_of, place_of, text_of};

/// Adds the regular expression of a text at a place, unless it has too many characters.
fn add_text(
    alloc: Global,
    limits: &Limits,
    flags: Flags,
    place: Place,
    text: &Text,
    all: &mut Expressions,
) -> Result<(), Fault>
    ensures ok { OnOk result (all.new ≡ all.old ++ spec.use_expressions limits.now.value_chars place (uses.expression flags text.now)) }
    ensures err { IfErr result (λ e. e ≡ Fault.Memory) }
{
    if count_of(text.as_str()) > limits.value_chars {
        return Ok(());
    }
    let text = expression_text(alloc, flags, text.as_str())?;
    all.push(Expression { place, text })?;
    Ok(())
}

/// .. of a value that is a text.
fn add_value(
    alloc: Global,
    limits: &Limits,
    flags: Flags,
    value: &Node,
    all: &mut Expressions,
) -> Result<(), Fault>
    ensures ok { OnOk result (all.new ≡ all.old ++ spec.use_expressions limits.now.value_chars (node_place (node_view value.now))
        (form_use (forms.Expressions flags) (node_view value.now))) }
    ensures err { IfErr result (λ e. e ≡ Fault.Memory) }
{
    let Some(text) = text_of(value) else {
        return Ok(());
    };
    add_text(alloc, limits, flags, place_of(value), text, all)
}

/// .. of each value.
fn add_values(
    alloc: Global,
    limits: &Limits,
    flags: Flags,
    values: &[Node],
    all: &mut Expressions,
) -> Result<(), Fault>
    ensures ok { OnOk result (all.new ≡ all.old ++ flat_map (λ value. spec.use_expressions limits.now.value_chars (node_place value)
        (form_use (forms.Expressions flags) value)) (nodes_view values.now)) }
    ensures err { IfErr result (λ e. e ≡ Fault.Memory) }
{
    for value in values {
        add_value(alloc, limits, flags, value, all)?;
    }
    Ok(())
}

/// .. of each value under a chain, if it's one of regular expressions.
fn add_chained(
    alloc: Global,
    limits: &Limits,
    chain: &Chain,
    values: &[Node],
    all: &mut Expressions,
) -> Result<(), Fault>
    ensures ok { OnOk result (all.new ≡ all.old ++ flat_map (spec.value_expressions limits.now.value_chars chain.now) (nodes_view values.now)) }
    ensures err { IfErr result (λ e. e ≡ Fault.Memory) }
{
    let ChainForm::Expressions(flags) = chain.form() else {
        return Ok(());
    };
    add_values(alloc, limits, flags, values, all)
}

/// The chain of an entry's key, if the key is one of an item.
fn read_chain(alloc: Global, entry: &Entry) -> Result<Option<Chain>, Fault>
    ensures ok { IfOk result (λ chain. chain ≡ (if is_none (spec.key_refusal (entry_view entry.now)) then Some (key_chain (entry_view entry.now)) else None)) }
    ensures err { IfErr result (λ e. e ≡ Fault.Memory) }
{
    let key = match Key::read(alloc, &entry.key, entry.place) {
        Ok(key) => key,
        Err(Fault::Memory) => return Err(Fault::Memory),
        Err(Fault::Refused(_)) => return Ok(None),
    };
    match Chain::read(alloc, key.words.as_slice(), key.keyword, entry.place) {
        Ok(chain) => Ok(Some(chain)),
        Err(Fault::Memory) => Err(Fault::Memory),
        Err(Fault::Refused(_)) => Ok(None),
    }
}

/// .. of an entry's values, if its key is one of an item.
fn add_item(
    alloc: Global,
    limits: &Limits,
    entry: &Entry,
    all: &mut Expressions,
) -> Result<(), Fault>
    ensures ok { OnOk result (all.new ≡ all.old ++ spec.item_expressions limits.now (entry_view entry.now)) }
    ensures err { IfErr result (λ e. e ≡ Fault.Memory) }
{
    let Some(chain) = read_chain(alloc, entry)? else {
        return Ok(());
    };
    add_chained(alloc, limits, &chain, parts_of(&entry.value), all)
}

/// Adds the regular expressions of the values of these entries, so far as the key of each is one of an item; values with more than
/// `value_chars` characters have none. Only want of memory is answered.
pub fn add_entries(
    alloc: Global,
    limits: &Limits,
    entries: &[Entry],
    all: &mut Expressions,
) -> Result<(), Fault>
    ensures ok { OnOk result (all.new ≡ all.old ++ flat_map (spec.item_expressions limits.now) (entries_view entries.now)) }
    ensures err { IfErr result (λ e. e ≡ Fault.Memory) }
{
    for entry in entries {
        add_item(alloc, limits, entry, all)?;
    }
    Ok(())
}

/// .. of an alternative, if it's a map.
fn add_alternative(
    alloc: Global,
    limits: &Limits,
    node: &Node,
    all: &mut Expressions,
) -> Result<(), Fault>
    ensures ok { OnOk result (all.new ≡ all.old ++ spec.alternative_expressions limits.now (node_view node.now)) }
    ensures err { IfErr result (λ e. e ≡ Fault.Memory) }
{
    let Some(entries) = entries_of(node) else {
        return Ok(());
    };
    add_entries(alloc, limits, entries, all)
}

/// .. of each alternative.
fn add_alternatives(
    alloc: Global,
    limits: &Limits,
    nodes: &[Node],
    all: &mut Expressions,
) -> Result<(), Fault>
    ensures ok { OnOk result (all.new ≡ all.old ++ flat_map (spec.alternative_expressions limits.now) (nodes_view nodes.now)) }
    ensures err { IfErr result (λ e. e ≡ Fault.Memory) }
{
    for node in nodes {
        add_alternative(alloc, limits, node, all)?;
    }
    Ok(())
}

/// .. of an entry's alternatives.
fn add_detection(
    alloc: Global,
    limits: &Limits,
    entry: &Entry,
    all: &mut Expressions,
) -> Result<(), Fault>
    ensures ok { OnOk result (all.new ≡ all.old ++ spec.detection_expressions limits.now (entry_view entry.now)) }
    ensures err { IfErr result (λ e. e ≡ Fault.Memory) }
{
    add_alternatives(alloc, limits, parts_of(&entry.value), all)
}

/// .. of each entry but `condition`.
fn add_detections(
    alloc: Global,
    limits: &Limits,
    entries: &[Entry],
    all: &mut Expressions,
) -> Result<(), Fault>
    ensures ok { OnOk result (all.new ≡ all.old ++ flat_map (spec.detection_expressions limits.now)
        (filter spec_is_no_condition (entries_view entries.now))) }
    ensures err { IfErr result (λ e. e ≡ Fault.Memory) }
{
    for entry in entries {
        if !is_no_condition(entry) {
            continue;
        }
        add_detection(alloc, limits, entry, all)?;
    }
    Ok(())
}

/// The regular expressions in the value of `detection`, in their order: of each entry but `condition`, of each item whose key
/// is one and whose chain takes regular expressions, one for each text within the limit of characters. Only want of memory is
/// answered.
pub fn find_expressions(alloc: Global, limits: &Limits, node: &Node) -> Result<Expressions, Fault>
    ensures ok { IfOk result (λ all. all ≡ spec.detections_expressions limits.now (node_view node.now)) }
    ensures err { IfErr result (λ e. e ≡ Fault.Memory) }
{
    let mut all = Expressions::new(alloc);
    add_detections(alloc, limits, all_entries(node), &mut all)?;
    Ok(all)
}
