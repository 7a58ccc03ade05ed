//! Identifiers of steps, of which no two are the same.

ghost use Rattle.std.specs.Prelude.{◌≡◌, ◌∷◌, map as list_map, IfOk, IfErr};
ghost use Rattle.yaml_tree.specs.View.{node_view, nodes_view};
ghost use Rattle.pipeline_model.specs.Checks.{ids_refusal};
ghost use Rattle.pipeline_model.specs.Ids as spec;

use pipeline_check::{must, sooner};
use sig_base::{Code, Fault, Refusal, Text, Texts};
use std::alloc::Global;
use text_index::TextIndex;
use yaml_tree::{Node, place_of, text_of, value_at};

/// A sign and the text.
fn marked(alloc: Global, text: &Text) -> Result<Text, Fault>
    ensures ok { IfOk result (λ t. t ≡ 105 ∷ text.now) }
    ensures err { IfErr result (λ e. e ≡ Fault.Memory) }
{
    let mut key = Text::with_capacity(alloc, 1)?;
    key.push('i')?;
    key.push_str(text.as_str())?;
    Ok(key)
}

fn key_in(alloc: Global, node: &Node) -> Result<Text, Fault>
    ensures ok { IfOk result (λ t. t ≡ spec.id_key_in (node_view node.now)) }
    ensures err { IfErr result (λ e. e ≡ Fault.Memory) }
{
    match text_of(node) {
        Some(text) => marked(alloc, text),
        None => Ok(Text::new(alloc)),
    }
}

/// The text that is numbered of a step.
fn key_of(alloc: Global, node: &Node) -> Result<Text, Fault>
    ensures ok { IfOk result (λ t. t ≡ spec.id_key (node_view node.now)) }
    ensures err { IfErr result (λ e. e ≡ Fault.Memory) }
{
    match value_at(node, "id") {
        Some(value) => key_in(alloc, value),
        None => Ok(Text::new(alloc)),
    }
}

fn keys_of(alloc: Global, parts: &[Node]) -> Result<Texts, Fault>
    ensures ok { IfOk result (λ ts. ts ≡ list_map spec.id_key (nodes_view parts.now)) }
    ensures err { IfErr result (λ e. e ≡ Fault.Memory) }
{
    let mut keys = Texts::with_capacity(alloc, parts.len())?;
    for part in parts {
        keys.push(key_of(alloc, part)?)?;
    }
    Ok(keys)
}

fn is_at(at: usize, number: Option<u32>) -> bool
    ensures { result ≡ spec.is_at at number }
{
    match number {
        Some(number) => number as usize == at,
        None => false,
    }
}

/// Whether a step's `id` is first found at this step.
fn is_first(alloc: Global, keys: &TextIndex, at: usize, node: &Node) -> Result<bool, Fault>
    ensures ok { IfOk result (λ b. b ≡ spec.is_first keys.now at (node_view node.now)) }
    ensures err { IfErr result (λ e. e ≡ Fault.Memory) }
{
    let Some(text) = text_of(node) else {
        return Ok(true);
    };
    let key = marked(alloc, text)?;
    Ok(is_at(at, keys.find(&key)))
}

fn check_numbered(
    alloc: Global,
    keys: &TextIndex,
    at: usize,
    node: &Node,
) -> Result<Option<Refusal>, Fault>
    ensures ok { IfOk result (λ r. r ≡ spec.numbered_refusal keys.now at (node_view node.now)) }
    ensures err { IfErr result (λ e. e ≡ Fault.Memory) }
{
    let first = is_first(alloc, keys, at, node)?;
    Ok(must(Code::REPEATED_ID, place_of(node), first))
}

fn check_id(
    alloc: Global,
    keys: &TextIndex,
    at: usize,
    node: &Node,
) -> Result<Option<Refusal>, Fault>
    ensures ok { IfOk result (λ r. r ≡ spec.id_by keys.now at (node_view node.now)) }
    ensures err { IfErr result (λ e. e ≡ Fault.Memory) }
{
    match value_at(node, "id") {
        Some(value) => check_numbered(alloc, keys, at, value),
        None => Ok(None),
    }
}

#[tactic(auto, using(crate::proofs::Numbered::next_id))]
fn check_all(alloc: Global, keys: &TextIndex, parts: &[Node]) -> Result<Option<Refusal>, Fault>
    requires { keys.now ≡ list_map spec.id_key (nodes_view parts.now) }
    ensures ok { IfOk result (λ r. r ≡ ids_refusal (nodes_view parts.now)) }
    ensures err { IfErr result (λ e. e ≡ Fault.Memory) }
{
    let mut found = None;
    for (at, part) in parts.iter().enumerate() {
        found = sooner(found, check_id(alloc, keys, at, part)?);
    }
    Ok(found)
}

/// The steps whose `id` an earlier one has.
pub(crate) fn check_ids(alloc: Global, parts: &[Node]) -> Result<Option<Refusal>, Fault>
    ensures ok { IfOk result (λ r. r ≡ ids_refusal (nodes_view parts.now)) }
    ensures err { IfErr result (λ e. e ≡ Fault.Memory) }
{
    let keys = keys_of(alloc, parts)?;
    let keys = TextIndex::number(alloc, keys)?;
    check_all(alloc, &keys, parts)
}
