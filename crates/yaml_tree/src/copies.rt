//! Copies of the texts that the trees of documents hold.

ghost use Rattle.std.specs.Prelude.{◌≡◌, map as list_map, IfOk, IfErr};
ghost use Rattle.yaml_tree.specs.View.{node_view, nodes_view};
ghost use Rattle.yaml_tree.specs.Nodes.{text_in};

use crate::nodes::text_of;
use crate::tree::Node;
use sig_base::{Fault, Text, Texts};
use std::alloc::Global;

/// The characters of a text, and none of another node.
pub fn copy_text(alloc: Global, node: &Node) -> Result<Text, Fault>
    ensures ok { IfOk result (λ t. t ≡ text_in (node_view node.now)) }
    ensures err { IfErr result (λ e. e ≡ Fault.Memory) }
{
    match text_of(node) {
        Some(text) => Text::copy(alloc, text.as_str()),
        None => Ok(Text::new(alloc)),
    }
}

/// The characters of each text in order, and none of another node.
pub fn copy_texts(alloc: Global, parts: &[Node]) -> Result<Texts, Fault>
    ensures ok { IfOk result (λ ts. ts ≡ list_map text_in (nodes_view parts.now)) }
    ensures err { IfErr result (λ e. e ≡ Fault.Memory) }
{
    let mut texts = Texts::with_capacity(alloc, parts.len())?;
    for part in parts {
        texts.push(copy_text(alloc, part)?)?;
    }
    Ok(texts)
}
