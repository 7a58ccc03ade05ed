//! Nodes that are no block collection: scalars and flow collections.

ghost use Rattle.std.specs.Prelude.{◌≡◌, ◌≤◌, false, length, Ok, IfOk};
ghost use Rattle.yaml_tree.specs.Tree.{At, scalar};
ghost use Rattle.yaml_tree.specs.View.{node_view, kind_view};
ghost use Rattle.yaml_inline.specs.File as file;
ghost use Rattle.yaml_inline.specs.Line as spec_line;
ghost use Rattle.yaml_inline.specs.Scalar as scalars;
ghost use Rattle.yaml_inline.specs.View.{line_view, Gives};
ghost use Rattle.yaml_blocks.specs.Blocks as blocks;
ghost use Rattle.yaml_blocks.specs.Reading as reading;
ghost use Rattle.yaml_blocks.specs.Continuations.{plain_view};
ghost use Rattle.yaml_blocks.specs.Views.{lines_view};
ghost use Rattle.yaml_blocks.specs.Items as spec;

use crate::content::block_scalar;
use crate::inside::offset;
use crate::lines::nothing_in;
use crate::plain::{PlainText, plain_text};
use sig_base::{Code, Text};
use std::alloc::{AllocError, Global};
use yaml_inline::flow::{flow_node, is_bracket, is_quote, no_reading, quoted, refused};
use yaml_inline::scan::{begins, ends_line, is_left_out, spot, starts_plain};
use yaml_inline::word::resolved;
use yaml_inline::{Halt, Line};
use yaml_tree::{Kind, Node};

/// The scalar or the flow collection that begins here, with nothing else in its block.
#[tactic(auto, unfolding(crate::specs::Reading::scalar_or_flow_in))]
pub fn scalar_or_flow(
    alloc: Global,
    depth: usize,
    least: usize,
    line: &Line<'_>,
    rest: &[char],
    lines: &[Line<'_>],
) -> Result<Node, Halt>
    requires within { length rest.now ≤ length line.now.text.now }
    requires solid { file.blank_or_end rest.now ≡ false }
    ensures { Gives node_view result (reading.scalar_or_flow_in depth least (line_view line.now) rest.now (lines_view lines.now)) }
{
    if is_left_out(rest) || begins('%', rest) && offset(line, rest) == 0 {
        return Err(refused(Code::UNSUPPORTED, line, rest));
    }
    if is_quote(rest) {
        let (content, after) = quoted(alloc, line, rest)?;
        return alone(line, after, lines, Node::text(spot(line, rest), content));
    }
    if is_bracket(rest) {
        let (node, after) = flow_node(alloc, depth, line, rest)?;
        return alone(line, after, lines, node);
    }
    if begins('|', rest) || begins('>', rest) {
        let content = block_scalar(alloc, least, line, rest, lines)?;
        return Ok(Node::text(spot(line, rest), content));
    }
    if !starts_plain(rest) {
        return Err(no_reading(line));
    }
    plain(alloc, least, line, rest, lines)
}

/// A node that ends its line and its block.
pub fn alone(line: &Line<'_>, after: &[char], lines: &[Line<'_>], node: Node) -> Result<Node, Halt>
    ensures { Gives node_view result (blocks.alone (line_view line.now) after.now (lines_view lines.now) (node_view node)) }
{
    if !ends_line(after) {
        return Err(no_reading(line));
    }
    nothing_in(lines)?;
    Ok(node)
}

/// The plain scalar that begins here.
fn plain(
    alloc: Global,
    least: usize,
    line: &Line<'_>,
    rest: &[char],
    lines: &[Line<'_>],
) -> Result<Node, Halt>
    requires { length rest.now ≤ length line.now.text.now }
    ensures { Gives node_view result (spec.plain_in least (line_view line.now) rest.now (lines_view lines.now)) }
{
    let place = spot(line, rest);
    let content = plain_text(alloc, least, line, rest, lines)?;
    let kind = plain_kind(alloc, &content)?;
    Ok(Node { place, kind })
}

/// What the text of a plain scalar is.
fn plain_kind(alloc: Global, content: &PlainText<'_>) -> Result<Kind, AllocError>
    ensures { IfOk result (λ k. (a : At) → kind_view k a ≡ scalar a (scalars.resolved (plain_view content.now))) }
{
    match content {
        PlainText::OneLine(front) => resolved(alloc, front),
        PlainText::Joined(text) => meant(alloc, text),
    }
}

/// What a text is as a plain scalar.
fn meant(alloc: Global, content: &Text) -> Result<Kind, AllocError>
    ensures { IfOk result (λ k. (a : At) → kind_view k a ≡ scalar a (scalars.resolved content.now)) }
{
    let chars = characters(alloc, content)?;
    resolved(alloc, &chars)
}

fn characters(alloc: Global, content: &Text) -> Result<Vec<char>, AllocError>
    ensures { IfOk result (λ v. v.items ≡ content.now) }
{
    content.as_str().chars().collect(alloc)
}
