//! The lines of a block scalar.

ghost use Rattle.std.specs.Prelude.{◌≡◌, ◌++◌, ◌≤◌, ◌<◌, length, take, drop, true, map, IfOk, OnOk};
ghost use Rattle.yaml_inline.specs.File as file;
ghost use Rattle.yaml_inline.specs.Line.{is_empty_line};
ghost use Rattle.yaml_inline.specs.View.{line_view, Gives};
ghost use Rattle.yaml_blocks.specs.Blocks as spec;
ghost use Rattle.yaml_blocks.specs.Chompings.{texts_view};
ghost use Rattle.yaml_blocks.specs.Continuations.{text_given};
ghost use Rattle.yaml_blocks.specs.Contents.{none_of_line, ScalarLines};
ghost use Rattle.yaml_blocks.specs.Views.{lines_view};

use crate::lines::{indent, is_empty_line, lines_behind, nothing_in};
use crate::scalar::{block_text, header_of};
use sig_base::Text;
use std::alloc::{AllocError, Global};
use yaml_inline::scan::{begins, behind};
use yaml_inline::{Halt, Line};

/// How many lines with blanks alone come first.
#[tactic(auto, using(crate::proofs::Fronts::front_more, crate::proofs::Fronts::front_stop, crate::proofs::Fronts::front_end))]
fn count_empty(lines: &[Line<'_>]) -> usize
    ensures front { lines_view (take result lines.now) ≡ spec.front_while is_empty_line (lines_view lines.now) }
    ensures rest { lines_view (drop result lines.now) ≡ spec.rest_while is_empty_line (lines_view lines.now) }
    ensures within { result ≤ length lines.now }
{
    for at in 0..lines.len() {
        if !is_empty_line(&lines[at]) {
            return at;
        }
    }
    lines.len()
}

fn is_content(least: usize, line: &Line<'_>) -> bool
    ensures { result ≡ spec.is_content least (line_view line.now) }
{
    is_empty_line(line) || least <= indent(line)
}

/// How many lines of the content come first.
#[tactic(auto, using(crate::proofs::Fronts::front_more, crate::proofs::Fronts::front_stop, crate::proofs::Fronts::front_end))]
fn count_content(least: usize, lines: &[Line<'_>]) -> usize
    ensures front { lines_view (take result lines.now) ≡ spec.front_while (spec.is_content least) (lines_view lines.now) }
    ensures rest { lines_view (drop result lines.now) ≡ spec.rest_while (spec.is_content least) (lines_view lines.now) }
    ensures within { result ≤ length lines.now }
{
    for at in 0..lines.len() {
        if !is_content(least, &lines[at]) {
            return at;
        }
    }
    lines.len()
}

/// A line of the content without its indentation.
fn content<'t>(least: usize, line: &Line<'t>) -> &'t [char]
    ensures { result.now ≡ spec.content least (line_view line.now) }
{
    let text = line.text;
    if indent(line) < least {
        text.split_at(0).0
    } else {
        behind(text, least)
    }
}

/// Adds an empty text for each line.
#[tactic(auto, using(crate::proofs::Fronts::texts_turn))]
fn push_empty<'t>(texts: &mut Vec<&'t [char]>, lines: &[Line<'t>]) -> Result<(), AllocError>
    ensures { OnOk result (texts_view texts.new.items ≡ texts_view texts.old.items ++ map none_of_line (lines_view lines.now)) }
{
    for at in 0..lines.len() {
        let text = lines[at].text;
        texts.push(text.split_at(0).0)?;
    }
    Ok(())
}

/// Adds each line without its indentation.
#[tactic(auto, using(crate::proofs::Fronts::texts_turn))]
fn push_contents<'t>(
    texts: &mut Vec<&'t [char]>,
    least: usize,
    lines: &[Line<'t>],
) -> Result<(), AllocError>
    ensures { OnOk result (texts_view texts.new.items ≡ texts_view texts.old.items ++ map (spec.content least) (lines_view lines.now)) }
{
    for at in 0..lines.len() {
        texts.push(content(least, &lines[at]))?;
    }
    Ok(())
}

/// The text lines of a block scalar, and how many of the lines belong to it.
fn scalar_lines<'t>(
    alloc: Global,
    least: usize,
    lines: &[Line<'t>],
) -> Result<(Vec<&'t [char]>, usize), AllocError>
    ensures { IfOk result (λ p. ScalarLines least lines.now (texts_view p.0.items) p.1) }
{
    let front = count_empty(lines);
    let mut texts = Vec::new(alloc);
    push_empty(&mut texts, lines.split_at(front).0)?;
    let rest = lines_behind(lines, front);
    if rest.is_empty() {
        return Ok((texts, front));
    }
    let inner = indent(&rest[0]);
    if inner < least {
        return Ok((texts, front));
    }
    let count = count_content(inner, rest);
    push_contents(&mut texts, inner, rest.split_at(count).0)?;
    Ok((texts, front + count))
}

/// The text of the block scalar that begins here.
#[tactic(auto, unfolding(crate::specs::Blocks::block_scalar))]
pub fn block_scalar(
    alloc: Global,
    least: usize,
    line: &Line<'_>,
    rest: &[char],
    lines: &[Line<'_>],
) -> Result<Text, Halt>
    requires some { 0 < length rest.now }
    requires within { length rest.now ≤ length line.now.text.now }
    ensures { Gives text_given result (spec.block_scalar least (line_view line.now) rest.now (lines_view lines.now)) }
{
    let chomping = header_of(line, behind(rest, 1))?;
    let (texts, count) = scalar_lines(alloc, least, lines)?;
    nothing_in(lines_behind(lines, count))?;
    let content = block_text(alloc, begins('>', rest), chomping, &texts)?;
    Ok(content)
}
