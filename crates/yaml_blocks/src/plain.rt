//! Plain scalars, which may go on over continuation lines (YAML 1.2, 7.3.3 and 6.5 on folding).

ghost use Rattle.std.specs.Prelude.{◌≡◌, ◌≤◌, ◌++◌, ℕ, length, drop, Ok, IfOk, MatchOption, OnOk};
ghost use Rattle.yaml_inline.specs.Scalar as scalar;
ghost use Rattle.yaml_inline.specs.View.{line_view, Gives};
ghost use Rattle.yaml_blocks.specs.Blocks as spec;
ghost use Rattle.yaml_blocks.specs.Views.{lines_view, done};
ghost use Rattle.yaml_blocks.specs.Continuations.{continuation_view, text_given, plain_view, behind_text};

use crate::lines::{
    body, has_bad_start, indent, is_comment, is_empty_line, lines_behind, nothing_in, unexpected,
};
use crate::texts::push_feeds;
use sig_base::Text;
use std::alloc::{AllocError, Global};
use yaml_inline::flow::no_reading;
use yaml_inline::plain::plain_parts;
use yaml_inline::scan::ends_line;
use yaml_inline::{Halt, Line};

/// A line behind a plain scalar: empty, a comment, text, or text that a comment ends.
enum Continuation<'t> {
    Empty,
    Comment,
    Text(&'t [char]),
    Last(&'t [char]),
}

#[tactic(auto, unfolding(crate::specs::Blocks::continuation))]
fn continuation_line<'t>(least: usize, line: &Line<'t>) -> Result<Continuation<'t>, Halt>
    ensures { Gives continuation_view result (spec.continuation least (line_view line.now)) }
{
    if is_empty_line(line) {
        return Ok(Continuation::Empty);
    }
    if is_comment(line) {
        return Ok(Continuation::Comment);
    }
    if has_bad_start(line) {
        return Err(unexpected(line));
    }
    let rest = body(line);
    let (front, after) = plain_parts(false, rest);
    if indent(line) < least || !ends_line(after) {
        return Err(no_reading(line));
    }
    if after.is_empty() {
        Ok(Continuation::Text(front))
    } else {
        Ok(Continuation::Last(front))
    }
}

/// The text with what the continuation lines add to it.
#[tactic(auto, using(crate::proofs::Turns::plain_stop, crate::proofs::Turns::plain_empty, crate::proofs::Turns::plain_more, crate::proofs::Turns::comment_ok, crate::proofs::Turns::comment_err, crate::proofs::Turns::last_ok, crate::proofs::Turns::last_err, crate::proofs::Turns::plain_end))]
pub fn more_plain(
    alloc: Global,
    least: usize,
    lines: &[Line<'_>],
    first: Text,
) -> Result<Text, Halt>
    ensures { Gives text_given result (behind_text first (spec.more_plain least 0 (lines_view lines.now))) }
{
    let mut content = first;
    let mut empty = 0;
    for (at, line) in lines.iter().enumerate() {
        match continuation_line(least, line)? {
            Continuation::Empty => empty += 1,
            Continuation::Comment => {
                nothing_in(lines_behind(lines, at + 1))?;
                return Ok(content);
            }
            Continuation::Text(text) => {
                push_joined(&mut content, empty, text)?;
                empty = 0;
            }
            Continuation::Last(text) => {
                nothing_in(lines_behind(lines, at + 1))?;
                push_joined(&mut content, empty, text)?;
                return Ok(content);
            }
        }
    }
    Ok(content)
}

/// Adds a line's text behind so many empty lines.
fn push_joined(content: &mut Text, empty: usize, text: &[char]) -> Result<(), AllocError>
    ensures { OnOk result (content.new ≡ content.old ++ (scalar.plain_joint empty ++ text.now)) }
{
    if empty == 0 {
        content.push(' ')?;
    } else {
        push_feeds(content, empty)?;
    }
    content.push_all(text)
}

/// The text of a plain scalar: of one line, which is lent, or of several.
#[derive(Drop)]
pub enum PlainText<'t> {
    OneLine(&'t [char]),
    Joined(Text),
}

/// The front, where nothing more stands on the lines; nothing where something does.
#[tactic(auto, using(crate::proofs::Turns::nothing_comment, crate::proofs::Turns::nothing_end))]
fn all_there<'t>(front: &'t [char], lines: &[Line<'_>]) -> Option<&'t [char]>
    ensures { MatchOption result (spec.nothing_in (lines_view lines.now) ≡ Ok tt → ⊥)
        (λ all. (all.now ≡ front.now) × (spec.nothing_in (lines_view lines.now) ≡ Ok tt)) }
{
    for line in lines {
        if !is_comment(line) {
            return None;
        }
    }
    Some(front)
}

/// The text of the plain scalar that begins here, which may go on over the lines of its block.
pub fn plain_text<'t>(
    alloc: Global,
    least: usize,
    line: &Line<'_>,
    rest: &'t [char],
    lines: &[Line<'_>],
) -> Result<PlainText<'t>, Halt>
    ensures { Gives plain_view result (spec.plain_text least (line_view line.now) rest.now (lines_view lines.now)) }
{
    let (front, after) = plain_parts(false, rest);
    if !ends_line(after) {
        return Err(no_reading(line));
    }
    if !after.is_empty() {
        nothing_in(lines)?;
        return Ok(PlainText::OneLine(front));
    }
    if let Some(all) = all_there(front, lines) {
        return Ok(PlainText::OneLine(all));
    }
    let first = Text::from_chars(alloc, front)?;
    match more_plain(alloc, least, lines, first) {
        Ok(content) => Ok(PlainText::Joined(content)),
        Err(halt) => Err(halt),
    }
}
