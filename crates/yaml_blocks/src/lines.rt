//! What a line is to the block that it stands in.

ghost use Rattle.std.specs.Prelude.{◌≡◌, ◌≤◌, length, drop, is_some, Some};
ghost use Rattle.std.specs.List.{prefix_len};
ghost use Rattle.yaml_inline.specs.File as file;
ghost use Rattle.yaml_inline.specs.Line as spec;
ghost use Rattle.yaml_inline.specs.View.{line_view, halt_view, Gives};
ghost use Rattle.yaml_blocks.specs.Blocks as blocks;
ghost use Rattle.yaml_blocks.specs.Views.{lines_view, three_view, done};

use sig_base::{Code, Place};
use yaml_inline::flow::{no_reading, refused};
use yaml_inline::scan::{begins, behind, blank_or_end, carries_nothing, ends_line, skip_blanks};
use yaml_inline::{Halt, Line};

/// How many spaces a line begins with.
#[tactic(auto, unfolding(yaml_inline::specs::Line::indentation, yaml_inline::specs::Line::indent))]
pub fn indent(line: &Line<'_>) -> usize
    ensures indent { result ≡ spec.indent (line_view line.now) }
    ensures within { result ≤ length line.now.text.now }
{
    line.text.iter().take_while(|c| **c == ' ').count()
}

/// The line behind its indentation.
#[tactic(auto, unfolding(yaml_inline::specs::Line::body, yaml_inline::specs::Line::indent))]
pub fn body<'t>(line: &Line<'t>) -> &'t [char]
    ensures body { result.now ≡ spec.body (line_view line.now) }
    ensures within { length result.now ≤ length line.now.text.now }
{
    let text = line.text;
    behind(text, indent(line))
}

/// Whether the line carries nothing.
#[tactic(auto, unfolding(yaml_inline::specs::Line::is_comment))]
pub fn is_comment(line: &Line<'_>) -> bool
    ensures { result ≡ spec.is_comment (line_view line.now) }
{
    carries_nothing(line.text)
}

/// Whether the line has blanks alone.
#[tactic(auto, unfolding(yaml_inline::specs::Line::is_empty_line))]
pub fn is_empty_line(line: &Line<'_>) -> bool
    ensures { result ≡ spec.is_empty_line (line_view line.now) }
{
    skip_blanks(line.text).is_empty()
}

fn after_three(sign: char, text: &[char]) -> Option<&[char]>
    ensures { three_view result ≡ file.after_three sign text.now }
{
    let (first, rest) = text.split_first()?;
    let (second, rest) = rest.split_first()?;
    let (third, rest) = rest.split_first()?;
    if *first == sign && *second == sign && *third == sign {
        Some(rest)
    } else {
        None
    }
}

/// Whether the line parts two documents.
#[tactic(auto, unfolding(yaml_inline::specs::File::is_parting, yaml_inline::specs::File::ends_line))]
pub fn is_parting(line: &Line<'_>) -> bool
    ensures { result ≡ file.is_parting (line_view line.now) }
{
    match after_three('-', line.text) {
        None => false,
        Some(rest) => ends_line(rest),
    }
}

fn ends_sign(sign: char, text: &[char]) -> bool
    ensures { result ≡ file.blank_or_end (file.after_three sign text.now) }
{
    match after_three(sign, text) {
        None => false,
        Some(rest) => blank_or_end(rest),
    }
}

/// Whether the line begins with a marker that is left out.
#[tactic(auto, unfolding(yaml_inline::specs::File::is_marker))]
pub fn is_marker(line: &Line<'_>) -> bool
    ensures { result ≡ file.is_marker (line_view line.now) }
{
    (ends_sign('-', line.text) || ends_sign('.', line.text)) && !is_parting(line)
}

/// Whether the line is refused for its start whatever else it has.
#[tactic(auto, unfolding(yaml_inline::specs::Line::bad_start))]
pub fn has_bad_start(line: &Line<'_>) -> bool
    ensures { result ≡ is_some (spec.bad_start (line_view line.now)) }
{
    is_marker(line) || begins('\t', body(line))
}

/// Why nothing may stand on the line.
#[tactic(auto, unfolding(yaml_inline::specs::Line::unexpected, yaml_inline::specs::Line::bad_start))]
pub fn unexpected(line: &Line<'_>) -> Halt
    ensures { halt_view result ≡ Some (spec.unexpected (line_view line.now)) }
{
    if is_marker(line) {
        return refused(Code::UNSUPPORTED, line, line.text);
    }
    if !begins('\t', body(line)) {
        return no_reading(line);
    }
    let place = Place {
        line: line.number,
        column: indent(line) as u32 + 1,
    };
    Halt::Refused(Code::TAB, place)
}

/// Nothing more may stand on these lines.
#[tactic(auto, using(crate::proofs::Turns::nothing_comment, crate::proofs::Turns::nothing_unexpected, crate::proofs::Turns::nothing_end, yaml_inline::proofs::Failing::fails_as))]
pub fn nothing_in(lines: &[Line<'_>]) -> Result<(), Halt>
    ensures { Gives done result (blocks.nothing_in (lines_view lines.now)) }
{
    for line in lines {
        if !is_comment(line) {
            return Err(unexpected(line));
        }
    }
    Ok(())
}

/// What follows the first lines.
pub fn lines_behind<'a, 't>(lines: &'a [Line<'t>], count: usize) -> &'a [Line<'t>]
    requires { count ≤ length lines.now }
    ensures { result.now ≡ drop count lines.now }
{
    lines.split_at(count).1
}
