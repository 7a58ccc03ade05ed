//! Which lines stand inside an item of a block.

ghost use Rattle.std.specs.Prelude.{◌≡◌, ◌≤◌, true, length, take, drop, MatchOption};
ghost use Rattle.std.specs.List.{prefix_len};
ghost use Rattle.yaml_inline.specs.File as file;
ghost use Rattle.yaml_inline.specs.View.{line_view};
ghost use Rattle.yaml_blocks.specs.Blocks as spec;
ghost use Rattle.yaml_blocks.specs.Reading as reading;
ghost use Rattle.yaml_blocks.specs.Views.{lines_view};
ghost use Rattle.yaml_blocks.specs.Items.{IsContent};

use crate::lines::{indent, is_comment};
use yaml_inline::Line;
use yaml_inline::scan::{behind, carries_nothing, count_blanks, is_dash, skip_blanks};

/// How many lines that carry nothing come first.
#[tactic(auto, using(crate::proofs::Fronts::front_more, crate::proofs::Fronts::front_stop, crate::proofs::Fronts::front_end))]
pub fn count_comments(lines: &[Line<'_>]) -> usize
    ensures rest { lines_view (drop result lines.now) ≡ spec.skip_comments (lines_view lines.now) }
    ensures within { result ≤ length lines.now }
{
    for at in 0..lines.len() {
        if !is_comment(&lines[at]) {
            return at;
        }
    }
    lines.len()
}

/// Whether a line stands inside the item above it, of a block at this indentation.
#[tactic(auto, unfolding(yaml_inline::specs::Line::indent, yaml_inline::specs::Line::body), using(crate::proofs::Inner::deeper))]
fn is_inside(in_map: bool, level: usize, line: &Line<'_>) -> bool
    ensures { result ≡ spec.inside in_map level (line_view line.now) }
{
    let indent = indent(line);
    if level < indent {
        return true;
    }
    is_comment(line) || in_map && indent == level && is_dash(behind(line.text, indent))
}

/// How many of the lines behind an item stand inside it.
#[tactic(auto, using(crate::proofs::Fronts::front_more, crate::proofs::Fronts::front_stop, crate::proofs::Fronts::front_end))]
fn count_inside(in_map: bool, level: usize, lines: &[Line<'_>]) -> usize
    ensures front { lines_view (take result lines.now) ≡ spec.front_while (spec.inside in_map level) (lines_view lines.now) }
    ensures rest { lines_view (drop result lines.now) ≡ spec.rest_while (spec.inside in_map level) (lines_view lines.now) }
    ensures within { result ≤ length lines.now }
{
    for at in 0..lines.len() {
        if !is_inside(in_map, level, &lines[at]) {
            return at;
        }
    }
    lines.len()
}

/// The lines behind an item that stand inside it.
pub fn lines_inside<'a, 't>(in_map: bool, level: usize, lines: &'a [Line<'t>]) -> &'a [Line<'t>]
    ensures front { lines_view result.now ≡ spec.front_while (spec.inside in_map level) (lines_view lines.now) }
    ensures rest { lines_view (drop (length result.now) lines.now) ≡ spec.rest_while (spec.inside in_map level) (lines_view lines.now) }
    ensures within { length result.now ≤ length lines.now }
{
    let count = count_inside(in_map, level, lines);
    lines.split_at(count).0
}

/// How many characters of a line stand before what is left of it.
pub fn offset(line: &Line<'_>, rest: &[char]) -> usize
    requires { length rest.now ≤ length line.now.text.now }
    ensures offset { result ≡ reading.offset (line_view line.now) rest.now }
    ensures within { result ≤ length line.now.text.now }
{
    line.text.len() - rest.len()
}

/// Whether only spaces come before what isn't blank.
pub fn after_spaces(rest: &[char]) -> bool
    ensures { result ≡ reading.after_spaces rest.now }
{
    count_blanks(rest) == count_spaces(rest)
}

fn count_spaces(rest: &[char]) -> usize
    ensures { result ≡ prefix_len file.is_space rest.now }
{
    rest.iter().take_while(|c| **c == ' ').count()
}

/// What stands behind blanks; nothing where the line ends or a comment begins there.
#[tactic(auto, using(crate::proofs::Contents::content_is))]
pub fn content_of(rest: &[char]) -> Option<&[char]>
    ensures { MatchOption result (file.carries_nothing rest.now ≡ true) (λ next. IsContent rest.now next.now) }
{
    if carries_nothing(rest) {
        None
    } else {
        Some(skip_blanks(rest))
    }
}
