//! The code and the place with which a line of a document is refused.

ghost use Rattle.std.specs.Prelude.{◌≡◌, ◌≤◌, suc, not, ◌==◌, length, option_map};
ghost use Rattle.std.specs.List.{list_any, list_all, prefix_len};
ghost use Rattle.yaml_tree.specs.View.{place_view};
ghost use Rattle.yaml_inline.specs.File as file;
ghost use Rattle.yaml_inline.specs.View.{line_view, openings_view, halt_view};
ghost use Rattle.yaml_blocks.specs.Documents as spec;
ghost use Rattle.yaml_blocks.specs.Views.{lines_view};
ghost use Rattle.yaml_documents.specs.Views.{code_view};

use sig_base::{Code, Place};
use yaml_blocks::lines::{is_comment, is_marker};
use yaml_inline::{Halt, Line, Opening};

/// Whether no text has the character.
pub fn is_forbidden(c: char) -> bool
    ensures { result ≡ file.is_forbidden c }
{
    c < ' ' && c != '\t' || c == '\u{7F}'
}

/// How many characters stand before the first that no text has.
fn before_forbidden(text: &[char]) -> usize
    ensures count { result ≡ prefix_len (λ d. not (file.is_forbidden d)) text.now }
    ensures within { result ≤ length text.now }
{
    text.iter().take_while(|c| !is_forbidden(**c)).count()
}

/// Whether a document may have the line.
pub fn is_regular(line: &Line<'_>) -> bool
    ensures { result ≡ spec.is_regular (line_view line.now) }
{
    !is_marker(line) && !has_forbidden(line.text)
}

/// Goes through all characters, since a loop without an exit tests several of them at once.
fn has_forbidden(text: &[char]) -> bool
    ensures { result ≡ list_any file.is_forbidden text.now }
{
    let mut found = false;
    for c in text {
        found = found | is_forbidden(*c);
    }
    found
}

/// Whether a document may have all these lines.
#[tactic(auto, using(crate::proofs::Walks::regular_more, crate::proofs::Walks::regular_here, crate::proofs::Walks::regular_end))]
pub fn are_regular(lines: &[Line<'_>]) -> bool
    ensures { result ≡ list_all spec.is_regular (lines_view lines.now) }
{
    for line in lines {
        if !is_regular(line) {
            return false;
        }
    }
    true
}

/// Whether the place lies before the line's first character that no text has.
fn is_before_forbidden(line: &Line<'_>, place: Place) -> bool
    ensures { result ≡ spec.is_before_forbidden (line_view line.now) (place_view place) }
{
    let before = before_forbidden(line.text);
    place.column as usize <= before
}

/// Whether the character stands in one of these lines.
#[tactic(auto, using(crate::proofs::Walks::closes_more, crate::proofs::Walks::closes_here, crate::proofs::Walks::closes_end))]
fn closes_later(closing: char, later: &[Line<'_>]) -> bool
    ensures { result ≡ spec.closes_later closing (lines_view later.now) }
{
    for line in later {
        if has(line.text, closing) {
            return true;
        }
    }
    false
}

fn has(text: &[char], closing: char) -> bool
    ensures { result ≡ list_any (λ d. d == closing) text.now }
{
    text.iter().any(|c| *c == closing)
}

/// The code and the place with which a line is refused where the reading stops so, before these lines.
pub fn stop_code(line: &Line<'_>, later: &[Line<'_>], halt: &Halt) -> Option<(Code, Place)>
    ensures { option_map code_view result ≡ option_map (spec.stop_code (line_view line.now) (lines_view later.now)) (halt_view halt.now) }
{
    match halt {
        Halt::Memory => None,
        Halt::Refused(code, place) => {
            if is_before_forbidden(line, *place) {
                Some((*code, *place))
            } else {
                Some(syntax_code(line))
            }
        }
        Halt::Unclosed(_, openings) => Some(first_open(line, later, openings)),
    }
}

fn syntax_code(line: &Line<'_>) -> (Code, Place)
    ensures { code_view result ≡ spec.syntax_code (line_view line.now) }
{
    let place = Place {
        line: line.number,
        column: 1,
    };
    (Code::SYNTAX, place)
}

#[tactic(auto, using(crate::proofs::Walks::open_more, crate::proofs::Walks::open_here, crate::proofs::Walks::open_end))]
/// The outermost opening whose closing character stands in a later line, or no reading.
fn first_open(line: &Line<'_>, later: &[Line<'_>], openings: &[Opening]) -> (Code, Place)
    ensures { code_view result ≡ spec.first_open (line_view line.now) (openings_view openings.now) (lines_view later.now) }
{
    for opening in openings {
        if is_before_forbidden(line, opening.place) && closes_later(opening.closing, later) {
            return (Code::UNSUPPORTED, opening.place);
        }
    }
    syntax_code(line)
}
