//! One document (YAML 1.2, 9.1): its tree, or its refusal.

ghost use Rattle.std.specs.Prelude.{◌≡◌, ◌≤◌, ◌<◌, true, length, option_map, IfOk, IfErr, IfSome, IsSomeAnd};
ghost use Rattle.std.specs.List.{prefix_len};
ghost use Rattle.sig_base.specs.declared.refusal.Fault.TheVariants.{Memory};
ghost use Rattle.yaml_tree.specs.View.{place_view, document_view};
ghost use Rattle.yaml_inline.specs.Line as line_spec;
ghost use Rattle.yaml_inline.specs.View.{line_view, halt_view};
ghost use Rattle.yaml_blocks.specs.Documents as spec;
ghost use Rattle.yaml_blocks.specs.Views.{lines_view};
ghost use Rattle.yaml_documents.specs.Rows.{AreInARow};
ghost use Rattle.yaml_documents.specs.Given.{IsPlain, IsRefused, number_of, HasNumber, IsStopped, IsRefusedBehind};

use crate::codes::{is_regular, stop_code};
use sig_base::{Code, Detail, Fault, Place, Refusal};
use std::alloc::Global;
use yaml_blocks::lines::{is_comment, is_marker, lines_behind};
use yaml_blocks::read_block;
use yaml_inline::{Halt, Line};
use yaml_tree::Document;

/// The answer to a document with content. Its collections nest at most so deep.
pub fn read_document(alloc: Global, depth: usize, lines: &[Line<'_>]) -> Result<Document, Fault>
    requires content { spec.has_content (lines_view lines.now) ≡ true }
    requires numbered { AreInARow (lines_view lines.now) }
    ensures answer { IfOk result (λ d. spec.IsAnswer depth (lines_view lines.now) (document_view d)) }
    ensures plain { IfOk result IsPlain }
    ensures memory { IfErr result (λ e. e ≡ Memory) }
{
    let count = regular_count(lines);
    let (regular, _others) = lines.split_at(count);
    match read_block(alloc, depth, Place::START, regular) {
        Ok(root) => {
            if count == lines.len() {
                return Ok(Document::Tree(root));
            }
            refused_behind(alloc, depth, count.max(comment_count(lines)), lines)
        }
        Err(halt) => stopped(lines, &halt),
    }
}

/// How many lines stand before the first that no document has.
fn regular_count(lines: &[Line<'_>]) -> usize
    ensures count { result ≡ prefix_len (λ l. spec.is_regular (line_view l)) lines.now }
    ensures within { result ≤ length lines.now }
{
    lines.iter().take_while(|line| is_regular(line)).count()
}

/// How many lines stand before the first with content.
fn comment_count(lines: &[Line<'_>]) -> usize
    ensures count { result ≡ prefix_len (λ l. line_spec.is_comment (line_view l)) lines.now }
    ensures within { result ≤ length lines.now }
{
    lines.iter().take_while(|line| is_comment(line)).count()
}

/// The refusal of a document whose reading stops, at the line on which it does.
fn stopped(lines: &[Line<'_>], halt: &Halt) -> Result<Document, Fault>
    requires numbered { AreInARow (lines_view lines.now) }
    requires there { IfSome (halt_view halt.now) (λ s. HasNumber (lines_view lines.now) (number_of s)) }
    ensures refused { IfOk result (λ d. IsSomeAnd (halt_view halt.now) (λ s. IsStopped (lines_view lines.now) s d)) }
    ensures memory { IfErr result (λ e. e ≡ Memory) }
{
    match line_number(halt) {
        None => Err(Fault::Memory),
        Some(number) => {
            let at = (number - lines[0].number) as usize;
            refused_so(&lines[at], lines_behind(lines, at + 1), halt)
        }
    }
}

/// The number of the line on which a reading stops.
fn line_number(halt: &Halt) -> Option<u32>
    ensures { result ≡ option_map number_of (halt_view halt.now) }
{
    match halt {
        Halt::Memory => None,
        Halt::Refused(_, place) => Some(place.line),
        Halt::Unclosed(number, _) => Some(*number),
    }
}

/// The refusal of a document at the line behind so many lines.
fn refused_behind(
    alloc: Global,
    depth: usize,
    count: usize,
    lines: &[Line<'_>],
) -> Result<Document, Fault>
    requires { count < length lines.now }
    ensures refused { IfOk result (IsRefusedBehind depth count (lines_view lines.now)) }
    ensures memory { IfErr result (λ e. e ≡ Memory) }
{
    let line = &lines[count];
    if is_marker(line) {
        return Ok(refusal(Code::UNSUPPORTED, start_of(line)));
    }
    let (through, later) = lines.split_at(count + 1);
    match read_block(alloc, depth, Place::START, through) {
        Ok(_) => Ok(refusal(Code::SYNTAX, start_of(line))),
        Err(halt) => refused_so(line, later, &halt),
    }
}

/// The refusal of a document at a line on which its reading stops.
fn refused_so(line: &Line<'_>, later: &[Line<'_>], halt: &Halt) -> Result<Document, Fault>
    ensures refused { IfOk result (λ d. IsSomeAnd (halt_view halt.now) (λ s. IsRefused (spec.stop_code (line_view line.now) (lines_view later.now) s) d)) }
    ensures memory { IfErr result (λ e. e ≡ Memory) }
{
    match stop_code(line, later, halt) {
        None => Err(Fault::Memory),
        Some(found) => Ok(refusal(found.0, found.1)),
    }
}

/// Column 1 of a line.
fn start_of(line: &Line<'_>) -> Place
    ensures { place_view result ≡ line_spec.at (line_view line.now) 0 }
{
    Place {
        line: line.number,
        column: 1,
    }
}

fn refusal(code: Code, place: Place) -> Document
    ensures { IsRefused (code, place_view place) result }
{
    Document::Refused(Refusal {
        code,
        place,
        detail: Detail::None,
    })
}
