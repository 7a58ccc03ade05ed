//! The documents of a file (YAML 1.2, 9.1).

ghost use Rattle.std.specs.Prelude.{◌≡◌, ◌≤◌, ◌++◌, ◌∷◌, [], not, length, take, vec_len, IfOk, IfErr, OnOk, option_map};
ghost use Rattle.std.specs.List.{prefix_len};
ghost use Rattle.yaml_tree.specs.View.{place_view};
ghost use Rattle.yaml_inline.specs.File as file;
ghost use Rattle.yaml_inline.specs.View.{line_view};
ghost use Rattle.yaml_blocks.specs.Blocks.{skip_comments};
ghost use Rattle.yaml_blocks.specs.Views.{lines_view};
ghost use Rattle.yaml_documents.specs.Call as call;
ghost use Rattle.yaml_documents.specs.Views.{documents_view, first_place, IsOneMore, IfRefused};

use crate::refusal::refused;
use sig_base::{Code, Fault, Place};
use std::alloc::Global;
use yaml_blocks::lines::{is_comment, is_parting, lines_behind};
use yaml_inline::Line;

/// The documents with content, in their order, of which there are at most `most`.
#[tactic(auto, using(crate::proofs::Parts::one_more, crate::proofs::Parts::none_left))]
pub fn documents_in<'a, 't>(
    alloc: Global,
    most: usize,
    lines: &'a [Line<'t>],
) -> Result<Vec<&'a [Line<'t>]>, Fault>
    ensures documents { IfOk result (λ ds. documents_view ds.items ≡ file.with_content (file.parted (lines_view lines.now))) }
    ensures few { IfOk result (λ ds. vec_len ds ≤ most) }
    ensures refused { IfErr result (λ e. IfRefused e (call.IsTooMany most (file.with_content (file.parted (lines_view lines.now))))) }
{
    let mut documents = Vec::new(alloc);
    let mut at = 0;
    while at < lines.len() {
        let document = first_document(lines_behind(lines, at));
        add_document(&mut documents, most, document)?;
        at += document.len() + 1;
    }
    Ok(documents)
}

/// Adds a document that has content, unless there are enough.
#[tactic(auto, using(crate::proofs::Parts::passed_over, crate::proofs::Parts::kept_whole))]
fn add_document<'a, 't>(
    documents: &mut Vec<&'a [Line<'t>]>,
    most: usize,
    document: &'a [Line<'t>],
) -> Result<(), Fault>
    requires { vec_len documents.old ≤ most }
    ensures added { OnOk result (documents_view documents.new.items ≡ documents_view documents.old.items ++ file.with_content (lines_view document.now ∷ [])) }
    ensures few { OnOk result (vec_len documents.new ≤ most) }
    ensures refused { IfErr result (λ e. IfRefused e (IsOneMore most (vec_len documents.old) (lines_view document.now))) }
{
    match first_content(document) {
        None => Ok(()),
        Some(place) => {
            if documents.len() == most {
                return Err(refused(Code::TOO_MANY_DOCUMENTS, place));
            }
            documents.push(document)?;
            Ok(())
        }
    }
}

/// The lines before the first that parts documents.
fn first_document<'a, 't>(lines: &'a [Line<'t>]) -> &'a [Line<'t>]
    ensures front { result.now ≡ take (prefix_len (λ l. not (file.is_parting (line_view l))) lines.now) lines.now }
    ensures within { length result.now ≤ length lines.now }
{
    lines.split_at(document_len(lines)).0
}

fn document_len(lines: &[Line<'_>]) -> usize
    ensures len { result ≡ prefix_len (λ l. not (file.is_parting (line_view l))) lines.now }
    ensures within { result ≤ length lines.now }
{
    lines.iter().take_while(|line| !is_parting(line)).count()
}

/// Column 1 of the first line with content.
#[tactic(auto, using(crate::proofs::Parts::content_comment, crate::proofs::Parts::content_here, crate::proofs::Parts::content_none))]
fn first_content(lines: &[Line<'_>]) -> Option<Place>
    ensures { option_map place_view result ≡ first_place (skip_comments (lines_view lines.now)) }
{
    for line in lines {
        if !is_comment(line) {
            return Some(Place {
                line: line.number,
                column: 1,
            });
        }
    }
    None
}
