//! A file (YAML 1.2, 9.2): the answer to each of its documents, or the file's own refusal.

ghost use Rattle.std.specs.Prelude.{◌≡◌, ◌≤◌, ◌*◌, IfOk, IfErr};
ghost use Rattle.std.specs.List.{All};
ghost use Rattle.sig_base.specs.declared.refusal.Fault.TheVariants.{Memory};
ghost use Rattle.yaml_blocks.specs.Documents.{AreAnswers};
ghost use Rattle.yaml_documents.specs.Nodes.{all_nodes};
ghost use Rattle.yaml_documents.specs.Call.{IsTaken, IsCallRefusal};
ghost use Rattle.yaml_documents.specs.Views.{documents_view, IfRefused};
ghost use Rattle.yaml_documents.specs.Rows.{AreDocuments};
ghost use Rattle.yaml_documents.specs.Given.{answers_view, IsPlain};

use crate::bounds::nodes_are_few;
use crate::document::read_document;
use crate::documents::documents_in;
use crate::lines::lines_of;
use crate::text::characters;
use sig_base::{Fault, Limits};
use std::alloc::Global;
use yaml_inline::Line;
use yaml_tree::Document;

/// The answer to each document with content of a file, in their order. The call itself refuses a file
/// that is too large, isn't UTF-8, or has too many documents: 2, 1 and 7.
pub fn read_documents(alloc: Global, limits: &Limits, bytes: &[u8]) -> Result<Vec<Document>, Fault>
    ensures taken { IfOk result (λ ds. IsTaken limits.now.file_bytes limits.now.documents limits.now.yaml_depth bytes.now (answers_view ds.items)) }
    ensures plain { IfOk result (λ ds. All IsPlain ds.items) }
    // the trees of a file have no more nodes than this, all together
    ensures few { IfOk result (λ ds. all_nodes (answers_view ds.items) ≤ 2 * limits.now.file_bytes) }
    ensures refused { IfErr result (λ e. IfRefused e (IsCallRefusal limits.now.file_bytes limits.now.documents bytes.now)) }
{
    nodes_are_few();
    read_file(alloc, limits, bytes)
}

fn read_file(alloc: Global, limits: &Limits, bytes: &[u8]) -> Result<Vec<Document>, Fault>
    ensures taken { IfOk result (λ ds. IsTaken limits.now.file_bytes limits.now.documents limits.now.yaml_depth bytes.now (answers_view ds.items)) }
    ensures plain { IfOk result (λ ds. All IsPlain ds.items) }
    ensures refused { IfErr result (λ e. IfRefused e (IsCallRefusal limits.now.file_bytes limits.now.documents bytes.now)) }
{
    let text = characters(alloc, limits.file_bytes, bytes)?;
    let lines = lines_of(alloc, &text)?;
    let documents = documents_in(alloc, limits.documents, &lines)?;
    read_each(alloc, limits.yaml_depth, &documents)
}

/// The answer to each document.
fn read_each(alloc: Global, depth: usize, documents: &[&[Line<'_>]]) -> Result<Vec<Document>, Fault>
    requires { AreDocuments (documents_view documents.now) }
    ensures answers { IfOk result (λ ds. AreAnswers depth (documents_view documents.now) (answers_view ds.items)) }
    ensures plain { IfOk result (λ ds. All IsPlain ds.items) }
    ensures memory { IfErr result (λ e. e ≡ Memory) }
{
    let mut answers = Vec::new(alloc);
    for document in documents {
        answers.push(read_document(alloc, depth, document)?)?;
    }
    Ok(answers)
}
