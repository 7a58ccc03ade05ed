//! Answering rule files, document by document.

ghost use Rattle.std.specs.Prelude.{◌≡◌, ◌||◌, ◌∷◌, [], List};
ghost use Rattle.std.specs.List.{All};
ghost use Rattle.answer_writer.specs.Stands.{Writes};
ghost use Rattle.pipeline_model.specs.declared.pipeline.Pipeline.{Pipeline};
ghost use Rattle.rule_regex.specs.Unbuilt.{Unbuilt};
ghost use Rattle.sig_base.specs.declared.limits.Limits.{Limits as LimitsData};
ghost use Rattle.sigma_serve.specs.Reports.{refusal_share};
ghost use Rattle.sigma_serve.specs.RuleFiles.{ByUnbuilt, BySome, DocumentsBySome, FileBySome};
ghost use Rattle.sigma_serve.specs.Laws.{EachTree, EachFile};
ghost use Rattle.sigma_serve.specs.UnderSchema.{is_ended};
ghost use Rattle.yaml_documents.specs.Given.{IsPlain, answers_view};
ghost use Rattle.yaml_tree.specs.View.{node_view, document_view};

use crate::report::refusal_text;
use answer_writer::{Outside, Stop, either, tell_diagnostic};
use query_lang::Builder;
use sig_base::{Fault, Limits, Refusal, Text};
use std::alloc::Global;
use yaml_documents::read_documents;
use yaml_tree::{Document, Node};

/// A command that answers each document of rule files by its tree.
pub(super) trait TreeCommand {
    ghost gives: { Self → LimitsData → ByUnbuilt };

    /// What makes rules of those that documents are.
    ghost pipelines: { Self → List Pipeline };

    /// What has to be so of the command.
    ghost stands: { Self → Type 0 };

    /// Answers a tree, and tells whether it is refused; regular expressions are built by the builder.
    fn answer<W: Outside, B: Builder>(
        &self,
        alloc: Global,
        limits: &Limits,
        name: &Text,
        node: &Node,
        outside: &mut W,
        builder: &mut B,
    ) -> Result<bool, Stop>
        requires { stands self.now }
        ensures { Writes (BySome (gives self.now limits.now) limits.now (pipelines self.now) (B.refused builder.old) (B.refused builder.new) (is_ended result) name.now (node_view node.now)) result (W.state outside.old) (W.state outside.new) };

    /// Each tree has an answer.
    fn each_tree(&self)
        ensures { (limits : LimitsData) (unbuilt : Unbuilt) → EachTree (gives self.now limits unbuilt) };
}

/// Answers the documents of a file in their order, or refuses the file as one; tells whether something was refused.
pub(super) fn answer_bytes<T: TreeCommand, W: Outside, B: Builder>(
    alloc: Global,
    command: &T,
    limits: &Limits,
    name: &Text,
    bytes: &[u8],
    outside: &mut W,
    builder: &mut B,
) -> Result<bool, Stop>
    requires { T.stands command.now }
    ensures { Writes (FileBySome (T.gives command.now limits.now) limits.now (T.pipelines command.now) (B.refused builder.old) (B.refused builder.new) (is_ended result) name.now bytes.now) result (W.state outside.old) (W.state outside.new) }
{
    each_file(command);
    yaml_documents::laws::verdicts();
    yaml_documents::laws::one_verdict();
    match read_documents(alloc, limits, bytes) {
        Ok(documents) => answer_documents(
            alloc,
            command,
            limits,
            name,
            documents.as_slice(),
            outside,
            builder,
        ),
        Err(Fault::Refused(refusal)) => put_refusal(alloc, name, &refusal, outside),
        Err(Fault::Memory) => Err(Stop::Memory),
    }
}

/// Each file has an answer, for any places.
pub(super) fn each_file<T: TreeCommand>(command: &T)
    ensures { (limits : LimitsData) → EachFile (T.gives command.now limits) }
{
    command.each_tree();
    yaml_documents::laws::verdicts();
}

fn answer_documents<T: TreeCommand, W: Outside, B: Builder>(
    alloc: Global,
    command: &T,
    limits: &Limits,
    name: &Text,
    documents: &[Document],
    outside: &mut W,
    builder: &mut B,
) -> Result<bool, Stop>
    requires plain { All IsPlain documents.now }
    requires stands { T.stands command.now }
    ensures { Writes (DocumentsBySome (T.gives command.now limits.now) limits.now (T.pipelines command.now) (B.refused builder.old) (B.refused builder.new) (is_ended result) name.now (answers_view documents.now)) result (W.state outside.old) (W.state outside.new) }
{
    command.each_tree();
    let mut found = false;
    for document in documents {
        match answer_document(alloc, command, limits, name, document, outside, builder) {
            Ok(refused) => found = either(found, refused),
            Err(stop) => return Err(stop),
        }
    }
    Ok(found)
}

fn answer_document<T: TreeCommand, W: Outside, B: Builder>(
    alloc: Global,
    command: &T,
    limits: &Limits,
    name: &Text,
    document: &Document,
    outside: &mut W,
    builder: &mut B,
) -> Result<bool, Stop>
    requires plain { IsPlain document.now }
    requires stands { T.stands command.now }
    ensures { Writes (DocumentsBySome (T.gives command.now limits.now) limits.now (T.pipelines command.now) (B.refused builder.old) (B.refused builder.new) (is_ended result) name.now (document_view document.now ∷ [])) result (W.state outside.old) (W.state outside.new) }
{
    match document {
        Document::Tree(node) => command.answer(alloc, limits, name, node, outside, builder),
        Document::Refused(refusal) => put_refusal(alloc, name, refusal, outside),
    }
}

/// Writes the diagnostic about a refusal, and tells that something was refused.
pub(super) fn put_refusal<W: Outside>(
    alloc: Global,
    name: &Text,
    refusal: &Refusal,
    outside: &mut W,
) -> Result<bool, Stop>
    ensures { Writes (λ share. share ≡ refusal_share name.now refusal.now) result (W.state outside.old) (W.state outside.new) }
{
    match refusal_text(alloc, name, refusal) {
        Ok(line) => tell_diagnostic(line.as_bytes(), outside),
        Err(_) => Err(Stop::Memory),
    }
}
