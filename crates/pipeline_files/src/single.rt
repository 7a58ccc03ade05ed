//! One document of a file of pipelines.

ghost use Rattle.pipeline_files.specs.Gathered.{ForDocument, Gives};
ghost use Rattle.rule_regex.specs.ForUnbuilt.{is_answered};
ghost use Rattle.yaml_documents.specs.Given.{IsPlain};
ghost use Rattle.yaml_tree.specs.Tree.{tree};
ghost use Rattle.yaml_tree.specs.View.{node_view, document_view};

use crate::unbuilt::find_unbuilt;
use pipeline_model::Pipeline;
use query_lang::Builder;
use sig_base::{Fault, Limits, refused};
use std::alloc::Global;
use yaml_tree::{Document, Node};

/// Reads the pipeline that a tree is, whose regular expressions are built first.
fn read_tree<B: Builder>(
    alloc: Global,
    limits: &Limits,
    node: &Node,
    builder: &mut B,
) -> Result<Pipeline, Fault>
    ensures { ForDocument limits.now (tree (node_view node.now)) (B.refused builder.old) (B.refused builder.new) (is_answered result)
        (λ unbuilt. Gives unbuilt.values limits.now (tree (node_view node.now)) result) }
{
    match find_unbuilt(alloc, limits, node, builder) {
        Ok(unbuilt) => Pipeline::read(alloc, limits, unbuilt.as_slice(), node),
        Err(fault) => Err(fault),
    }
}

/// Reads the pipeline that a document is, or hands YAML's refusal on.
pub(crate) fn read_document<B: Builder>(
    alloc: Global,
    limits: &Limits,
    document: &Document,
    builder: &mut B,
) -> Result<Pipeline, Fault>
    requires { IsPlain document.now }
    ensures { ForDocument limits.now (document_view document.now) (B.refused builder.old) (B.refused builder.new) (is_answered result)
        (λ unbuilt. Gives unbuilt.values limits.now (document_view document.now) result) }
{
    match document {
        Document::Tree(node) => read_tree(alloc, limits, node, builder),
        Document::Refused(cause) => Err(refused(cause.code, cause.place)),
    }
}
