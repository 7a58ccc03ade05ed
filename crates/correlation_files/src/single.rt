//! One document of a rule file.

ghost use Rattle.correlation_files.specs.Accepted.{Gives, IsReadCorrelation};
ghost use Rattle.correlation_files.specs.Outcomes.{is_correlation, IsTreeOutcome, IsOutcome};
ghost use Rattle.correlation_files.specs.Read.{ForDocument};
ghost use Rattle.correlation_read.specs.Checks.{correlation_refusal};
ghost use Rattle.pipeline_run.specs.Chained.{Makes};
ghost use Rattle.rule_regex.specs.ForUnbuilt.{ForItems, ForUnbuilt, is_answered};
ghost use Rattle.sig_base.specs.Judged.{Judged};
ghost use Rattle.std.specs.Prelude.{false};
ghost use Rattle.yaml_documents.specs.Given.{IsPlain};
ghost use Rattle.yaml_tree.specs.View.{node_view, document_view};

use crate::accepted::Accepted;
use crate::ready_rules::ready_chained;
use correlation_read::Correlation;
use event_schema::Schema;
use pipeline_model::Pipeline;
use query_lang::Builder;
use rule_model::Rule;
use rule_regex::find_unbuilt;
use sig_base::{Fault, Limits, Place, refused};
use std::alloc::Global;
use yaml_tree::{Document, Node, has_key};

/// Reads the correlation that a tree is.
fn read_correlation(alloc: Global, node: &Node) -> Result<Accepted, Fault>
    ensures { Judged (IsReadCorrelation (node_view node.now)) (correlation_refusal (node_view node.now)) result }
{
    correlation_read::bounds_are_within();
    match Correlation::read(alloc, node) {
        Ok(correlation) => Ok(Accepted::Correlation(correlation)),
        Err(fault) => Err(fault),
    }
}

/// Reads the rule that a tree is, and makes the one ready that pipelines make of it.
fn read_rule<B: Builder>(
    alloc: Global,
    limits: &Limits,
    pipelines: &[Pipeline],
    schema: &Schema,
    unbuilt: &[Place],
    node: &Node,
    builder: &mut B,
) -> Result<Accepted, Fault>
    ensures { ForItems (Makes limits.now pipelines.now) (node_view node.now) unbuilt.now (B.refused builder.old) (B.refused builder.new)
        (λ places. Gives (IsTreeOutcome false limits.now pipelines.now schema.now places (node_view node.now)) schema.now result) }
{
    pipeline_run::heads_are_kept();
    match Rule::read_lone(alloc, limits, unbuilt, node) {
        Ok(rule) => ready_chained(alloc, limits, pipelines, schema, rule, builder),
        Err(fault) => Err(fault),
    }
}

/// Reads a tree, where the places are found at which the regular expressions of values aren't built.
fn read_found<B: Builder>(
    alloc: Global,
    limits: &Limits,
    pipelines: &[Pipeline],
    schema: &Schema,
    unbuilt: &[Place],
    node: &Node,
    builder: &mut B,
) -> Result<Accepted, Fault>
    ensures { ForItems (Makes limits.now pipelines.now) (node_view node.now) unbuilt.now (B.refused builder.old) (B.refused builder.new)
        (λ places. Gives (IsTreeOutcome (is_correlation (node_view node.now)) limits.now pipelines.now schema.now places (node_view node.now)) schema.now result) }
{
    if has_key(node, "correlation") {
        return read_correlation(alloc, node);
    }
    read_rule(alloc, limits, pipelines, schema, unbuilt, node, builder)
}

/// Reads a tree, whose regular expressions are built first.
fn read_tree<B: Builder>(
    alloc: Global,
    limits: &Limits,
    pipelines: &[Pipeline],
    schema: &Schema,
    node: &Node,
    builder: &mut B,
) -> Result<Accepted, Fault>
    ensures { ForUnbuilt (Makes limits.now pipelines.now) limits.now (node_view node.now) (B.refused builder.old) (B.refused builder.new) (is_answered result)
        (λ places. Gives (IsTreeOutcome (is_correlation (node_view node.now)) limits.now pipelines.now schema.now places (node_view node.now)) schema.now result) }
{
    match find_unbuilt(alloc, limits, node, builder) {
        Ok(unbuilt) => read_found(
            alloc,
            limits,
            pipelines,
            schema,
            unbuilt.as_slice(),
            node,
            builder,
        ),
        Err(fault) => Err(fault),
    }
}

/// Reads what a document is, or hands YAML's refusal on.
pub(crate) fn read_document<B: Builder>(
    alloc: Global,
    limits: &Limits,
    pipelines: &[Pipeline],
    schema: &Schema,
    document: &Document,
    builder: &mut B,
) -> Result<Accepted, Fault>
    requires { IsPlain document.now }
    ensures { ForDocument limits.now pipelines.now (document_view document.now) (B.refused builder.old) (B.refused builder.new) (is_answered result)
        (λ places. Gives (IsOutcome limits.now pipelines.now schema.now (places, document_view document.now)) schema.now result) }
{
    match document {
        Document::Tree(node) => read_tree(alloc, limits, pipelines, schema, node, builder),
        Document::Refused(cause) => Err(refused(cause.code, cause.place)),
    }
}
