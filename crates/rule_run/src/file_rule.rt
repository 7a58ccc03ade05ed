//! Reading the one rule of a file.

ghost use Rattle.std.specs.List.{All};
ghost use Rattle.std.specs.Prelude.{Option};
ghost use Rattle.event_schema.specs.declared.schema.Schema.{Schema};
ghost use Rattle.rule_regex.specs.ForUnbuilt.{is_answered};
ghost use Rattle.rule_head.specs.Heads.{rest_of};
ghost use Rattle.rule_model.specs.Plain.{rule_view, rule_with};
ghost use Rattle.rule_model.specs.Rules.{IsRule, lone_refusal};
ghost use Rattle.rule_run.specs.Answers.{Answers, ForTree, ForDocuments, ForValues, IsBare};
ghost use Rattle.rule_run.specs.Runs.{IsOnly, IsNoneOnly, IsSingleRule, IsNoSingleRule, IsMadeRule, IsNoMadeRule, IsFilledRule, IsUnfit};
ghost use Rattle.sig_base.specs.Judged.{Judged};
ghost use Rattle.yaml_documents.specs.Given.{IsPlain, answers_view};
ghost use Rattle.yaml_tree.specs.View.{node_view};

use crate::single::single_node;
use pipeline_model::Pipeline;
use pipeline_run::run_pipelines;
use query_lang::Builder;
use rule_model::Rule;
use rule_regex::find_unbuilt;
use rule_schema::check_filled;
use sig_base::{Fault, Limits};
use std::alloc::Global;
use yaml_documents::read_documents;
use yaml_tree::{Document, Node};

/// Reads the rule that a document is, whose regular expressions are built first.
fn read_node<B: Builder>(
    alloc: Global,
    limits: &Limits,
    node: &Node,
    builder: &mut B,
) -> Result<Rule, Fault>
    ensures { ForTree limits.now (node_view node.now) (B.refused builder.old) (B.refused builder.new) (is_answered result)
        (λ values. Judged (λ r. IsRule (node_view node.now) (rule_with (rest_of (node_view node.now)) (rule_view r))) (lone_refusal values limits.now (node_view node.now)) result) }
{
    match find_unbuilt(alloc, limits, node, builder) {
        Ok(unbuilt) => Rule::read_lone(alloc, limits, unbuilt.as_slice(), node),
        Err(fault) => Err(fault),
    }
}

/// Reads the rule that these documents are.
fn read_only<B: Builder>(
    alloc: Global,
    limits: &Limits,
    documents: &[Document],
    builder: &mut B,
) -> Result<Rule, Fault>
    requires { All IsPlain documents.now }
    ensures { ForDocuments limits.now (answers_view documents.now) (B.refused builder.old) (B.refused builder.new) (is_answered result)
        (λ values. Answers (IsBare (IsOnly values limits.now (answers_view documents.now))) (IsNoneOnly values limits.now (answers_view documents.now)) result) }
{
    match single_node(documents) {
        Ok(node) => read_node(alloc, limits, node, builder),
        Err(refusal) => Err(Fault::Refused(refusal)),
    }
}

/// Reads the rule that a file is. It's refused 2, 1 or 7 as a whole, 84 where it hasn't exactly one document, or else as its document is:
/// by YAML, 146 as a correlation, or as a rule.
fn read_single_rule<B: Builder>(
    alloc: Global,
    limits: &Limits,
    bytes: &[u8],
    builder: &mut B,
) -> Result<Rule, Fault>
    ensures { ForValues limits.now bytes.now (B.refused builder.old) (B.refused builder.new) (is_answered result)
        (λ values. Answers (IsBare (IsSingleRule values limits.now bytes.now)) (IsNoSingleRule values limits.now bytes.now) result) }
{
    yaml_documents::laws::verdicts();
    yaml_documents::laws::one_verdict();
    match read_documents(alloc, limits, bytes) {
        Ok(documents) => read_only(alloc, limits, documents.as_slice(), builder),
        Err(fault) => Err(fault),
    }
}

/// The rule that pipelines make of the one that a file is, refused as that one is and then as the pipelines refuse it.
fn read_made_rule<B: Builder>(
    alloc: Global,
    limits: &Limits,
    pipelines: &[Pipeline],
    bytes: &[u8],
    builder: &mut B,
) -> Result<Rule, Fault>
    ensures { ForValues limits.now bytes.now (B.refused builder.old) (B.refused builder.new) (is_answered result)
        (λ values. Answers (IsBare (IsMadeRule values limits.now pipelines.now bytes.now)) (IsNoMadeRule values limits.now pipelines.now bytes.now) result) }
{
    pipeline_run::heads_are_kept();
    match read_single_rule(alloc, limits, bytes, builder) {
        Ok(rule) => run_pipelines(alloc, limits, pipelines, rule),
        Err(fault) => Err(fault),
    }
}

/// The same, where a rule of which a placeholder stands open is refused 98 at the item.
pub(crate) fn read_filled_rule<B: Builder>(
    alloc: Global,
    limits: &Limits,
    pipelines: &[Pipeline],
    bytes: &[u8],
    builder: &mut B,
) -> Result<Rule, Fault>
    ensures { ForValues limits.now bytes.now (B.refused builder.old) (B.refused builder.new) (is_answered result)
        (λ values. Answers (IsBare (IsFilledRule values limits.now pipelines.now bytes.now)) (λ r. (given : Option Schema) → IsUnfit values limits.now pipelines.now given bytes.now r) result) }
{
    let rule = match read_made_rule(alloc, limits, pipelines, bytes, builder) {
        Ok(rule) => rule,
        Err(fault) => return Err(fault),
    };
    match check_filled(&rule) {
        Ok(()) => Ok(rule),
        Err(open) => Err(Fault::Refused(open)),
    }
}
