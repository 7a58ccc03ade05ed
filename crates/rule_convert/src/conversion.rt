//! Nodes of documents as rules, and rules as queries.

ghost use Rattle.std.specs.Prelude.{◌≡◌, ◌∷◌, None, option_map};
ghost use Rattle.backend_core.specs.Sound.{IsSound};
ghost use Rattle.backend_core.specs.View.{tree_view};
ghost use Rattle.backend_core.specs.Writing.{write_checks};
ghost use Rattle.event_schema.specs.Lists.{EachOf};
ghost use Rattle.pipeline_run.specs.Chained.{Makes};
ghost use Rattle.pipeline_run.specs.Kept.{IsWholePipeline};
ghost use Rattle.rule_regex.specs.ForUnbuilt.{ForItems, ForUnbuilt, is_answered};
ghost use Rattle.rule_regex.specs.Unbuilt.{unbuilt_refusal};
ghost use Rattle.rule_model.specs.Expressions.{rule_expressions};
ghost use Rattle.rule_schema.specs.Inferred.{fit_refusal, open_refusal};
ghost use Rattle.rule_model.specs.Plain.{rule_view};
ghost use Rattle.rule_model.specs.Whole.{IsWhole};
ghost use Rattle.rule_convert.specs.Queries.{query_of, query_under, query_refusal, filled_checks, checks_under, query_checks};
ghost use Rattle.rule_convert.specs.Rebuilt.{Rebuilt, ForChained};
ghost use Rattle.rule_convert.specs.Verdicts.{ConvertAnswers};
ghost use Rattle.sig_base.specs.Judged.{Judged, first};
ghost use Rattle.yaml_tree.specs.View.{node_view};

use backend_core::{Backend, Tree};
use event_schema::Schema;
use pipeline_model::Pipeline;
use pipeline_run::run_pipelines;
use query_lang::Builder;
use rule_lowering::lower;
use rule_model::Rule;
use rule_regex::{build_items, find_unbuilt};
use rule_schema::{check_filled, fit_indexed, fit_schema, infer_schema};
use sig_base::{Bytes, Fault, Limits, Place};
use std::alloc::Global;
use yaml_tree::Node;

/// The query of a rule that fits the schema. In this order it is refused 110, 48 at an item of which
/// a regular expression isn't built once more, 111, 112 or 113, and 114.
fn write_rule<B: Backend, C: Builder>(
    backend: &B,
    alloc: Global,
    limits: &Limits,
    rule: &Rule,
    schema: &Schema,
    builder: &mut C,
) -> Result<Bytes, Fault>
    requires whole { IsWhole (rule_view rule.now) }
    requires filled { open_refusal (rule_view rule.now) ≡ None }
    requires fits { fit_refusal schema.now (rule_view rule.now) ≡ None }
    ensures { Rebuilt (rule_expressions (rule_view rule.now)) (C.refused builder.old) (C.refused builder.new) (λ unbuilt. Judged (λ bytes. bytes ≡ query_under B.text schema.now (rule_view rule.now)) (first (query_checks B.missing B.text B.too_deep unbuilt limits.now schema.now (rule_view rule.now))) result) }
{
    match lower(alloc, limits, rule, schema) {
        Ok(tree) => write_built(backend, alloc, limits, rule, schema, &tree, builder),
        Err(fault) => Err(fault),
    }
}

/// The query of a rule's tree, where each regular expression of the rule is built once more: 48 at the first item of which one isn't, and
/// then as the backend refuses the tree.
fn write_built<B: Backend, C: Builder>(
    backend: &B,
    alloc: Global,
    limits: &Limits,
    rule: &Rule,
    schema: &Schema,
    tree: &Tree,
    builder: &mut C,
) -> Result<Bytes, Fault>
    requires sound { IsSound schema.now.fields (tree_view tree.now) }
    ensures { Rebuilt (rule_expressions (rule_view rule.now)) (C.refused builder.old) (C.refused builder.new) (λ unbuilt.
        Judged (λ bytes. bytes ≡ B.text schema.now (tree_view tree.now)) (first (unbuilt_refusal unbuilt (rule_expressions (rule_view rule.now))
        ∷ write_checks B.missing B.text B.too_deep limits.now schema.now (tree_view tree.now) (rule_view rule.now).head.place)) result) }
{
    match build_items(alloc, rule, builder) {
        Ok(()) => backend.write(alloc, limits, schema, tree, rule.head.place),
        Err(fault) => Err(fault),
    }
}

/// The query of a rule without placeholders under a schema. In this order it is refused 81, 82 or 83, 110, 48, 111, 112 or 113, and 114.
fn convert_under<B: Backend, C: Builder>(
    backend: &B,
    alloc: Global,
    limits: &Limits,
    rule: &Rule,
    schema: &Schema,
    builder: &mut C,
) -> Result<Bytes, Fault>
    requires whole { IsWhole (rule_view rule.now) }
    requires filled { open_refusal (rule_view rule.now) ≡ None }
    ensures { Rebuilt (rule_expressions (rule_view rule.now)) (C.refused builder.old) (C.refused builder.new) (λ unbuilt. Judged (λ bytes. bytes ≡ query_under B.text schema.now (rule_view rule.now)) (first (checks_under B.missing B.text B.too_deep unbuilt limits.now schema.now (rule_view rule.now))) result) }
{
    match fit_schema(rule, schema) {
        Err(unfit) => Err(Fault::Refused(unfit)),
        Ok(()) => write_rule(backend, alloc, limits, rule, schema, builder),
    }
}

/// The query of a rule without placeholders under the schema that is made of it. In this order it is refused 80, 82 or 83, 110, 48, 111, 112 or 113, and 114.
fn convert_made<B: Backend, C: Builder>(
    backend: &B,
    alloc: Global,
    limits: &Limits,
    rule: &Rule,
    builder: &mut C,
) -> Result<Bytes, Fault>
    requires whole { IsWhole (rule_view rule.now) }
    requires filled { open_refusal (rule_view rule.now) ≡ None }
    ensures { Rebuilt (rule_expressions (rule_view rule.now)) (C.refused builder.old) (C.refused builder.new) (λ unbuilt. Judged (λ bytes. bytes ≡ query_of B.text None (rule_view rule.now)) (first (filled_checks B.missing B.text B.too_deep unbuilt limits.now None (rule_view rule.now))) result) }
{
    let schema = match infer_schema(alloc, rule) {
        Ok(schema) => schema,
        Err(fault) => return Err(fault),
    };
    match fit_indexed(alloc, rule, &schema) {
        Err(unfit) => Err(unfit),
        Ok(()) => write_rule(backend, alloc, limits, rule, &schema, builder),
    }
}

/// The query of a rule without placeholders under the given schema, or else the one that is made of it.
fn convert_filled<B: Backend, C: Builder>(
    backend: &B,
    alloc: Global,
    limits: &Limits,
    rule: &Rule,
    given: Option<&Schema>,
    builder: &mut C,
) -> Result<Bytes, Fault>
    requires whole { IsWhole (rule_view rule.now) }
    requires filled { open_refusal (rule_view rule.now) ≡ None }
    ensures { Rebuilt (rule_expressions (rule_view rule.now)) (C.refused builder.old) (C.refused builder.new) (λ unbuilt. Judged (λ bytes. bytes ≡ query_of B.text (option_map (λ s. s.now) given.entry) (rule_view rule.now)) (first (filled_checks B.missing B.text B.too_deep unbuilt limits.now (option_map (λ s. s.now) given.entry) (rule_view rule.now))) result) }
{
    match given {
        Some(schema) => convert_under(backend, alloc, limits, rule, schema, builder),
        None => convert_made(backend, alloc, limits, rule, builder),
    }
}

/// The query of a rule under the given schema, or else the one that is made of it, refused 98 where a placeholder of it stands open.
fn convert_rule<B: Backend, C: Builder>(
    backend: &B,
    alloc: Global,
    limits: &Limits,
    rule: &Rule,
    given: Option<&Schema>,
    builder: &mut C,
) -> Result<Bytes, Fault>
    requires { IsWhole (rule_view rule.now) }
    ensures { Rebuilt (rule_expressions (rule_view rule.now)) (C.refused builder.old) (C.refused builder.new) (λ unbuilt. Judged (λ bytes. bytes ≡ query_of B.text (option_map (λ s. s.now) given.entry) (rule_view rule.now)) (query_refusal B.missing B.text B.too_deep unbuilt limits.now (option_map (λ s. s.now) given.entry) (rule_view rule.now)) result) }
{
    match check_filled(rule) {
        Ok(()) => convert_filled(backend, alloc, limits, rule, given, builder),
        Err(open) => Err(Fault::Refused(open)),
    }
}

/// The query of the rule that pipelines make of the one that a node is, under the given schema or else the one that is made of that rule.
/// The pipelines are run as they stand here; `pipeline_run::by_priority` puts them in their order. What is refused is refused as `Rule::read_lone` says, as `run_pipelines` says, and then 98, 80 (where no schema is given), 81, 82 or
/// 83, 110, 48, 111, 112 or 113, and 114.
pub fn convert_node<B: Backend, C: Builder>(
    backend: &B,
    alloc: Global,
    limits: &Limits,
    pipelines: &[Pipeline],
    given: Option<&Schema>,
    node: &Node,
    builder: &mut C,
) -> Result<Bytes, Fault>
    requires { EachOf IsWholePipeline pipelines.now }
    ensures { ForUnbuilt (Makes limits.now pipelines.now) limits.now (node_view node.now) (C.refused builder.old) (C.refused builder.new) (is_answered result)
        (λ unbuilt. ConvertAnswers B.missing B.text B.too_deep unbuilt limits.now pipelines.now (option_map (λ s. s.now) given.entry) (node_view node.now) result) }
{
    match find_unbuilt(alloc, limits, node, builder) {
        Ok(unbuilt) => convert_read(
            backend,
            alloc,
            limits,
            pipelines,
            given,
            unbuilt.as_slice(),
            node,
            builder,
        ),
        Err(fault) => Err(fault),
    }
}

/// The same, where the places are found at which the regular expressions of values aren't built.
fn convert_read<B: Backend, C: Builder>(
    backend: &B,
    alloc: Global,
    limits: &Limits,
    pipelines: &[Pipeline],
    given: Option<&Schema>,
    unbuilt: &[Place],
    node: &Node,
    builder: &mut C,
) -> Result<Bytes, Fault>
    requires { EachOf IsWholePipeline pipelines.now }
    ensures { ForItems (Makes limits.now pipelines.now) (node_view node.now) unbuilt.now (C.refused builder.old) (C.refused builder.new)
        (λ places. ConvertAnswers B.missing B.text B.too_deep places limits.now pipelines.now (option_map (λ s. s.now) given.entry) (node_view node.now) result) }
{
    pipeline_run::heads_are_kept();
    match Rule::read_lone(alloc, limits, unbuilt, node) {
        Ok(rule) => convert_chained(backend, alloc, limits, pipelines, given, rule, builder),
        Err(fault) => Err(fault),
    }
}

/// The query of the rule that pipelines make of a rule.
fn convert_chained<B: Backend, C: Builder>(
    backend: &B,
    alloc: Global,
    limits: &Limits,
    pipelines: &[Pipeline],
    given: Option<&Schema>,
    rule: Rule,
    builder: &mut C,
) -> Result<Bytes, Fault>
    requires pipelines { EachOf IsWholePipeline pipelines.now }
    requires rule { IsWhole (rule_view rule) }
    ensures { ForChained B.missing B.text B.too_deep limits.now pipelines.now (option_map (λ s. s.now) given.entry) (rule_view rule) (C.refused builder.old) (C.refused builder.new) result }
{
    pipeline_run::whole_rules_stay_whole();
    match run_pipelines(alloc, limits, pipelines, rule) {
        Ok(made) => convert_rule(backend, alloc, limits, &made, given, builder),
        Err(fault) => Err(fault),
    }
}
