//! The rule that a file is run as.

ghost use Rattle.std.specs.Prelude.{◌≡◌, None, Some};
ghost use Rattle.rule_model.specs.Plain.{rule_view};
ghost use Rattle.rule_regex.specs.ForUnbuilt.{is_answered};
ghost use Rattle.rule_run.specs.Answers.{Answers, ForValues, IsBare};
ghost use Rattle.rule_run.specs.Runs.{IsFit, IsUnfit};
ghost use Rattle.rule_schema.specs.Inferred.{inferred_schema};

use crate::file_rule::read_filled_rule;
use event_schema::Schema;
use pipeline_model::Pipeline;
use query_lang::Builder;
use rule_model::Rule;
use rule_schema::{fit_indexed, fit_schema, infer_schema};
use sig_base::{Fault, Limits};
use std::alloc::Global;

/// A rule, and the schema that was made of it.
#[derive(Drop)]
pub struct SchemedRule {
    pub rule: Rule,
    pub schema: Schema,
}

/// The rule that a file is run as under a schema, which pipelines make of the one that it is, run as they stand here
/// (`pipeline_run::by_priority` puts them in their order). In this order it's refused 2, 1, 7, 84, by
/// YAML, 146, as a rule, by the pipelines, 98, and 81, 82 or 83. (48 at an item comes where the rule is made ready.)
pub fn rule_under<B: Builder>(
    alloc: Global,
    limits: &Limits,
    pipelines: &[Pipeline],
    schema: &Schema,
    bytes: &[u8],
    builder: &mut B,
) -> Result<Rule, Fault>
    ensures { ForValues limits.now bytes.now (B.refused builder.old) (B.refused builder.new) (is_answered result)
        (λ values. Answers (IsBare (IsFit values limits.now pipelines.now (Some schema.now) bytes.now)) (IsUnfit values limits.now pipelines.now (Some schema.now) bytes.now) result) }
{
    let rule = match read_filled_rule(alloc, limits, pipelines, bytes, builder) {
        Ok(rule) => rule,
        Err(fault) => return Err(fault),
    };
    match fit_schema(&rule, schema) {
        Err(unfit) => Err(Fault::Refused(unfit)),
        Ok(()) => Ok(rule),
    }
}

/// The rule that a file is run as, which pipelines, run as they stand here, make of the one that it is, with the schema that is made of
/// it. In this order it's refused
/// 2, 1, 7, 84, by YAML, 146, as a rule, by the pipelines, 98, 80, 82 and 83.
pub fn rule_alone<B: Builder>(
    alloc: Global,
    limits: &Limits,
    pipelines: &[Pipeline],
    bytes: &[u8],
    builder: &mut B,
) -> Result<SchemedRule, Fault>
    ensures { ForValues limits.now bytes.now (B.refused builder.old) (B.refused builder.new) (is_answered result)
        (λ values. Answers (λ found. IsBare (IsFit values limits.now pipelines.now None bytes.now) found.rule × (found.schema ≡ inferred_schema (rule_view found.rule))) (IsUnfit values limits.now pipelines.now None bytes.now) result) }
{
    let rule = match read_filled_rule(alloc, limits, pipelines, bytes, builder) {
        Ok(rule) => rule,
        Err(fault) => return Err(fault),
    };
    let schema = match infer_schema(alloc, &rule) {
        Ok(schema) => schema,
        Err(fault) => return Err(fault),
    };
    match fit_indexed(alloc, &rule, &schema) {
        Err(unfit) => Err(unfit),
        Ok(()) => Ok(SchemedRule { rule, schema }),
    }
}
