//! Rules made ready for a schema.

ghost use Rattle.correlation_files.specs.Accepted.{IsReadyRule, IsFitted, IsChained};
ghost use Rattle.rule_regex.specs.Building.{Builds};
ghost use Rattle.rule_model.specs.Expressions.{rule_expressions};
ghost use Rattle.rule_model.specs.Plain.{rule_view};

use crate::accepted::{Accepted, ReadyRule};
use detection_eval::Ready;
use event_schema::Schema;
use pipeline_model::Pipeline;
use pipeline_run::run_pipelines;
use query_lang::Builder;
use rule_model::Rule;
use rule_schema::{check_filled, fit_indexed};
use sig_base::{Fault, Limits};
use std::alloc::Global;

/// Makes a rule ready that fits the schema: 48 at the item of the first regular expression that isn't built.
fn ready_fit<B: Builder>(
    alloc: Global,
    schema: &Schema,
    rule: Rule,
    builder: &mut B,
) -> Result<Accepted, Fault>
    ensures { Builds (IsReadyRule schema.now (rule_view rule)) (rule_expressions (rule_view rule)) (B.refused builder.old) (B.refused builder.new) result }
{
    let head = match rule.head.copy(alloc) {
        Ok(head) => head,
        Err(fault) => return Err(fault),
    };
    match Ready::make(alloc, schema, &rule, builder) {
        Ok(ready) => Ok(Accepted::Rule(ReadyRule { rule, ready, head })),
        Err(fault) => Err(fault),
    }
}

/// Makes a rule ready: 98 at an item of which a placeholder stands open, 81, 82 or 83 at one that doesn't fit the schema, and 48.
fn ready_filled<B: Builder>(
    alloc: Global,
    schema: &Schema,
    rule: Rule,
    builder: &mut B,
) -> Result<Accepted, Fault>
    ensures { IsFitted schema.now (rule_view rule) (B.refused builder.old) (B.refused builder.new) result }
{
    match check_filled(&rule) {
        Ok(()) => {}
        Err(open) => return Err(Fault::Refused(open)),
    }
    match fit_indexed(alloc, &rule, schema) {
        Ok(()) => ready_fit(alloc, schema, rule, builder),
        Err(unfit) => Err(unfit),
    }
}

/// Makes the rule ready that pipelines make of a rule, refused as they refuse it, and then 98, 81, 82 or 83, and 48.
pub(crate) fn ready_chained<B: Builder>(
    alloc: Global,
    limits: &Limits,
    pipelines: &[Pipeline],
    schema: &Schema,
    rule: Rule,
    builder: &mut B,
) -> Result<Accepted, Fault>
    ensures { IsChained limits.now pipelines.now schema.now (rule_view rule) (B.refused builder.old) (B.refused builder.new) result }
{
    match run_pipelines(alloc, limits, pipelines, rule) {
        Ok(made) => ready_filled(alloc, schema, made, builder),
        Err(fault) => Err(fault),
    }
}
