//! Running pipelines.

ghost use Rattle.std.specs.Prelude.{◌≡◌};
ghost use Rattle.sig_base.specs.Judged.{Judged};
ghost use Rattle.rule_model.specs.Plain.{rule_view};
ghost use Rattle.pipeline_run.specs.Chained as spec;

use pipeline_edit::change;
use pipeline_fill::change_tests;
use pipeline_model::{Action, Pipeline, Step, Var};
use pipeline_rename::rename;
use rule_model::Rule;
use sig_base::{Fault, Limits};
use std::alloc::Global;

/// The rule that a step makes of one that it acts on.
fn act(alloc: Global, limits: &Limits, vars: &[Var], step: &Step, rule: Rule) -> Result<Rule, Fault>
    ensures { Judged (λ made. rule_view made ≡ spec.acted vars.now step.now step.now.action (rule_view rule))
        (spec.act_refusal limits.now vars.now step.now step.now.action (rule_view rule)) result }
{
    match &step.action {
        Action::MapNames(_) | Action::Prefix(_) | Action::Suffix(_) | Action::MapPrefixes(_) => {
            rename(alloc, limits, step, rule)
        }
        Action::Drop
        | Action::Add { .. }
        | Action::Source(_)
        | Action::FailRule(_)
        | Action::FailItem(_) => change(alloc, limits, step, rule),
        Action::MapTexts(_) | Action::FillHoles(_) | Action::WildHoles(_) => {
            change_tests(alloc, limits, vars, step, rule)
        }
    }
}

/// The rule after a step, which leaves rules of other log sources as they are.
fn run_step(
    alloc: Global,
    limits: &Limits,
    vars: &[Var],
    step: &Step,
    rule: Rule,
) -> Result<Rule, Fault>
    ensures { spec.Gives (spec.run_step limits.now vars.now step.now (rule_view rule)) result }
{
    if !step.acts_on(&rule.source) {
        return Ok(rule);
    }
    act(alloc, limits, vars, step, rule)
}

/// The rule after steps, one after another.
fn run_steps(
    alloc: Global,
    limits: &Limits,
    vars: &[Var],
    steps: &[Step],
    rule: Rule,
) -> Result<Rule, Fault>
    ensures { spec.Gives (spec.run_steps limits.now vars.now steps.now (rule_view rule)) result }
{
    let mut made = rule;
    for step in steps {
        made = run_step(alloc, limits, vars, step, made)?;
    }
    Ok(made)
}

/// The rule that pipelines make of a rule, one after another as they stand here (`by_priority` puts them in their order). The first
/// refusal of a step is answered: 95 or 96 of a step that fails, 97 where an alternative is left without items, 98 at the first
/// item with a placeholder that is to be filled and has no variable, and 99 where the rule has grown past the limits, or has a name
/// that isn't legal or a pattern that is too long, or where behind a step on values all patterns together are too long.
pub fn run_pipelines(
    alloc: Global,
    limits: &Limits,
    pipelines: &[Pipeline],
    rule: Rule,
) -> Result<Rule, Fault>
    ensures { spec.Gives (spec.run_pipelines limits.now pipelines.now (rule_view rule)) result }
{
    let mut made = rule;
    for pipeline in pipelines {
        made = run_steps(
            alloc,
            limits,
            pipeline.vars.as_slice(),
            pipeline.steps.as_slice(),
            made,
        )?;
    }
    Ok(made)
}
