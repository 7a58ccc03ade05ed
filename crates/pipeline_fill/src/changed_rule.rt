//! The rule with other tests.

ghost use Rattle.std.specs.Prelude.{◌≡◌};
ghost use Rattle.sig_base.specs.Judged.{Judged};
ghost use Rattle.sig_base.specs.declared.limits.Limits.{Limits};
ghost use Rattle.sig_base.specs.declared.refusal.Place.{Place};
ghost use Rattle.rule_model.specs.Plain.{rule_view};
ghost use Rattle.pipeline_model.specs.declared.step.Step.{Step};
ghost use Rattle.pipeline_fill.specs.Changed as changed;
ghost use Rattle.pipeline_fill.specs.Grown.{change_refusal};

use crate::change::Change;
use crate::filled::are_filled;
use crate::items::change_detections;
use crate::sizes::judge;
use pipeline_model::{Step, Var};
use rule_detections::{Detection, Detections};
use rule_model::Rule;
use sig_base::{Fault, Limits, Place};
use std::alloc::Global;

/// The detections with other tests, unless the step refuses them.
fn change_by(
    alloc: Global,
    limits: &Limits,
    place: Place,
    change: &Change,
    detections: Detections,
) -> Result<Detections, Fault>
    ensures { Judged (λ ds. ds ≡ changed.changed_detections change.now.vars.now change.now.step.now detections)
        (change_refusal limits.now change.now.vars.now change.now.step.now place detections) result }
{
    judge(alloc, limits, place, change, detections.as_slice())?;
    change_detections(alloc, change, detections.into_vec())
}

/// The detections with the tests that a step makes of theirs with these variables, unless it refuses them.
fn change_under(
    alloc: Global,
    limits: &Limits,
    place: Place,
    vars: &[Var],
    step: &Step,
    detections: Detections,
) -> Result<Detections, Fault>
    ensures { Judged (λ ds. ds ≡ changed.changed_detections vars.now step.now detections)
        (change_refusal limits.now vars.now step.now place detections) result }
{
    let change = Change::of(alloc, vars, step)?;
    change_by(alloc, limits, place, &change, detections)
}

/// The variables that a step looks up for detections: none where these have no placeholder, so that rules without one don't take the
/// time that reading the variables takes.
fn vars_for<'s>(vars: &'s [Var], detections: &[Detection]) -> &'s [Var]
    ensures same { (step : Step) → changed.changed_detections result.now step detections.now ≡ changed.changed_detections vars.now step detections.now }
    ensures refused { (limits : Limits) (step : Step) (place : Place)
        → change_refusal limits result.now step place detections.now ≡ change_refusal limits vars.now step place detections.now }
{
    if are_filled(detections) {
        return &[];
    }
    vars
}

/// The detections with the tests that a step makes of theirs, unless it refuses them.
fn change_within(
    alloc: Global,
    limits: &Limits,
    place: Place,
    vars: &[Var],
    step: &Step,
    detections: Detections,
) -> Result<Detections, Fault>
    ensures { Judged (λ ds. ds ≡ changed.changed_detections vars.now step.now detections)
        (change_refusal limits.now vars.now step.now place detections) result }
{
    let known = vars_for(vars, detections.as_slice());
    change_under(alloc, limits, place, known, step, detections)
}

/// The rule with the tests that a step makes of those of its items: placeholders filled with the values of these variables or
/// with any run, texts mapped to others. Refused are, 98 at its item, the first placeholder that is to be filled and has no
/// variable, and then, 99 at the rule's place, a rule that would have more than `grown` names or tests, a name that isn't legal,
/// a pattern of more than `value_chars` parts, put in or not, or patterns of more than `query_bytes` parts together.
pub fn change_tests(
    alloc: Global,
    limits: &Limits,
    vars: &[Var],
    step: &Step,
    rule: Rule,
) -> Result<Rule, Fault>
    ensures { Judged (λ made. rule_view made ≡ changed.changed vars.now step.now (rule_view rule))
        (change_refusal limits.now vars.now step.now rule.head.place (rule_view rule).detections) result }
{
    let Rule {
        head,
        source,
        detections,
        conditions,
    } = rule;
    let detections = change_within(alloc, limits, head.place, vars, step, detections)?;
    Ok(Rule {
        head,
        source,
        detections,
        conditions,
    })
}
