//! What a step makes of a rule's items, conditions or log source.

ghost use Rattle.std.specs.Prelude.{◌≡◌};
ghost use Rattle.sig_base.specs.Judged.{Judged};
ghost use Rattle.rule_model.specs.Plain.{rule_view};
ghost use Rattle.pipeline_limits.specs.Sizes.{grown_refusal};
ghost use Rattle.pipeline_edit.specs.Steps as spec;

use crate::added_condition::add_condition;
use crate::dropped_names::drop_names;
use crate::failures::{fail_at_item, fail_rule};
use crate::rule_size::judge_grown;
use crate::source::change_source;
use pipeline_model::{Action, Step};
use rule_model::Rule;
use sig_base::{Fault, Limits};
use std::alloc::Global;

/// The rule as it is, unless it's too large.
fn unchanged(limits: &Limits, rule: Rule) -> Result<Rule, Fault>
    ensures { Judged (λ made. rule_view made ≡ rule_view rule) (grown_refusal limits.now rule.head.place rule.detections) result }
{
    judge_grown(limits, rule.head.place, rule.detections.as_slice())?;
    Ok(rule)
}

/// The rule that the step makes: without the names that `Drop` acts on, with one more condition by `Add`, or with another log
/// source. It's refused 95, 96 or 97 as the step says, and then 99 where it has grown past `grown` or has a name that isn't legal
/// or a pattern of more than `value_chars` parts.
/// Steps on names or values change nothing here. Asked of a step that acts on the rule.
pub fn change(alloc: Global, limits: &Limits, step: &Step, rule: Rule) -> Result<Rule, Fault>
    ensures { Judged (λ made. rule_view made ≡ spec.changed step.now (rule_view rule)) (spec.change_refusal limits.now step.now (rule_view rule)) result }
{
    match &step.action {
        Action::Drop => drop_names(alloc, limits, step, rule),
        Action::Add { items, negated } => add_condition(alloc, limits, items, *negated, rule),
        Action::Source(source) => change_source(alloc, limits, source, rule),
        Action::FailRule(message) => fail_rule(alloc, message, rule),
        Action::FailItem(message) => fail_at_item(alloc, limits, step, message, rule),
        Action::MapNames(_)
        | Action::Prefix(_)
        | Action::Suffix(_)
        | Action::MapPrefixes(_)
        | Action::MapTexts(_)
        | Action::FillHoles(_)
        | Action::WildHoles(_) => unchanged(limits, rule),
    }
}
