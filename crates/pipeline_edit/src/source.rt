//! The step that changes a rule's log source.

ghost use Rattle.std.specs.Prelude.{◌≡◌};
ghost use Rattle.sig_base.specs.Judged.{Judged};
ghost use Rattle.rule_model.specs.Plain.{rule_view};
ghost use Rattle.pipeline_limits.specs.Sizes.{grown_refusal};
ghost use Rattle.pipeline_edit.specs.Steps as spec;

use crate::rule_size::judge_grown;
use rule_head::LogSource;
use rule_model::Rule;
use sig_base::{Fault, Limits};
use std::alloc::Global;

/// The rule with the log source in place of its own, also where this has fewer parts.
pub fn change_source(
    alloc: Global,
    limits: &Limits,
    source: &LogSource,
    rule: Rule,
) -> Result<Rule, Fault>
    ensures { Judged (λ made. rule_view made ≡ spec.with_source source.now (rule_view rule)) (grown_refusal limits.now rule.head.place rule.detections) result }
{
    judge_grown(limits, rule.head.place, rule.detections.as_slice())?;
    let source = source.copy(alloc)?;
    let Rule {
        head,
        source: _,
        detections,
        conditions,
    } = rule;
    Ok(Rule {
        head,
        source,
        detections,
        conditions,
    })
}
