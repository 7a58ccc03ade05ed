//! The rule with other names.

ghost use Rattle.std.specs.Prelude.{◌≡◌, ◌&&◌};
ghost use Rattle.sig_base.specs.Judged.{Judged, must};
ghost use Rattle.rule_model.specs.Plain.{rule_view};
ghost use Rattle.pipeline_rename.specs.Names.{names_for};
ghost use Rattle.pipeline_rename.specs.Renamed as renamed;
ghost use Rattle.pipeline_limits.specs.Sizes.{grown_refusal, every_item, has_legal_names, has_short_patterns};

use crate::items::rename_detections;
use crate::mapping::Renaming;
use crate::room::{Room, grown};
use pipeline_limits::{detections_legal, detections_short};
use pipeline_model::Step;
use rule_detections::{Detection, Detections};
use rule_model::Rule;
use sig_base::{Fault, Limits, Place};
use std::alloc::Global;

/// The detections, unless one of their names isn't legal or one of their patterns is too long.
fn fit_or_grown(limits: &Limits, place: Place, detections: Detections) -> Result<Detections, Fault>
    ensures { Judged (λ ds. ds ≡ detections)
        (must 99 place (every_item has_legal_names detections && every_item (has_short_patterns limits.now) detections)) result }
{
    if detections_legal(detections.as_slice()) && detections_short(limits, detections.as_slice()) {
        return Ok(detections);
    }
    Err(grown(place))
}

/// The detections with other names, unless they're too many, one isn't legal, or a pattern is too long.
fn rename_by(
    alloc: Global,
    limits: &Limits,
    place: Place,
    renaming: &Renaming,
    detections: Vec<Detection>,
) -> Result<Detections, Fault>
    ensures { Judged (λ ds. ds ≡ renamed.renamed_detections (names_for renaming.now.step.now) detections.items)
        (grown_refusal limits.now place (renamed.renamed_detections (names_for renaming.now.step.now) detections.items)) result }
{
    let mut left = Room {
        names: limits.grown,
        tests: limits.grown,
    };
    match rename_detections(alloc, place, &mut left, renaming, detections) {
        Ok(renamed) => fit_or_grown(limits, place, renamed),
        Err(fault) => Err(fault),
    }
}

/// The detections with the names that a step makes of theirs, unless they're too many, one isn't legal, or a pattern is too long.
fn rename_within(
    alloc: Global,
    limits: &Limits,
    place: Place,
    step: &Step,
    detections: Vec<Detection>,
) -> Result<Detections, Fault>
    ensures { Judged (λ ds. ds ≡ renamed.renamed_detections (names_for step.now) detections.items)
        (grown_refusal limits.now place (renamed.renamed_detections (names_for step.now) detections.items)) result }
{
    let renaming = Renaming::of(alloc, step, detections.as_slice())?;
    rename_by(alloc, limits, place, &renaming, detections)
}

/// The rule with the names that a step makes of the names of its items, each once in an item, and of those that its tests
/// compare with. A rule that has more than `grown` names then, or more than `grown` tests, a name that isn't legal, or a pattern of
/// more than `value_chars` parts, is refused 99 at its place, before more than `grown` are made. Asked of a step that acts on the
/// rule.
pub fn rename(alloc: Global, limits: &Limits, step: &Step, rule: Rule) -> Result<Rule, Fault>
    ensures { Judged (λ made. rule_view made ≡ renamed.renamed (names_for step.now) (rule_view rule))
        (grown_refusal limits.now rule.head.place (renamed.renamed (names_for step.now) (rule_view rule)).detections) result }
{
    let Rule {
        head,
        source,
        detections,
        conditions,
    } = rule;
    let detections = rename_within(alloc, limits, head.place, step, detections.into_vec())?;
    Ok(Rule {
        head,
        source,
        detections,
        conditions,
    })
}
