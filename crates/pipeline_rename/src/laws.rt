//! What follows from the definitions.

ghost use Rattle.std.specs.Prelude.{◌≡◌, None};
ghost use Rattle.sig_base.specs.declared.limits.Limits.{Limits};
ghost use Rattle.rule_model.specs.Plain.{PlainRule};
ghost use Rattle.rule_model.specs.Whole.{IsWhole};
ghost use Rattle.pipeline_model.specs.declared.step.Step.{Step};
ghost use Rattle.pipeline_rename.specs.Kept.{MakesNames};
ghost use Rattle.pipeline_rename.specs.Names.{names_for};
ghost use Rattle.pipeline_rename.specs.Renamed.{renamed};
ghost use Rattle.pipeline_limits.specs.Sizes.{grown_refusal};

/// A whole rule stays whole with the names that a step makes of its names, where it isn't refused.
pub fn names_stay_whole()
    ensures { (limits : Limits) (step : Step) (rule : PlainRule) → MakesNames step.action → IsWhole rule
        → grown_refusal limits rule.head.place (renamed (names_for step) rule).detections ≡ None → IsWhole (renamed (names_for step) rule) }
{}
