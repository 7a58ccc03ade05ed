//! What follows from the definitions.

ghost use Rattle.std.specs.Prelude.{◌≡◌, ◌∷◌, [], map, List, None, true, false};
ghost use Rattle.std.specs.List.{list_any};
ghost use Rattle.event_schema.specs.Lists.{EachOf};
ghost use Rattle.sig_base.specs.declared.limits.Limits.{Limits};
ghost use Rattle.sig_base.specs.declared.refusal.Place.{Place};
ghost use Rattle.sig_strings.specs.declared.part.Part.{Part};
ghost use Rattle.rule_detections.specs.declared.detection.Detection.{Detection};
ghost use Rattle.rule_model.specs.Plain.{PlainRule};
ghost use Rattle.rule_model.specs.Whole.{IsWhole};
ghost use Rattle.pipeline_model.specs.declared.pipeline.Var.{Var};
ghost use Rattle.pipeline_model.specs.declared.step.Action.{Action};
ghost use Rattle.pipeline_model.specs.declared.step.Action.TheVariants as actions;
ghost use Rattle.pipeline_model.specs.declared.step.Choice.{Choice};
ghost use Rattle.pipeline_model.specs.declared.step.Step.{Step};
ghost use Rattle.pipeline_fill.specs.Changed.{changed, changed_detections};
ghost use Rattle.pipeline_fill.specs.Extent.{has_few_parts_together};
ghost use Rattle.pipeline_fill.specs.Filled.{filled, is_chosen, opened};
ghost use Rattle.pipeline_fill.specs.Grown.{change_refusal};
ghost use Rattle.pipeline_fill.specs.Kept.{MakesTests};

/// No filling has a placeholder that was to be filled.
pub fn fillings_are_filled()
    ensures { (vars : List Var) (action : Action) (parts : List Part)
        → EachOf (λ filling. list_any (is_chosen action) filling ≡ false) (filled vars action parts) }
{}

/// Where each chosen placeholder becomes any run, there is one filling, which has the run in its place.
pub fn runs_make_one_pattern()
    ensures { (vars : List Var) (choice : Choice) (parts : List Part)
        → filled vars (actions.WildHoles choice) parts ≡ map (opened (actions.WildHoles choice)) parts ∷ [] }
{}

/// The patterns of what a step makes, where it isn't refused, have together at most as many parts as a query may have bytes.
pub fn patterns_are_few_together()
    ensures { (limits : Limits) (vars : List Var) (step : Step) (place : Place) (ds : List Detection)
        → change_refusal limits vars step place ds ≡ None → has_few_parts_together limits (changed_detections vars step ds) ≡ true }
{}

/// A whole rule stays whole with the tests that a step makes of its tests, where it isn't refused.
pub fn tests_stay_whole()
    ensures { (limits : Limits) (vars : List Var) (step : Step) (rule : PlainRule) → MakesTests vars step.action → IsWhole rule
        → change_refusal limits vars step rule.head.place rule.detections ≡ None → IsWhole (changed vars step rule) }
{}
