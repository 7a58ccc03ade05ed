//! What follows from the definitions.

ghost use Rattle.std.specs.Prelude.{◌≡◌, ◌↔◌, Bool, List, None};
ghost use Rattle.event_schema.specs.Lists.{EachOf};
ghost use Rattle.event_schema.specs.declared.schema.Field.{Field};
ghost use Rattle.event_schema.specs.declared.value.Value.{Value};
ghost use Rattle.sig_base.specs.declared.limits.Limits.{Limits};
ghost use Rattle.rule_detections.specs.declared.item.Item.{Item};
ghost use Rattle.rule_model.specs.Matching.{ItemHolds, Matches};
ghost use Rattle.rule_model.specs.Plain.{PlainRule};
ghost use Rattle.rule_model.specs.Whole.{IsWhole};
ghost use Rattle.pipeline_model.specs.declared.step.Step.{Step};
ghost use Rattle.pipeline_edit.specs.Added.{with_condition, HoldsUnless};
ghost use Rattle.pipeline_edit.specs.Kept.{AddsWhole};
ghost use Rattle.pipeline_edit.specs.Steps.{changed, change_refusal};

/// A whole rule stays whole under each of these steps, where it isn't refused.
pub fn whole_rules_stay_whole()
    ensures { (limits : Limits) (step : Step) (rule : PlainRule) → AddsWhole step.action → IsWhole rule
        → change_refusal limits step rule ≡ None → IsWhole (changed step rule) }
{}

/// The rule with one more condition matches an event exactly where the first rule does and all of the added items hold, or with
/// `negated` not all of them do.
pub fn added_items_decide()
    ensures { (items : List Item) (negated : Bool) (rule : PlainRule) (fields : List Field) (row : List (List Value)) → IsWhole rule
        → (Matches fields row (with_condition items negated rule) ↔ (HoldsUnless negated (EachOf (ItemHolds fields row) items) × Matches fields row rule)) }
{}
