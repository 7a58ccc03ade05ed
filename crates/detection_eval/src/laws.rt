//! A law of matching, the contract of a function that does nothing.

ghost use Rattle.std.specs.Prelude.{List, ◌⊎◌};
ghost use Rattle.event_schema.specs.declared.schema.Field.{Field};
ghost use Rattle.event_schema.specs.declared.value.Value.{Value};
ghost use Rattle.rule_model.specs.Matching.{Matches};
ghost use Rattle.rule_model.specs.Plain.{PlainRule};

/// A rule matches an event, or it doesn't.
pub fn matches_or_not()
    ensures { (fields : List Field) (row : List (List Value)) (rule : PlainRule) → Matches fields row rule ⊎ (Matches fields row rule → ⊥) }
{}
