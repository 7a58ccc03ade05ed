//! What follows from the definitions, for the proofs of callers: each function does nothing else than name laws that it
//! stands on, and its clauses are laws.

ghost use Rattle.std.specs.Prelude.{◌≡◌, ◌<◌, ◌^◌, length, None};
ghost use Rattle.event_schema.specs.Schemas.{IsSchema};
ghost use Rattle.rule_model.specs.Plain.{PlainRule};
ghost use Rattle.rule_model.specs.Whole.{IsWhole};
ghost use Rattle.rule_schema.specs.Inferred.{inferred_schema, rule_names, schema_refusal};

/// The schema that is made of a whole rule keeps what every schema keeps, where no names clash and they can be numbered.
pub fn inferred_schemas()
    ensures { (rule : PlainRule) → IsWhole rule → schema_refusal rule ≡ None → length (rule_names rule) < 2 ^ 32 → IsSchema (inferred_schema rule) }
{}
