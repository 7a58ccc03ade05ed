//! What follows from the definitions, for the proofs of callers: each function does nothing, and its clauses are laws.

ghost use Rattle.std.specs.Prelude.{◌≡◌, List, [], Some, None};
ghost use Rattle.event_schema.specs.Lists.{SomeOf};
ghost use Rattle.rule_regex.specs.Unbuilt.{unbuilt_refusal};
ghost use Rattle.rule_detections.specs.declared.expression.Expression.{Expression};
ghost use Rattle.sig_base.specs.Judged.{refusal};
ghost use Rattle.sig_base.specs.declared.refusal.Place.{Place};
ghost use Rattle.sig_base.specs.declared.refusal.Refusal.{Refusal};

/// Where each is built, none is refused; and what refuses one is 48, at the place of one of them that is among these places.
pub fn refused_where_unbuilt()
    ensures none { (expressions : List Expression) → unbuilt_refusal [] expressions ≡ None }
    ensures code { (unbuilt : List Place) (expressions : List Expression) (r : Refusal)
        → unbuilt_refusal unbuilt expressions ≡ Some r → r ≡ refusal 48 r.place }
    ensures own { (unbuilt : List Place) (expressions : List Expression) (r : Refusal)
        → unbuilt_refusal unbuilt expressions ≡ Some r → SomeOf (λ e. e.place ≡ r.place) expressions }
    ensures among { (unbuilt : List Place) (expressions : List Expression) (r : Refusal)
        → unbuilt_refusal unbuilt expressions ≡ Some r → SomeOf (λ place. place ≡ r.place) unbuilt }
{}
