//! Laws of what languages answer.

ghost use Rattle.std.specs.Prelude.{◌≡◌, List, ℕ, [], Err, false};
ghost use Rattle.sig_base.specs.declared.refusal.Fault.TheVariants as fault;
ghost use Rattle.event_schema.specs.declared.schema.Schema.{Schema};
ghost use Rattle.sig_base.specs.declared.limits.Limits.{Limits};
ghost use Rattle.sig_base.specs.declared.refusal.Refusal.{Refusal};
ghost use Rattle.query_tokens.specs.Places.{CodeAt};
ghost use Rattle.query_lang.specs.Answers.{ReadAnswers};
ghost use Rattle.query_lang.specs.RefusedPlaces.{AreRefused, is_of_pattern};

use crate::language::Language;

/// Without regular expressions no place is refused for one.
pub fn none_without_patterns()
    ensures { (refused : List (List ℕ)) (places : List CodeAt) → AreRefused [] refused places → places ≡ [] }
{}

/// Where the builder's list stays as it was, a language refuses with neither 47 nor 48.
pub fn none_without_refusals<L: Language>()
    ensures { (limits : Limits) (schema : Schema) (bytes : List ℕ) (refused : List (List ℕ)) (r : Refusal)
        → ReadAnswers {Query = L.Query} (λ query. L.is_query schema bytes (L.plain query)) (λ query. L.is_within limits schema bytes (L.plain query)) (L.refuses limits schema bytes) (L.patterns bytes) refused refused (Err (fault.Refused r))
        → is_of_pattern r.code ≡ false }
{}
