//! Query languages by their meanings.

ghost use Rattle.std.specs.Prelude.{◌≡◌, List, ℕ};
ghost use Rattle.event_schema.specs.declared.schema.Schema.{Schema};
ghost use Rattle.event_schema.specs.declared.value.Value.{Value};
ghost use Rattle.sig_base.specs.declared.limits.Limits.{Limits};

/// A query language. Contracts see its queries as plain data: which bytes are which query of a schema, which are one that the
/// language's reader takes under the limits, and which events a query picks, by the values of each field.
pub trait QueryLanguage {
    ghost Plain: { Type 0 };

    ghost is_query: { Schema → List ℕ → Plain → Type 0 };

    ghost is_within: { Limits → Schema → List ℕ → Plain → Type 0 };

    ghost picks: { Plain → List (List Value) → Type 0 };

    /// Bytes are one query at most.
    fn law()
        ensures { (schema : Schema) (bytes : List ℕ) (p q : Plain) → is_query schema bytes p → is_query schema bytes q → p ≡ q };
}
