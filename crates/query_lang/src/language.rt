//! Query languages.

ghost use Rattle.std.specs.Prelude.{◌≡◌, ◌≤◌, ◌+◌, ◌⊎◌, List, ℕ, Bool, false, IsOk, OnOk, IfOk, IfErr, length};
ghost use Rattle.event_schema.specs.declared.schema.Schema.{Schema};
ghost use Rattle.event_schema.specs.declared.value.Value.{Value};
ghost use Rattle.event_schema.specs.Events.{IsEvent};
ghost use Rattle.sig_base.specs.declared.limits.Limits.{Limits};
ghost use Rattle.sig_base.specs.declared.refusal.Refusal.{Refusal};
ghost use Rattle.query_lang.specs.Answers.{ReadAnswers, SelectAnswers};
ghost use Rattle.query_lang.specs.RefusedPlaces.{PatternAt};
ghost use Rattle.query_tokens.specs.Places.{CodeAt};

use crate::builder::Builder;
use crate::selector::Asker;
use event_schema::{Event, Schema};
use sig_base::{Fault, Limits};
use std::alloc::Global;

/// A query language. Contracts see its queries as plain data: which bytes are which query of a schema, which queries are
/// within the limits, which events a query picks and whether that takes memory, where regular expressions stand in bytes, and
/// which refusal comes first for bytes, given the places that are refused for their regular expressions.
pub trait Language {
    type Query;

    ghost Plain: { Type 0 };

    ghost plain: { Self.Query → Plain };

    ghost is_query: { Schema → List ℕ → Plain → Type 0 };

    ghost is_within: { Limits → Schema → List ℕ → Plain → Type 0 };

    ghost picks: { Plain → List (List Value) → Type 0 };

    ghost takes_memory: { Plain → Bool };

    ghost patterns: { List ℕ → List PatternAt };

    ghost refuses: { Limits → Schema → List ℕ → List CodeAt → Refusal → Type 0 };

    /// The query that the bytes are, or their first refusal.
    fn read<B: Builder>(
        alloc: Global,
        limits: &Limits,
        schema: &Schema,
        bytes: &[u8],
        builder: &mut B,
    ) -> Result<Self::Query, Fault>
        requires short { length bytes.now ≤ limits.now.query_bytes + 1 }
        ensures answers { ReadAnswers (λ query. is_query schema.now bytes.now (plain query)) (λ query. is_within limits.now schema.now bytes.now (plain query)) (refuses limits.now schema.now bytes.now) (patterns bytes.now) (B.refused builder.old) (B.refused builder.new) result };

    /// Whether the query selects one event; only want of memory is answered, and not by a query that takes none.
    fn selects(
        alloc: Global,
        query: &mut Self::Query,
        schema: &Schema,
        event: &Event,
    ) -> Result<bool, Fault>
        requires event { IsEvent schema.now.fields event.now.values }
        ensures picks { SelectAnswers (picks (plain query.old) event.now.values) result }
        ensures free { takes_memory (plain query.old) ≡ false → IsOk result }
        ensures same { plain query.new ≡ plain query.old };

    /// Has the query asked of many events, with the memory that it takes taken once; only want of memory is answered.
    fn with_selector<A: Asker>(
        alloc: Global,
        query: &Self::Query,
        asker: &mut A,
    ) -> Result<A::Answer, Fault>
        requires asker { A.can_ask asker.old }
        ensures asked { IfOk result (A.asked (picks (plain query.now)) asker.old asker.new) }
        ensures err { IfErr result (λ e. (e ≡ Fault.Memory) × (asker.new ≡ asker.old)) }
        ensures free { takes_memory (plain query.now) ≡ false → IsOk result };

    /// Bytes are one query at most, and each event is picked by a query, or it isn't. For each list of places that are refused for their
    /// regular expressions, bytes that `read` is asked for are a query within the limits of which nothing is refused, or they have a first
    /// refusal, and one only.
    fn law()
        ensures one_query { (schema : Schema) (bytes : List ℕ) (p q : Plain) → is_query schema bytes p → is_query schema bytes q → p ≡ q }
        ensures picks { (query : Plain) (row : List (List Value)) → picks query row ⊎ (picks query row → ⊥) }
        ensures one_refusal { (limits : Limits) (schema : Schema) (bytes : List ℕ) (places : List CodeAt) (r s : Refusal)
            → refuses limits schema bytes places r → refuses limits schema bytes places s → r ≡ s }
        ensures decided { (limits : Limits) (schema : Schema) (bytes : List ℕ) (places : List CodeAt) → length bytes ≤ limits.query_bytes + 1
            → ((q : Plain) × is_query schema bytes q × is_within limits schema bytes q × ((r : Refusal) → refuses limits schema bytes places r → ⊥))
            ⊎ ((r : Refusal) × refuses limits schema bytes places r) };
}
