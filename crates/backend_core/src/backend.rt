//! Backends.

ghost use Rattle.std.specs.Prelude.{◌≡◌, List, ℕ, Option, Some, None};
ghost use Rattle.event_schema.specs.declared.schema.Schema.{Schema};
ghost use Rattle.sig_base.specs.declared.limits.Limits.{Limits};
ghost use Rattle.sig_base.specs.declared.refusal.Place.{Place};
ghost use Rattle.sig_base.specs.declared.refusal.Refusal.{Refusal};
ghost use Rattle.backend_core.specs.Holds.{TreeHolds};
ghost use Rattle.backend_core.specs.Means.{Means};
ghost use Rattle.backend_core.specs.Schemas.{IsNamed};
ghost use Rattle.backend_core.specs.Sound.{IsSound};
ghost use Rattle.backend_core.specs.Trees.{Plain};
ghost use Rattle.backend_core.specs.View.{tree_view};
ghost use Rattle.backend_core.specs.Writing.{IsTooDeep, write_refusal, Writes};

use crate::lack::Lacking;
use crate::tree::Tree;
use event_schema::Schema;
use query_lang::QueryLanguage;
use sig_base::{Bytes, Fault, Limits, Place};
use std::alloc::Global;

/// A writer of trees in a query language. Contracts see, beside what it lacks, its text of a tree, and how it refuses a tree at a
/// place that is too deep or has too many clauses under the limits (112, 113).
pub trait Backend: Lacking {
    type Lang: QueryLanguage;

    ghost text: { Schema → Plain → List ℕ };

    ghost too_deep: { Limits → Schema → Plain → Place → Option Refusal };

    /// The query of a sound tree, without a line feed. It is refused at the first leaf for which something is lacking (111), else
    /// at `place` for its depth or its number of clauses, or else for more than `query_bytes` (114).
    fn write(
        &self,
        alloc: Global,
        limits: &Limits,
        schema: &Schema,
        tree: &Tree,
        place: Place,
    ) -> Result<Bytes, Fault>
        requires sound { IsSound schema.now.fields (tree_view tree.now) }
        ensures { Writes Self.missing text too_deep limits.now schema.now (tree_view tree.now) place result };

    /// The text of a sound tree that isn't refused is one query within the limits, and it picks an event exactly where the tree holds;
    /// and what is refused as too deep is 112 or 113 at the given place.
    fn law()
        ensures query { (limits : Limits) (schema : Schema) (t : Plain) (place : Place) → IsNamed schema → IsSound schema.fields t
            → write_refusal Self.missing text too_deep limits schema t place ≡ None
            → Means (Self.Lang.is_query) (Self.Lang.is_within) (Self.Lang.picks) limits schema (λ row. TreeHolds row t) (text schema t) }
        ensures deep { (limits : Limits) (schema : Schema) (t : Plain) (place : Place) (r : Refusal) → too_deep limits schema t place ≡ Some r → IsTooDeep place r };
}
