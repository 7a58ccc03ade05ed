//! Queries that are ready to be asked of many events.

ghost use Rattle.std.specs.Prelude.{◌≡◌, ◌↔◌, ◌⊎◌, List, true};
ghost use Rattle.event_schema.specs.declared.schema.Schema.{Schema};
ghost use Rattle.event_schema.specs.declared.value.Value.{Value};
ghost use Rattle.event_schema.specs.Events.{IsEvent};

use event_schema::{Event, Schema};
use std::alloc::Global;

/// A query that has all memory that it takes to be asked of an event.
pub trait Selector {
    ghost Plain: { Type 0 };

    ghost plain: { Self → Plain };

    ghost picks: { Plain → List (List Value) → Type 0 };

    /// Whether the query selects an event of the schema.
    fn selects(&mut self, schema: &Schema, event: &Event) -> bool
        requires event { IsEvent schema.now.fields event.now.values }
        ensures picks { (result ≡ true) ↔ picks (plain self.old) event.now.values }
        ensures same { plain self.new ≡ plain self.old };

    /// Each event is picked by a query, or it isn't.
    fn law()
        ensures { (query : Plain) (row : List (List Value)) → picks query row ⊎ (picks query row → ⊥) };
}

/// Who asks a query of as many events as it likes.
pub trait Asker {
    type Answer;

    ghost can_ask: { Self → Type 0 };

    ghost asked: { (List (List Value) → Type 0) → Self → Self → Self.Answer → Type 0 };

    /// What it gives of a query is said of any query, by the events that this one picks.
    fn ask<S: Selector>(&mut self, alloc: Global, selector: &mut S) -> Self::Answer
        requires { can_ask self.old }
        ensures { asked (S.picks (S.plain selector.old)) self.old self.new result };
}
