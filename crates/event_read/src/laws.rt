//! Laws of schemas and events that are read, each the contract of a function that does nothing.

ghost use Rattle.std.specs.Prelude.{◌≡◌, ℕ, List, Ok};
ghost use Rattle.event_read.specs.EventOf.{event_of};
ghost use Rattle.event_schema.specs.Events.{IsEvent};
ghost use Rattle.event_schema.specs.Occurrence.{Occurrence};
ghost use Rattle.event_schema.specs.declared.schema.Schema.{Schema};
ghost use Rattle.event_read.specs.SchemaOf.{schema_of};
ghost use Rattle.event_schema.specs.Schemas.{IsSchema};
ghost use Rattle.sig_base.specs.declared.limits.Limits.{Limits};

/// The event that a line is under a schema is an event of the schema: each field has values of its kind, and one at most where it
/// isn't one of several.
pub fn events_are_kept()
    ensures { (schema : Schema) (line : List ℕ) (event : Occurrence) → event_of schema line ≡ Ok event → IsEvent schema.fields event.values }
{}

/// The schema that bytes are keeps what every schema keeps.
pub fn schemas_are_kept()
    ensures { (limits : Limits) (bytes : List ℕ) (schema : Schema) → schema_of limits bytes ≡ Ok schema → IsSchema schema }
{}
