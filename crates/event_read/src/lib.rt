//! Reading JSON: the schema that a file is, and the event that a line is, seen through a schema.
#![tactic(auto)]

mod decimals;
mod event;
mod field_values;
mod json_values;
mod laws;
mod moments;
mod parts;
mod path;
mod quads;
mod repeats;
mod rows;
mod schemas;
mod shapes;

pub use event::read_event;
pub use laws::{events_are_kept, schemas_are_kept};
pub use schemas::read_schema;
