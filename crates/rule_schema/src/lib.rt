//! Whether a rule's placeholders are filled, the schema that is made of it where none is given, and whether it fits a schema.
#![tactic(auto)]

pub use filled::check_filled;
pub use fit::{fit_indexed, fit_schema};
pub use schema::infer_schema;

mod filled;
mod fit;
mod kinds;
mod laws;
mod names;
mod schema;
mod seen;
