//! What events look like: schemas with their fields, and the values of fields.
#![tactic(auto)]

pub use event::Event;
pub use fields::FieldList;
pub use names::is_legal;
pub use schema::{Field, FieldKind, Schema, Time, TimeForm};
pub use value::{Value, decimal, decimal_in, is_decimal};
pub use values::FieldValues;

mod event;
mod fields;
mod names;
mod schema;
mod value;
mod values;
