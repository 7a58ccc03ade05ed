//! The numbers of a schema's fields by their names.
#![tactic(auto)]

pub use numbers::FieldNumbers;

mod numbers;
