//! Correlations of rules: how their documents are read, and how they are bound to rules and to the fields of a schema.
#![tactic(auto)]

pub use correlation::{Alias, AliasField, Correlation};
pub use index::RuleIndex;
pub use laws::{bounds_are_within, one_bound, one_correlation};
pub use timespan::span_of;

mod bindings;
mod checks;
mod correlation;
mod document;
mod index;
mod laws;
mod timespan;
mod words;
