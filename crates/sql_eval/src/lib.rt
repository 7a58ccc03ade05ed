//! What SQL queries say of events, and which events they select.
//!
//! `sql_lang` has the meaning; a field's column has the first of its values.
#![tactic(auto)]

pub use query::{selects, value_of, with_selector};
pub use truth::Truth;

mod asked_queries;
mod comparisons;
mod finders;
mod query;
mod searches;
mod seen;
mod test_values;
mod truth;
mod value;
