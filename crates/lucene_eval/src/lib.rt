//! The meaning of Lucene queries: whether a query selects an event, without memory.
#![tactic(auto)]

mod selection;
mod terms;
mod values;

pub use selection::selects;
pub use terms::is_term;
