//! The query that a file is asked of events as, in any query language.
#![tactic(auto)]

pub use file_query::read_query;
pub use laws::asked_once;

mod file_query;
mod laws;
