//! SQL queries as they are read: from bytes to the query, or its first refusal; and SQL as a language
//! whose queries are read and asked of events.
#![tactic(auto)]

mod expressions;
mod files;
mod language;
mod laws;
mod leaves;
mod select;
mod token_places;

pub use files::line_feed_behind;
pub use language::SqlReader;
pub use laws::same_queries;
pub use select::read_select;
