//! Lucene's queries as they are read: the query that bytes are under a schema, or their first refusal;
//! and Lucene as a language whose queries are read and asked of events.
#![tactic(auto)]

mod asked_queries;
mod files;
mod language;
mod laws;
mod leaves;
mod names;
mod numbers;
mod partial;
mod query;
mod transitions;

pub use files::line_feed_behind;
pub use language::LuceneReader;
pub use laws::same_queries;
pub use query::read_query;
