//! Trees written as Lucene queries, with the outermost pair of parentheses left out.
#![tactic(auto)]

mod backend;
mod counts;
mod lacks;
mod laws;
mod output;
mod place;
mod test_text;
mod walk;
mod writer;

pub use laws::{patterns_are_terms, schemas_are_indexed, tree_is_query};
pub use writer::LuceneText;
