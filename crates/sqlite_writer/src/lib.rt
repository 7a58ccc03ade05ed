//! Trees written as SQLite queries: with the least parentheses, with guards where NOT would leave a
//! missing value unknown, and with long lists in halves.
#![tactic(auto)]

mod backend;
mod deep;
mod guarded_tree;
mod lacks;
mod laws;
mod output;
mod patterns;
mod place;
mod sizes;
mod test_text;
mod walk;
mod writer;

pub use laws::{
    lists_are_shallow, polarity, schemas_are_found, text_fields_lack_nothing, text_schemas,
    tree_is_query,
};
pub use writer::Sqlite;
