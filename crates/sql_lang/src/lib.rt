//! The SQL fragment that queries are written in: `SELECT * FROM table WHERE expression`, with the
//! tests that SQLite's page on expressions has, and SQLite's three-valued meaning of them.
//!
//! `specs/` says which text is which query, where a text stops being one, which refusal comes first,
//! how a text is read token by token, and what an expression says of a row. `Select` and its parts are
//! queries as values, which a reader makes and an evaluator asks (`specs/View`); `Sql` is the language
//! as writers see it, its queries and their meaning, without a reader. The other functions are laws.
#![tactic(auto)]

mod laws;
mod meaning;
mod query;
mod sql;
mod verdict;

pub use laws::{machine_reads, no_stop_in_query, one_reading, one_spelling, one_stop, places_rise};
pub use meaning::{leaves_select, runs_and_characters};
pub use query::{Collate, Expr, Operand, Select, Side, SqlOp, SqlTest};
pub use sql::Sql;
pub use verdict::{no_refused_query, one_refusal, query_or_refusal};
