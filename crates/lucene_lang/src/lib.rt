//! The Lucene fragment that queries are written in: groups of clauses over fields, after Lucene's
//! classic query syntax, and the meaning of required, optional and prohibited clauses.
//!
//! `specs/` says which text is which query, where a text stops being one, which refusal comes first,
//! how a text is read token by token, and which events a query selects. `Lucene` is the language as
//! writers see it, its queries and their meaning, without a reader. The other functions are laws.
#![tactic(auto)]

mod laws;
mod lucene;
mod meaning;
mod query;
mod verdict;
mod written;

pub use laws::{machine_reads, no_stop_in_query, one_reading, one_spelling, one_stop};
pub use lucene::Lucene;
pub use meaning::{atoms_hold, groups_select, runs_and_characters};
pub use query::{Atom, Clause, Glyph, Glyphs, Group, Sought, Word};
pub use verdict::{no_refused_query, one_refusal, query_or_refusal};
pub use written::Written;
