//! Lists of texts in which each is found without a search.
#![tactic(auto)]

pub use index::TextIndex;

mod index;
