//! How queries are written: the texts of tokens, tests and patterns, and trees of tests; and long chains of OR and AND in
//! halves, which are no deeper than a chain of 64 parts and one for each halving, with trees of tests that are laid out so.
//!
//! `specs/` has the definitions; the functions are their laws: what is written is read again, and chains in halves mean the same.
#![tactic(auto)]

mod halves;
mod laws;
mod leaves;
mod patterns;

pub use halves::{
    halved_layout_is_fine, halved_layout_is_read, halved_layout_means_tree, halves_are_shallow,
    halves_mean_the_same,
};
pub use laws::{spelling_is_scanned, written_is_read};
pub use leaves::{leaves_are_read, leaves_are_sound};
pub use patterns::{glob_text_is_read, like_text_is_read};
