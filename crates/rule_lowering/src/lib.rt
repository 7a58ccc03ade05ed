//! Lowering: the tree of tests that a rule is.
#![tactic(auto)]

pub use laws::{tree_is_sound, tree_means_rule};
pub use rule::lower;

mod detection_trees;
mod formula;
mod joins;
mod laws;
mod leaf_tests;
mod rule;
mod test_count;
mod whole;
