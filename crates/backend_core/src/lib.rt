//! Trees of tests: what a rule asks of an event, in a form that every query language can write.
#![tactic(auto)]

mod backend;
mod field_at;
mod joins;
mod lack;
mod tree;
mod tree_copies;

pub use backend::Backend;
pub use field_at::{is_many, kind_of, name_of};
pub use joins::{add_to_all, add_to_any};
pub use lack::{Lack, Lacking, judge_lacks};
pub use tree::{Leaf, LeafTest, Op, Tree};
