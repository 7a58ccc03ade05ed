//! The query that tokens spell, as it is written: with its names, its parentheses, and its texts as texts.
#![tactic(auto)]

mod partial;
mod query;
mod state;
mod step;
mod syntax;
mod test_tokens;

pub use query::read_query;
pub use state::{Outcome, Query};
pub use syntax::{Ands, Core, Leaf, Literal, Nots, Ors, Right};
