//! Patterns: what a value of a Sigma rule spells, and which texts it fits.
#![tactic(auto)]

mod edits;
mod hole;
mod laws;
mod matches;
mod name;
mod part;
mod pattern;
mod pattern_text;
mod shared;
mod sigma_text;
mod sign;

pub use laws::{joined_fits, one_pattern, plain_fits, runs_fit, stays_written};
pub use name::HoleName;
pub use part::Part;
pub use pattern::Pattern;
pub use shared::SharedPattern;
