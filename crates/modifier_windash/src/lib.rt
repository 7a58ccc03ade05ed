//! Patterns with dash places as the patterns of each choice of dashes, for query languages that have no such place.
#![tactic(auto)]

mod choices;
mod laws;

pub use choices::{choice, dash_count};
pub use laws::{choices_are_counted, choices_are_written, choices_fit};
