//! Places in texts, tokens with their places, and the place where a text stops being a query, for every
//! language of queries.
//!
//! A language names these definitions for its own tokens and its own spelling; the lemmas hold of each.
#![tactic(auto)]

mod laws;
mod places;

pub use laws::text_or_bad_place;
pub use places::{after, place_behind};
