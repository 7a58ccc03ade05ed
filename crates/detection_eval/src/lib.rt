//! Rules over events: a rule is made ready for a schema once, its regular expressions are built then, and it's asked of events
//! without memory and without building anything again.
#![tactic(auto)]

pub use judge::Judge;
pub use laws::matches_or_not;
pub use ready::Ready;

mod copies;
mod event_truth;
mod finders;
mod formula;
mod item_truth;
mod judge;
mod laws;
mod numbered;
mod numbered_detections;
mod ready;
mod search_numbers;
