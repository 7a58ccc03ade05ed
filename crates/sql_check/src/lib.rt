//! The tests of an SQL query under a schema: what is wrong with one, which test of the schema's columns it is, and how deep a query is.
#![tactic(auto)]

mod asked_tests;
mod columns;
mod depth;
mod glob;
mod kinds;
mod like;
mod names;
mod test_faults;
mod token_places;

pub use asked_tests::{ReadTest, test_of};
pub use columns::Columns;
pub use depth::is_too_deep;
pub use names::is_named;
pub use test_faults::judge;
pub use token_places::{collate_count, not_count, place_at};
