//! Detections: items with their keys and values, the tests that chains of modifiers make of these values and when they hold, the
//! alternatives that the items make, and the regular expressions of all of them.
#![tactic(auto)]

pub use detection::{Alternative, Alternatives, Detection, Detections};
pub use detections::read_detections;
pub use expression::{Expression, Expressions};
pub use expressions::{add_entries, find_expressions};
pub use item::{Fields, Item, Values};
pub use laws::{keyword_tests, one_tests, plain_tests, some_test, tests_or_refusal};
pub use test::{Test, Tests};
pub use value_tests::resolve;

mod copies;
mod detection;
mod detection_copies;
mod detections;
mod expression;
mod expressions;
mod item;
mod items;
mod keys;
mod laws;
mod open_placeholders;
mod test;
mod test_expressions;
mod test_truth;
mod value_tests;
