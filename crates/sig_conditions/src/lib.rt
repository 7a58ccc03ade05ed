//! A rule's condition: its words, the condition that they read as, and the formula over the rule's detections.
#![tactic(auto)]

pub use condition::Condition;
pub use condition_text::read_condition;
pub use copies::copy_formulas;
pub use formula::Formula;
pub use laws::{identifiers_are_names, one_condition, one_list_of_words, same_meaning};
pub use names::Names;
pub use numbers::DetectionNumbers;
pub use resolution::resolve_condition;
pub use scan::is_identifier;
pub use selector::Selector;

mod budget;
mod condition;
mod condition_text;
mod copies;
mod formula;
mod join;
mod laws;
mod look;
mod names;
mod numbers;
mod reader;
mod resolution;
mod resolver;
mod scan;
mod selector;
mod sizes;
mod stop;
mod taken_names;
mod unresolved;
mod word;
