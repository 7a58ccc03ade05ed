//! The patterns, networks and regular expressions that the texts of a rule stand for under a chain of modifiers, and why texts
//! are refused.
#![tactic(auto)]

mod edits;
mod encodings;
mod expressions;
mod laws;
mod text_patterns;

pub use expressions::{expression_text, read_expression};
pub use laws::{
    choices_are_plain, dash_places_are_counted, expressions_are_plain, network_patterns_are_plain,
    network_patterns_fit, networks_are_bounded, one_list_of_patterns, one_network,
    parts_are_spelled, patterns_have_plain_text,
};
pub use text_patterns::{check_ordered, read_network, read_patterns, read_reference};
