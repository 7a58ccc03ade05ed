//! The generator: the rule and the events that a seed makes, the rule's queries in SQL and in Lucene,
//! each written by its backend, read back and asked of the events, and how many of the seed's events
//! each of the three selects.
#![tactic(auto)]

mod backends;
mod builder;
mod comparisons;
mod counts;
mod draws;
mod events;
mod flags;
mod generator;
mod laws;
mod line;
mod matches;
mod readable;
mod rule;
mod seed_rule;
mod selection;
mod subject;
mod words;

pub use comparisons::compare;
pub use draws::{after_events, after_three};
pub use events::{make_events, make_schema};
pub use generator::generate;
pub use laws::{
    events_go_on, generated_events, generated_lines, generated_rule, seeds_are_subjects,
};
pub use readable::Readable;
pub use rule::make_rule;
pub use seed_rule::tree_for;
