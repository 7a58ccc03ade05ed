//! The steps of pipelines that change the patterns of a rule's tests: placeholders that are filled, and texts that are mapped.
#![tactic(auto)]

pub use changed_rule::change_tests;
pub use laws::{
    fillings_are_filled, patterns_are_few_together, runs_make_one_pattern, tests_stay_whole,
};

mod change;
mod changed_rule;
mod entries;
mod entry;
mod filled;
mod filling;
mod fillings;
mod growth;
mod items;
mod laws;
mod made;
mod measures;
mod read_texts;
mod sizes;
