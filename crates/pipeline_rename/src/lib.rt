//! The steps of pipelines that change the names of a rule's fields.
#![tactic(auto)]

mod concerned;
mod items;
mod laws;
mod list;
mod made;
mod mapping;
mod name_counts;
mod name_index;
mod names;
mod references;
mod renamed_rule;
mod room;

pub use laws::names_stay_whole;
pub use renamed_rule::rename;
