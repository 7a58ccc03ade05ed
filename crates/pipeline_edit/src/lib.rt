//! The steps of pipelines that change a rule's items, its conditions or its log source.
#![tactic(auto)]

pub use changes::change;
pub use laws::{added_items_decide, whole_rules_stay_whole};

mod added_condition;
mod changes;
mod dropped_names;
mod failures;
mod laws;
mod rule_size;
mod source;
