//! Sigma rules: what a document's tree is read as, what every rule that is read keeps, and when a rule matches an event (a definition).
#![tactic(auto)]

pub use expressions::find_expressions;
pub use laws::{
    condition_of_text, lone_rules, one_rule, refused_as_built, rule_or_refusal, rules_are_whole,
};
pub use rule::Rule;

mod conditions;
mod copies;
mod expressions;
mod laws;
mod rule;
