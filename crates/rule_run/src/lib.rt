//! The rule that a file is run as, and the schema that is made of it where none is given.
#![tactic(auto)]

pub use laws::one_run;
pub use rule_under_schema::{SchemedRule, rule_alone, rule_under};

mod file_rule;
mod laws;
mod rule_under_schema;
mod single;
