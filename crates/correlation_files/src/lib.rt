//! Rule files whose rules are correlated: what their documents are, and which correlations are bound.
#![tactic(auto)]

pub use bindings::{Bindings, Unbound};
pub use document_check::check_document;
pub use found::{Found, Sourced};
pub use laws::{one_binding, one_outcome};
pub use rule_files::read_rules;

mod accepted;
mod bindings;
mod document_check;
mod found;
mod laws;
mod ready_rules;
mod rule_files;
mod single;
