//! What stands at the top of rules: titles, identifiers, names, dates and log sources.
#![tactic(auto)]

pub use head::{Head, copy_rest};
pub use source::LogSource;

mod checks;
mod copies;
mod dates;
mod head;
mod source;
