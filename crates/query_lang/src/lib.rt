//! Query languages: what their queries are and mean (`QueryLanguage`), what reading and asking them promises
//! (`Language`), that a line feed behind a query changes nothing, and builders of the regular
//! expressions in queries.
#![tactic(auto)]

mod builder;
mod crate_builder;
mod language;
mod laws;
mod queries;
mod search;
mod selector;

pub use builder::{BuildFault, Builder};
pub use crate_builder::CrateBuilder;
pub use language::Language;
pub use laws::{none_without_patterns, none_without_refusals};
pub use queries::QueryLanguage;
pub use search::{Finder, Search};
pub use selector::{Asker, Selector};
