//! One line of YAML: blanks, scalars, quotes, keys and flow collections.
#![tactic(auto)]

pub use halt::{Halt, Opening};
pub use line::Line;
pub use seen::Seen;

pub mod flow;
mod halt;
pub mod key;
mod line;
pub mod plain;
pub mod quote;
pub mod room;
pub mod scan;
mod seen;
pub mod word;
