//! The words of the command line: which are taken, what they give, and their reading by clap.
//!
//! `specs/Given` says when words give items, and `specs/Computed` reads the same items word by word. clap reads and decides.
#![tactic(auto)]

pub use command_name::{CommandName, Count};
pub use laws::items_are_read;
pub use words::read;

mod command_name;
mod laws;
mod parts;
mod words;
