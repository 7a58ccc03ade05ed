//! One matcher for every pattern language with runs: a pattern is read from its front, step by step, and the
//! matcher decides whether it matches a text, without memory of its own and without going further back than to
//! the last run.
//!
//! A language takes part by a small `Copy` type that stands somewhere in a pattern, such as the `&str` or the slice
//! of parts that is left of it, and implements `Cursor`: `holds` is the language's own definition, and `step`
//! reads what stands at the front.
#![tactic(auto)]

mod cursor;
mod part_takes;
mod step;
mod suffixes;
mod text_walk;
mod walk;
mod whole;

pub use cursor::Cursor;
pub use step::{Step, Taker};
pub use whole::matches_whole;
