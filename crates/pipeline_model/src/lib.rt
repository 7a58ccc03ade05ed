//! Processing pipelines: lists of steps that change rules, with the values of their placeholders.
#![tactic(auto)]

mod checks;
mod document;
mod ids;
mod items;
mod pipeline;
mod scope;
mod step;
mod values;

pub use items::{added_in, parts_at};
pub use pipeline::{Pipeline, Var};
pub use step::{Action, Choice, FieldCond, Pair, Step};
