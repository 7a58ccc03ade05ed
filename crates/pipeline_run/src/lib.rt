//! Pipelines run on a rule: their steps one after another. Laws, for the proofs of callers: of the rules that are made (`law`), and
//! of documents that are read as pipelines (`built`).
#![tactic(auto)]

pub use built::{one_pipeline, pipeline_or_refusal, pipelines_are_whole};
pub use laws::{
    each_is_run_in_its_turn, heads_are_kept, names_are_read, steps_on_names_are_read,
    whole_rules_stay_whole,
};
pub use priorities::by_priority;
pub use runs::run_pipelines;

mod built;
mod laws;
mod priorities;
mod runs;
