//! `sigma` over files and streams that are passed to it: words, requests, commands, and what each answers.
#![tactic(auto)]

pub use laws::{asks_for_events, each_answer, one_answer, queries_mean_rules, words_are_read};
pub use line_follower::follow;
pub use program::serve;
pub use request::Request;
pub use same_lines::run_as_queried;
pub use status::Status;
pub use words::read_words;

mod commands;
mod documents;
mod files;
mod given_pipelines;
mod given_schema;
mod laws;
mod line_follower;
mod numbers;
mod program;
mod report;
mod request;
mod same_lines;
mod sources;
mod status;
mod words;
