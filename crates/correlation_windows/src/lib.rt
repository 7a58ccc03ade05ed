//! Windows of matches for correlations of rules, and what has to be kept of the events for them.
#![tactic(auto)]

pub use bound::{Bound, CorrelationKind, Op};
pub use found::{Found, Fresh};
pub use group::Group;
pub use laws::{kept_goes, kept_suffices, matches_follow};
pub use matches::Match;
pub use queue::Queue;
pub use report::Report;
pub use store::Queues;

mod bound;
mod conditions;
mod counts;
mod drops;
mod found;
mod group;
mod growth;
mod laws;
mod match_reports;
mod matches;
mod notes;
mod queue;
mod reaches;
mod report;
mod store;
mod tallies;
