//! The events that rules are correlated over: each line's reports, and a report as a line of JSON.
#![tactic(auto)]

mod brought_events;
mod event_reports;
mod judges;
mod laws;
mod line;
mod report_lines;

pub use event_reports::follow_events;
pub use laws::{line_reads_back, one_follower};
pub use line::write_report;
