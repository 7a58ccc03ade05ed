//! Correlations of rules over events, from a bounded state.
#![tactic(auto)]

pub use arrival::Arrival;
pub use engine::Engine;
pub use event_matches::matches_in;
pub use fault::TakeFault;

mod arrival;
mod engine;
mod event_matches;
mod fault;
mod steps;
mod watch;
