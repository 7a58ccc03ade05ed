//! How large a rule may grow under pipelines, and which names and patterns its items may have.
#![tactic(auto)]

mod legal;

pub use legal::{detections_legal, detections_short, items_legal, items_short};
