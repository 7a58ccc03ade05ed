//! From a file to the pipelines that it is, or the causes for which it's refused.
#![tactic(auto)]

pub use files::{FileFault, read_pipelines};
pub use laws::one_outcome;

mod files;
mod laws;
mod single;
mod unbuilt;
