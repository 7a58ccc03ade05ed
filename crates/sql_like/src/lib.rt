//! The patterns of SQL's LIKE and GLOB: what written patterns mean, and matching without memory.
#![tactic(auto)]

mod glob;
mod laws;
mod like;

pub use glob::is_glob;
pub use laws::{glob_means, like_means};
pub use like::is_like;
