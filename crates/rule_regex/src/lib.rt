//! Building the regular expressions of documents and rules, and where they aren't built.
#![tactic(auto)]

pub use laws::refused_where_unbuilt;
pub use searches::{build_at, build_items, build_searches};
pub use unbuilt::{find_unbuilt, find_unbuilt_among};

mod laws;
mod searches;
mod unbuilt;
