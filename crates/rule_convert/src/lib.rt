//! From a document's tree to its rule and its query, or the first cause for which it has none.
#![tactic(auto)]

pub use backend_name::BackendName;
pub use conversion::convert_node;
pub use laws::queries_mean_rules;

mod backend_name;
mod conversion;
mod laws;
pub mod named;
