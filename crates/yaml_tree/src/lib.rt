//! Trees of YAML documents: what a document says, and where each part of it stands in its file.
#![tactic(auto)]

pub use copies::{copy_text, copy_texts};
pub use nodes::{
    all_entries, elements_of, entries_at, entries_of, find_value, has_key, is_empty, is_map,
    is_null, is_scalar, is_truth, parts_of, place_of, text_of, value_at,
};
pub use tree::{Document, Entry, Kind, Node};

mod copies;
mod nodes;
mod tree;
