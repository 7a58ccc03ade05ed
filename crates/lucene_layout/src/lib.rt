//! How Lucene queries are written: names and patterns with their backslashes, and trees of leaves laid out as groups.
//!
//! `specs/` has the definitions; the functions are their laws: what is written is read again, and selects what the tree says.
#![tactic(auto)]

mod laws;
mod leaves;

pub use laws::{layout_is_read, layout_selects, sizes_are_counted, text_is_scanned};
pub use leaves::{
    leaves_are_read, leaves_are_sound, leaves_are_written, numbers_are_taken, patterns_are_scanned,
    patterns_are_written, ranges_are_read, ranges_are_written,
};
