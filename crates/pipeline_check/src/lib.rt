//! Why a value of a pipeline is none: texts, lists, mappings and conditions, and the words of steps.
#![tactic(auto)]

mod causes;
mod conditions;
mod shapes;
mod words;

pub use causes::{must, refuse, sooner, worded};
pub use conditions::{check_fields, check_sources, listing_at};
pub use shapes::{
    check_list, check_map, check_mapping, check_names, check_op, check_text, check_truth,
    check_vars, check_whole,
};
pub use words::{Listing, StepKind, chooser_of, is_left_out, is_same, is_source_key, kind_of};
