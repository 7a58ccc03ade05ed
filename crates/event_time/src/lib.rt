//! Moments in JSON values: texts by the calendar, and seconds or milliseconds since 1970, as nanoseconds.
#![tactic(auto)]

pub use moments::moment_in;
pub use numerals::{digits, is_whole};

mod moments;
mod numerals;
