//! What nearly every crate stands on: texts, places, codes, refusals, limits, and what shelves, sources and sinks promise.
#![tactic(auto)]

pub use bytes::Bytes;
pub use characters::{count_of, first_char};
pub use check_steps::{must, refused};
pub use code::Code;
pub use digits::{are_digits, is_digit, is_digit_char, is_positive};
pub use faults::{Failed, LineFault, LineStep, ShelfFault};
pub use folding::{fold, same_folded};
pub use limits::Limits;
pub use put::put_all;
pub use refusal::{Detail, Fault, Place, Refusal};
pub use sequence::{Sequence, TryCopy};
pub use shelf::Shelf;
pub use streams::{Sink, Source};
pub use text::Text;
pub use texts::Texts;

mod bytes;
mod characters;
mod check_steps;
mod code;
mod digits;
mod faults;
mod folding;
mod limits;
mod put;
mod refusal;
mod sequence;
mod shelf;
mod streams;
mod text;
mod texts;
