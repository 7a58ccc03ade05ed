//! The tokens of an SQL query, and the causes that are looked for in them first.
#![tactic(auto)]

mod mode;
mod refusals;
mod scanner;
mod signs;
mod sorts;
mod token;
mod transitions;

pub use refusals::{first_other, nests_too_far};
pub use scanner::{Scanned, scan};
pub use token::{Keyword, Numeral, Sort, Token};
