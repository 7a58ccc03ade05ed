//! The scanner of Lucene queries: from a text to its tokens, and the two causes that are looked for first.
#![tactic(auto)]

mod mode;
mod refusals;
mod run_kinds;
mod runs;
mod scanner;
mod token;
mod tokens;

pub use mode::Mode;
pub use refusals::{first_outside, opens_too_far};
pub use run_kinds::{is_decimal, text_of};
pub use runs::Run;
pub use scanner::scan;
pub use token::{Sort, Token};
pub use tokens::Tokens;
