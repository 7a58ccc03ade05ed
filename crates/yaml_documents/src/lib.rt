//! Whole files of YAML: their characters, their lines, their documents, the answer to each document, and
//! the codes that lines are refused with.
//!
//! `bounds` has laws on how large the trees of a file are, by its bytes, and of what characters their
//! texts are: for callers that reckon the work and the memory that a file may cost, and for those that
//! write its texts.
#![tactic(auto)]

pub mod bounds;
pub mod codes;
mod document;
mod documents;
mod file;
pub mod laws;
mod lines;
mod refusal;
mod text;

pub use documents::documents_in;
pub use file::read_documents;
pub use lines::lines_of;
pub use text::characters;
