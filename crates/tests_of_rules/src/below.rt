//! Tests of small crates, of what no command shows: texts, indexes of texts, patterns, choices of dashes, trees of tests, events, the
//! shelf, source and sink in memory, numbers of fields, and words that the program is called with.

mod arguments;
mod base;
mod dashes;
mod encodings;
mod events;
mod indexes;
mod numbers;
mod strings;
mod trees;
