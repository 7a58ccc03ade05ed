//! Shelves, sources and sinks: those of the real files and streams, which tell no contents, and those in memory, which tell theirs.
#![tactic(auto)]

mod arguments;
mod memory;
mod real;

pub use arguments::words_of;
pub use memory::{MemoryShelf, MemorySink, MemorySource};
pub use real::{FileShelf, InputSource, OutputSink};
