//! A shelf, a source and a sink in memory, which tell their contents and fail where they are told to.

pub use shelf::MemoryShelf;
pub use sink::MemorySink;
pub use source::MemorySource;

mod shelf;
mod sink;
mod source;
