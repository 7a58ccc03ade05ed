//! The edge of the program: real files and streams, which tell no contents.

pub use shelf::FileShelf;
pub use sink::OutputSink;
pub use source::InputSource;

mod pieces;
mod shelf;
mod sink;
mod source;
