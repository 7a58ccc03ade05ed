//! Blocks of a YAML document: how a tree of maps, sequences and scalars is laid out in lines, where a
//! reading stops, the laws of both, and the readers of block maps, sequences and scalars over lines.
#![tactic(auto)]

pub mod content;
mod inside;
pub mod laws;
pub mod lines;
mod node;
pub mod plain;
pub mod scalar;
mod scalar_or_flow;
mod texts;

pub use node::read_block;
