//! What can go wrong with files, streams and lines.

use crate::bytes::Bytes;
use thiserror::Error;

/// A source or a sink couldn't read or write.
#[derive(Clone, Copy, Debug, PartialEq, Eq, Error)]
#[error("reading or writing failed")]
pub struct Failed;

/// Why a shelf gives no bytes: the file can't be read, or memory is missing.
#[derive(Clone, Copy, Debug, PartialEq, Eq, Error)]
pub enum ShelfFault {
    #[error("the file can't be read")]
    Failed,
    #[error("out of memory")]
    Memory,
}

/// Why a line can't be given: the source failed, or memory is missing.
#[derive(Clone, Copy, Debug, PartialEq, Eq, Error)]
pub enum LineFault {
    #[error("reading failed")]
    Read,
    #[error("out of memory")]
    Memory,
}

/// The next line of a source, numbered from 1, without its line feed.
#[derive(Drop, Debug)]
pub enum LineStep {
    Line { number: u32, bytes: Bytes },
    /// The line has more bytes than `line_bytes`, and was passed over.
    TooLong { number: u32 },
    /// The source gave more bytes than `events_bytes` in all.
    TooMuch { number: u32 },
    End,
}
