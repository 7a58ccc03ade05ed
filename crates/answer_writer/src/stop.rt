//! Why answering ended early.

/// Why answering ended before its end.
#[derive(Clone, Copy, Debug, PartialEq, Eq)]
pub enum Stop {
    /// An input couldn't be read; the diagnostic about it was written.
    Unread,
    /// A stream couldn't be written.
    Unwritten,
    /// Memory is missing.
    Memory,
}
