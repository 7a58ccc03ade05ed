//! What kinds of chains there are.

use crate::modifier::Op;

/// How the regular expressions of a chain are read: the flags of the crate `regex` by their letters.
#[derive(Clone, Copy, Debug, PartialEq, Eq)]
pub struct Flags {
    /// letters match in either case
    pub i: bool,
    /// `^` and `$` match at the ends of lines
    pub m: bool,
    /// `.` matches a line feed too
    pub s: bool,
}

/// The kind of a chain, which decides what values it takes and what for.
#[derive(Clone, Copy, Debug, PartialEq, Eq)]
pub enum ChainForm {
    /// no modifier, at a field
    Bare,
    /// `exists`
    Presence,
    /// networks, and perhaps `all`
    Networks,
    /// how values stand to a number, and perhaps `all`
    Orders(Op),
    /// `fieldref`
    Reference,
    /// `re`, with these flags, and perhaps `all`
    Expressions(Flags),
    /// a text chain, and whether it takes null too
    Texts { nulls: bool },
}
