//! Trees of tests on the fields of a schema.

use sig_base::{Place, Text};
use sig_strings::SharedPattern;

/// All of some parts, any of them, not a part, one test, or what never holds.
#[derive(Drop, Debug)]
pub enum Tree {
    All(Vec<Tree>),
    Any(Vec<Tree>),
    Not(Box<Tree>),
    Leaf(Leaf),
    Never,
}

/// A test of a field, which goes by its place in the schema, counted from 0, and where the rule asks
/// for it.
#[derive(Drop, Debug)]
pub struct Leaf {
    pub field: u32,
    pub test: LeafTest,
    pub place: Place,
}

/// What is asked of a field's values.
#[derive(Drop, Debug)]
pub enum LeafTest {
    /// there is a value
    Has,
    /// there is none
    Absent,
    /// the pattern fits some value's text, or a number's decimal, as written or without regard to the case of A to Z
    Fits { pattern: SharedPattern, cased: bool },
    /// some value is this number; of fields of whole numbers alone
    Equals(i64),
    /// some value is a number that stands so to this one; of fields of whole numbers alone
    Compare { op: Op, number: i64 },
    /// some value and some value of the field of this number have one text after folding
    SameAs(u32),
    /// the regular expression of this text has a match somewhere in some value's text, or in a number's decimal
    Finds(Text),
}

/// How a number stands to another.
#[derive(Clone, Copy, Debug, PartialEq, Eq)]
pub enum Op {
    Lt,
    Lte,
    Gt,
    Gte,
}
