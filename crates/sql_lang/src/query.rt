//! A query as it is read: an expression over columns by their places.

use query_lang::Search;
use sig_base::Text;

/// A query of the one table.
#[derive(Drop, Debug)]
pub struct Select {
    pub condition: Expr,
}

/// An expression. A chain of one word on one level is one list, and parentheses make no node of their own. What is read is no deeper
/// than the reader's limit.
#[derive(Drop, Debug)]
pub enum Expr {
    Or(Vec<Expr>),
    And(Vec<Expr>),
    Not(Box<Expr>),
    Test(SqlTest),
}

/// One test; `negated` says that it is written with NOT. A `field` is a column's place in the schema, counted from 0. A regular
/// expression is kept as it was built.
#[derive(Drop, Debug)]
pub enum SqlTest {
    Constant(bool),
    IsNull {
        field: usize,
        negated: bool,
    },
    Compare {
        left: Side,
        op: SqlOp,
        right: Side,
    },
    Like {
        field: usize,
        negated: bool,
        pattern: Text,
        escape: Option<char>,
    },
    Glob {
        field: usize,
        negated: bool,
        pattern: Text,
    },
    Regexp {
        field: usize,
        negated: bool,
        search: Box<Search>,
    },
    OneOf {
        left: Side,
        negated: bool,
        values: Vec<Operand>,
    },
    Between {
        left: Side,
        negated: bool,
        low: i64,
        high: i64,
    },
}

/// A side of a comparison.
#[derive(Drop, Debug)]
pub struct Side {
    pub operand: Operand,
    pub collate: Collate,
}

/// A column by its place, a text or a number.
#[derive(Drop, Debug)]
pub enum Operand {
    Column(usize),
    Text(Text),
    Whole(i64),
}

/// How texts are compared: `NoCase` after folding, and otherwise as they are.
#[derive(Clone, Copy, Debug, PartialEq, Eq)]
pub enum Collate {
    Unsaid,
    NoCase,
    Binary,
}

/// A sign of comparison: `=`, `<>`, `<`, `<=`, `>` and `>=`.
#[derive(Clone, Copy, Debug, PartialEq, Eq)]
pub enum SqlOp {
    Eq,
    Ne,
    Lt,
    Lte,
    Gt,
    Gte,
}
