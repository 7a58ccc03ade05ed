//! What a query is made of, as it is written.

use sig_base::Text;
use sql_lang::{Collate, SqlOp};
use sql_scan::Numeral;

#[derive(Drop)]
pub enum Literal {
    Text(Text),
    Number(Numeral),
}

#[derive(Drop)]
pub enum Right {
    Name(Text),
    Literal(Literal),
}

#[derive(Drop)]
pub enum Leaf {
    Constant(bool),
    IsNull {
        name: Text,
        negated: bool,
    },
    Compare {
        name: Text,
        left: Collate,
        op: SqlOp,
        right: Right,
        collate: Collate,
    },
    Like {
        name: Text,
        negated: bool,
        pattern: Text,
        escape: Option<Text>,
    },
    Glob {
        name: Text,
        negated: bool,
        pattern: Text,
    },
    Regexp {
        name: Text,
        negated: bool,
        pattern: Text,
    },
    OneOf {
        name: Text,
        collate: Collate,
        negated: bool,
        before: Vec<Literal>,
        last: Literal,
    },
    Between {
        name: Text,
        collate: Collate,
        negated: bool,
        low: Numeral,
        high: Numeral,
    },
}

/// Pieces with OR between them.
#[derive(Drop)]
#[cycle(syntax)]
pub struct Ors {
    pub before: Vec<Ands>,
    pub last: Ands,
}

/// Pieces with AND between them.
#[derive(Drop)]
#[cycle(syntax)]
pub struct Ands {
    pub before: Vec<Nots>,
    pub last: Nots,
}

/// Words NOT in a row, and what they stand before.
#[derive(Drop)]
#[cycle(syntax)]
pub struct Nots {
    pub count: usize,
    pub core: Core,
}

#[derive(Drop)]
#[cycle(syntax)]
pub enum Core {
    Test(Leaf),
    Enclosed(Box<Ors>),
}
