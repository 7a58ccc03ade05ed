//! A query as it is read: groups of clauses over fields by their numbers.

use sig_base::{Sequence, Text};

/// The characters and wildcards of a term in order, which contracts see as a list.
pub type Glyphs = Sequence<Glyph>;

/// Clauses that one word joins; a group of one clause has `And`.
#[cycle(queries)]
#[derive(Drop, Debug)]
pub struct Group {
    pub word: Word,
    pub clauses: Vec<Clause>,
}

/// The word between the clauses of a group.
#[derive(Clone, Copy, Debug, PartialEq, Eq)]
pub enum Word {
    And,
    Or,
}

/// An atom, with NOT before it or without.
#[cycle(queries)]
#[derive(Drop, Debug)]
pub struct Clause {
    pub negated: bool,
    pub atom: Atom,
}

/// `*:*`, a group in parentheses, or what is sought in a field, or in the field's twin that keeps the case.
#[cycle(queries)]
#[derive(Drop, Debug)]
pub enum Atom {
    Everything,
    Group(Group),
    Field {
        field: u32,
        cased: bool,
        value: Sought,
    },
}

/// A term, a phrase, or a range with its ends inside or outside; an end that is `None` is open.
#[derive(Drop, Debug)]
pub enum Sought {
    Term(Glyphs),
    Phrase(Text),
    Range {
        low: Option<i64>,
        low_in: bool,
        high: Option<i64>,
        high_in: bool,
    },
}

/// A character of a term, or a wildcard: `?` for any one character, `*` for any run of characters.
#[derive(Clone, Copy, Debug, PartialEq, Eq)]
pub enum Glyph {
    Char(char),
    One,
    Run,
}
