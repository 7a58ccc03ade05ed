//! What was read of a query, token by token.

use lucene_lang::{Atom, Clause, Word};
use sig_base::{Code, Place};
use std::alloc::Global;

/// A field of the schema, by its name or its twin's, and whether it is of whole numbers.
#[derive(Clone, Copy)]
pub struct Known {
    pub field: u32,
    pub cased: bool,
    pub whole: bool,
}

/// The name of a leaf: the field that it is, if it is one, and where it stands.
#[derive(Clone, Copy)]
pub struct Name {
    pub known: Option<Known>,
    pub place: Place,
}

/// An end of a range: open, a number, or a number out of bounds.
#[derive(Clone, Copy)]
pub enum Bound {
    Unbounded,
    At(i64),
    Far,
}

/// What was read of a leaf.
#[derive(Clone, Copy)]
pub enum Partial {
    Start,
    Starred,
    StarColon,
    Named(Name),
    Seeking(Name),
    Ranging(Name, bool),
    Low(Name, bool, Bound),
    Upto(Name, bool, Bound),
    High(Name, bool, Bound, Bound),
}

/// A name that is no field's, or a value that its field doesn't take.
#[derive(Clone, Copy)]
pub struct Ill {
    pub code: Code,
    pub place: Place,
}

/// A whole leaf, and what is wrong with it; an ill one is kept as `*:*`, since its query is refused.
#[derive(Drop)]
pub struct Leaf {
    pub atom: Atom,
    pub ill: Option<Ill>,
}

/// What a token makes of a leaf.
#[derive(Drop)]
pub enum Next {
    Partial(Partial),
    Leaf(Leaf),
}

/// A leaf that is being read, or a whole atom.
#[derive(Drop)]
pub enum Now {
    Reading(Partial),
    Whole(Atom),
}

/// The clauses before this one on one level of parentheses, their word, and whether NOT stands before the atom.
#[derive(Drop)]
pub struct Level {
    pub clauses: Vec<Clause>,
    pub word: Option<Word>,
    pub negated: bool,
}

/// The first word that differs from its group's, and the first leaf that is ill.
#[derive(Clone, Copy)]
pub struct Wrong {
    pub mixed: Option<Place>,
    pub ill: Option<Ill>,
}

/// What was read of a query. The last of the outer levels is the nearest.
#[derive(Drop)]
pub struct State {
    pub now: Now,
    pub level: Level,
    pub outer: Vec<Level>,
    pub wrong: Wrong,
}
