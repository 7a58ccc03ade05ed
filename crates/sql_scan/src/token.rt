//! Tokens.

ghost use Rattle.std.specs.Prelude.{◌≡◌};
ghost use Rattle.sql_lang.specs.Tokens.{number_of};

use sig_base::{Place, Text};
use sql_lang::SqlOp;

#[derive(Clone, Copy, Debug, PartialEq, Eq)]
pub enum Keyword {
    Select,
    From,
    Where,
    Or,
    And,
    Not,
    Is,
    Null,
    Like,
    Escape,
    Glob,
    Regexp,
    In,
    Between,
    Collate,
    NoCase,
    Binary,
}

/// Digits with a minus before them or not, and the number that they write.
#[derive(Drop)]
pub struct Numeral {
    pub text: Text,
    pub value: i64,
    pub ghost written: { value ≡ number_of text },
}

/// What a token is.
#[derive(Drop)]
pub enum Sort {
    Word(Keyword),
    Name(Text),
    Text(Text),
    Number(Numeral),
    Opening,
    Closing,
    Comma,
    Star,
    Semicolon,
    Compare(SqlOp),
    Unclosed,
    Other,
}

/// A token, and the place of its first character.
#[derive(Drop)]
pub struct Token {
    pub sort: Sort,
    pub place: Place,
}
