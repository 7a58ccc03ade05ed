//! The tokens of a query's text.

use crate::runs::Run;
use lucene_lang::Word;
use sig_base::{Place, Text};

/// What a token is, wherever it stands. A run is a word, `*` alone, another one with a wildcard, `TO`, a decimal
/// without a backslash, or any other. A bracket of a range has a flag: square, so that the end is inside. `Unclosed`
/// is a quote that isn't closed with all that follows it, or a backslash at the end of the text: no query has it.
#[derive(Drop, Debug)]
pub enum Sort {
    Joins(Word),
    Not,
    Star,
    Wild(Run),
    To,
    Decimal(Text),
    Plain(Run),
    Phrase(Run),
    Opening,
    Closing,
    Opens(bool),
    Closes(bool),
    Colon,
    Unclosed,
}

/// A token and the place of its first character.
#[derive(Drop, Debug)]
pub struct Token {
    pub sort: Sort,
    pub place: Place,
}
