//! First numbers of texts, by hand.

use crate::tables::{Asked, answer, assert_told, wrong_row};
use sig_base::{Text, Texts};
use std::alloc::Global;
use std::test::Fail;
use text_index::TextIndex;

/// Asks for the first number of a text in an index.
#[derive(Drop)]
struct FirstNumbers {
    index: TextIndex,
}

impl Asked for FirstNumbers {
    fn told(&self, alloc: Global, given: &str) -> Result<String, Fail> {
        let text = Text::copy(alloc, given)?;
        match self.index.find(&text) {
            Some(number) => Ok(format!(in alloc; "{number}")?),
            None => answer(alloc, "none"),
        }
    }
}

/// The first row that is told otherwise of these texts, which have a space between them.
fn wrong_number(alloc: Global, words: &str, table: &str) -> Result<String, Fail> {
    let mut texts = Texts::new(alloc);
    for text in words.split(' ') {
        texts.push(Text::copy(alloc, text)?)?;
    }
    let index = TextIndex::number(alloc, texts)?;
    wrong_row(alloc, &FirstNumbers { index }, table)
}

/// Of `b`, `a`, the empty text, `é` and `a`.
const FEW: &str = "0~b
1~a
2~
3~é
none~A
none~ab";

#[test]
fn first_numbers_are_found(rt: HostRuntime) -> Result<(), Fail> {
    assert_told(&rt, wrong_number(rt.alloc(), "b a  é a", FEW), "")
}

const MANY: &str = "0~q
1~w
10~a
15~h
17~é
none~b
none~
none~ü";

#[test]
fn first_numbers_of_many_are_found(rt: HostRuntime) -> Result<(), Fail> {
    let words = "q w e r t y u i o p a s d f g h w é";
    assert_told(&rt, wrong_number(rt.alloc(), words, MANY), "")
}
