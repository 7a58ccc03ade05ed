//! Numbers of fields whose names are one but for case, and what is found where no field has a name.

use crate::tables::{Asked, assert_told, wrong_row};
use event_schema::{Field, FieldKind, FieldList};
use schema_index::FieldNumbers;
use sig_base::{Text, Texts};
use std::alloc::Global;
use std::test::Fail;

fn field(alloc: Global, name: &str) -> Result<Field, Fail> {
    let mut at = Texts::new(alloc);
    at.push(Text::copy(alloc, name)?)?;
    Ok(Field {
        name: Text::copy(alloc, name)?,
        kind: FieldKind::Text,
        at,
        search: false,
        cased: false,
        many: false,
    })
}

/// Fields with the names that the words are.
fn fields(alloc: Global, words: &str) -> Result<FieldList, Fail> {
    let mut all = FieldList::new(alloc);
    for word in words.split(' ') {
        all.push(field(alloc, word)?)?;
    }
    Ok(all)
}

/// Asks for the number that a name is looked up by among these fields, if it's one of theirs, and the number that is found.
#[derive(Clone, Copy)]
struct Among {
    words: &'static str,
}

impl Asked for Among {
    fn told(&self, alloc: Global, given: &str) -> Result<String, Fail> {
        let all = fields(alloc, self.words)?;
        let numbers = FieldNumbers::of(alloc, all.as_slice())?;
        let name = Text::copy(alloc, given)?;
        let found = numbers.find(all.as_slice(), &name);
        match numbers.look_up(all.as_slice(), &name) {
            Some(number) => Ok(format!(in alloc; "{number} {found}")?),
            None => Ok(format!(in alloc; "none {found}")?),
        }
    }
}

/// Among five fields, of which two have one name but for case.
const FEW_NUMBERS: &str = "4 4~A
none 5~B";

const MANY: &str =
    "f0 f1 f2 f3 f4 f5 f6 f7 f8 f9 g0 g1 g2 g3 g4 g5 g6 g7 g8 g9 h0 h1 h2 h3 h4 h5 h6 h7 h8 h9 i0 i1 i2 s0";

#[test]
fn names_have_numbers(rt: HostRuntime) -> Result<(), Fail> {
    let few = Among {
        words: "a s1 b s2 A",
    };
    assert_told(&rt, wrong_row(rt.alloc(), &few, FEW_NUMBERS), "")?;
    let many = Among { words: MANY };
    assert_told(&rt, wrong_row(rt.alloc(), &many, "none 34~s1"), "")
}
