//! Copies of trees, once each.

use crate::tables::assert_told;
use backend_core::{Leaf, LeafTest, Op, Tree};
use sig_base::{Limits, Place, Text};
use sig_strings::{Pattern, SharedPattern};
use std::alloc::Global;
use std::test::Fail;

const PLACE: Place = Place { line: 6, column: 5 };

fn put_leaf(parts: &mut Vec<Tree>, field: u32, test: LeafTest) -> Result<(), Fail> {
    parts.push(Tree::Leaf(Leaf {
        field,
        test,
        place: PLACE,
    }))?;
    Ok(())
}

fn fits(alloc: Global, text: &str) -> Result<LeafTest, Fail> {
    let pattern = Pattern::read(alloc, &Limits::standard(), text, false, PLACE)?;
    Ok(LeafTest::Fits {
        pattern: SharedPattern::share(alloc, pattern)?,
        cased: true,
    })
}

fn put_texts(alloc: Global, parts: &mut Vec<Tree>) -> Result<(), Fail> {
    put_leaf(parts, 1, fits(alloc, "cmd*")?)?;
    put_leaf(parts, 2, fits(alloc, "a?b")?)?;
    put_leaf(parts, 7, LeafTest::Finds(Text::copy(alloc, "^[a-z]+'$")?))
}

fn put_others(parts: &mut Vec<Tree>) -> Result<(), Fail> {
    put_leaf(parts, 3, LeafTest::Has)?;
    put_leaf(parts, 4, LeafTest::Equals(-7))?;
    for op in [Op::Lt, Op::Lte, Op::Gt, Op::Gte] {
        put_leaf(parts, 5, LeafTest::Compare { op, number: 8 })?;
    }
    put_leaf(parts, 6, LeafTest::SameAs(2))
}

/// None of leaves of all kinds but `Absent`, and of what never holds.
fn tree(alloc: Global) -> Result<Tree, Fail> {
    let mut parts = Vec::new(alloc);
    put_texts(alloc, &mut parts)?;
    put_others(&mut parts)?;
    parts.push(Tree::Never)?;
    Ok(Tree::Not(Box::new(alloc, Tree::Any(parts))?))
}

fn shown(alloc: Global, tree: &Tree) -> Result<String, Fail> {
    Ok(format!(in alloc; "{tree:?}")?)
}

fn copy_shown(alloc: Global) -> Result<String, Fail> {
    let copy = tree(alloc)?.copy(alloc)?;
    shown(alloc, &copy)
}

#[test]
fn copies_are_the_same(rt: HostRuntime) -> Result<(), Fail> {
    let whole = tree(rt.alloc())?;
    let whole = shown(rt.alloc(), &whole)?;
    assert_told(&rt, copy_shown(rt.alloc()), whole.as_str())
}
