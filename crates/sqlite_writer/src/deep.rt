//! The depth of a tree's expression.

ghost use Rattle.std.specs.Prelude.{◌≡◌};
ghost use Rattle.sig_strings.specs.Edits.{has_wildcard};
ghost use Rattle.backend_core.specs.View.{tree_view};
ghost use Rattle.sqlite_writer.specs.Depths as depths;

use crate::place::MOST_IN_A_ROW;
use backend_core::{LeafTest, Tree, kind_of};
use event_schema::{Field, FieldKind};

fn one_more(depth: usize) -> usize
    ensures { result ≡ depths.one_more usize.MAX depth }
{
    depth.saturating_add(1)
}

/// The depth of a row of which what stands before is so deep, with a part that is so deep.
fn joined_depth(before: Option<usize>, depth: usize) -> usize
    ensures { result ≡ depths.joined_depth usize.MAX before depth }
{
    match before {
        Some(before) => one_more(before.max(depth)),
        None => depth,
    }
}

fn text_depth(wildcard: bool, cased: bool) -> usize
    ensures { result ≡ depths.text_depth wildcard cased }
{
    if wildcard {
        return 2;
    }
    if cased { 2 } else { 3 }
}

fn same_depth(kind: FieldKind) -> usize
    ensures { result ≡ depths.same_depth kind }
{
    match kind {
        FieldKind::Text | FieldKind::Address => 3,
        FieldKind::Whole => 2,
    }
}

fn test_depth(fields: &[Field], test: &LeafTest) -> usize
    ensures { result ≡ depths.written_depth fields.now test.now }
{
    match test {
        LeafTest::Has | LeafTest::Absent => 2,
        LeafTest::Fits { pattern, cased } => text_depth(pattern.has_wildcard(), *cased),
        LeafTest::Equals(_) | LeafTest::Compare { .. } => 2,
        LeafTest::SameAs(other) => same_depth(kind_of(fields, *other)),
        LeafTest::Finds(_) => 2,
    }
}

fn or_zero(depth: Option<usize>) -> usize
    ensures { result ≡ depths.or_zero depth }
{
    match depth {
        Some(depth) => depth,
        None => 0,
    }
}

/// The depth of a list, in halves where it's long.
#[cycle(depths)]
fn parts_depth(fields: &[Field], parts: &[Tree]) -> usize
    ensures { result ≡ depths.halved_depth usize.MAX (depths.items_depth usize.MAX fields.now parts.now) }
{
    if parts.len() > MOST_IN_A_ROW {
        let (first, second) = parts.split_at(parts.len() - parts.len() / 2);
        let first_depth = parts_depth(fields, first);
        let second_depth = parts_depth(fields, second);
        return one_more(first_depth.max(second_depth));
    }
    let mut depth = None;
    for part in parts {
        let part_depth = tree_depth(fields, part);
        depth = Some(joined_depth(depth, part_depth));
    }
    or_zero(depth)
}

/// The depth of a tree whose guards are tests of their own.
#[cycle(depths)]
pub(crate) fn tree_depth(fields: &[Field], tree: &Tree) -> usize
    ensures { result ≡ depths.tree_depth usize.MAX fields.now (tree_view tree.now) }
{
    match tree {
        Tree::All(parts) => parts_depth(fields, parts.as_slice()),
        Tree::Any(parts) => parts_depth(fields, parts.as_slice()),
        Tree::Not(part) => {
            let depth = tree_depth(fields, part);
            one_more(depth)
        }
        Tree::Leaf(leaf) => test_depth(fields, &leaf.test),
        Tree::Never => 1,
    }
}
