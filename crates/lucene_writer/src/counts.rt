//! The parentheses and the leaf clauses of a tree's query, known before its text is made.

ghost use Rattle.std.specs.Prelude.{◌≡◌, not};
ghost use Rattle.backend_core.specs.View.{tree_view};
ghost use Rattle.lucene_writer.specs.Counts as counts;
ghost use Rattle.lucene_writer.specs.Pieces as pieces;

use crate::place::{Standing, is_alone, is_in_and, is_whole};
use crate::walk::all_denied;
use backend_core::{LeafTest, Tree};

fn one_if(so: bool) -> usize
    ensures { result ≡ counts.one_if so }
{
    if so { 1 } else { 0 }
}

fn add(count: usize, more: usize) -> usize
    ensures { result ≡ counts.add usize.MAX count more }
{
    count.saturating_add(more)
}

/// The parentheses around a list.
fn around(at: Standing) -> usize
    ensures { result ≡ counts.one_if (not (pieces.is_whole at)) }
{
    one_if(!is_whole(at))
}

/// The clauses that stand before those of an all.
fn leading(parts: &[Tree]) -> usize
    ensures { result ≡ counts.one_if (pieces.all_denied parts.now) }
{
    one_if(all_denied(parts))
}

fn test_opens(at: Standing, test: &LeafTest) -> usize
    ensures { result ≡ counts.test_opens at test.now }
{
    match test {
        LeafTest::Has | LeafTest::Equals(_) | LeafTest::Compare { .. } => 0,
        LeafTest::Absent | LeafTest::SameAs(_) | LeafTest::Finds(_) => one_if(is_alone(at)),
        LeafTest::Fits { pattern, .. } => {
            let empty = pattern.parts().is_empty();
            one_if(empty && is_alone(at))
        }
    }
}

fn test_clauses(at: Standing, test: &LeafTest) -> usize
    ensures { result ≡ counts.test_clauses at test.now }
{
    match test {
        LeafTest::Has | LeafTest::Equals(_) | LeafTest::Compare { .. } => 1,
        LeafTest::SameAs(_) | LeafTest::Finds(_) => 2,
        LeafTest::Absent => if is_in_and(at) { 1 } else { 2 },
        LeafTest::Fits { pattern, .. } => if pattern.parts().is_empty() { 2 } else { 1 },
    }
}

/// The most parentheses that are open at one place of a tree's text.
#[cycle(opens)]
pub(crate) fn tree_opens(tree: &Tree, at: Standing) -> usize
    ensures { result ≡ counts.tree_opens usize.MAX at (tree_view tree.now) }
{
    match tree {
        Tree::All(parts) => {
            let inside = parts_opens(parts.as_slice(), Standing::InAnd);
            add(inside, around(at))
        }
        Tree::Any(parts) => {
            let inside = parts_opens(parts.as_slice(), Standing::Alone);
            add(inside, around(at))
        }
        Tree::Not(part) => {
            let most = tree_opens(part, Standing::Alone);
            add(most, one_if(is_alone(at)))
        }
        Tree::Leaf(leaf) => test_opens(at, &leaf.test),
        Tree::Never => one_if(is_alone(at)),
    }
}

#[cycle(opens)]
fn parts_opens(parts: &[Tree], at: Standing) -> usize
    ensures { result ≡ counts.items_opens usize.MAX at parts.now }
{
    let mut most = 0;
    for part in parts {
        let opens = tree_opens(part, at);
        most = opens.max(most);
    }
    most
}

/// The leaf clauses of a tree's text, `*:*` included.
#[cycle(clauses)]
pub(crate) fn tree_clauses(tree: &Tree, at: Standing) -> usize
    ensures { result ≡ counts.tree_clauses usize.MAX at (tree_view tree.now) }
{
    match tree {
        Tree::All(parts) => {
            let parts = parts.as_slice();
            let inside = parts_clauses(parts, Standing::InAnd);
            add(inside, leading(parts))
        }
        Tree::Any(parts) => parts_clauses(parts.as_slice(), Standing::Alone),
        Tree::Not(part) => {
            let count = tree_clauses(part, Standing::Alone);
            add(count, one_if(!is_in_and(at)))
        }
        Tree::Leaf(leaf) => test_clauses(at, &leaf.test),
        Tree::Never => 2,
    }
}

#[cycle(clauses)]
fn parts_clauses(parts: &[Tree], at: Standing) -> usize
    ensures { result ≡ counts.items_clauses usize.MAX at parts.now }
{
    let mut count = 0;
    for part in parts {
        let clauses = tree_clauses(part, at);
        count = add(count, clauses);
    }
    count
}
