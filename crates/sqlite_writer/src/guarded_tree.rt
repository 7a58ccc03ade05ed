//! Trees whose guards are tests of their own.

ghost use Rattle.std.specs.Prelude.{◌≡◌, true, IfOk, IfErr, OnOk};
ghost use Rattle.backend_core.specs.Joins.{append};
ghost use Rattle.backend_core.specs.View.{tree_view, plains_of};
ghost use Rattle.sqlite_writer.specs.Guarded as guards;
ghost use Rattle.sqlite_writer.specs.Joined as spec;

use crate::place::Kind;
use backend_core::{Leaf, LeafTest, Tree, add_to_all, add_to_any};
use sig_base::Fault;
use std::alloc::{AllocError, Global};

/// Whether a test is unknown where there is no value.
fn is_unsure(test: &LeafTest) -> bool
    ensures { result ≡ guards.is_unsure test.now }
{
    match test {
        LeafTest::Has | LeafTest::Absent => false,
        LeafTest::Fits { .. }
        | LeafTest::Equals(_)
        | LeafTest::Compare { .. }
        | LeafTest::SameAs(_)
        | LeafTest::Finds(_) => true,
    }
}

/// The further field that a test looks at.
fn other_of(test: &LeafTest) -> Option<u32>
    ensures { result ≡ guards.other_of test.now }
{
    match test {
        LeafTest::Has
        | LeafTest::Absent
        | LeafTest::Fits { .. }
        | LeafTest::Equals(_)
        | LeafTest::Compare { .. }
        | LeafTest::Finds(_) => None,
        LeafTest::SameAs(other) => Some(*other),
    }
}

/// Adds a tree to the parts of a list: the parts of a list of the same kind, else the tree itself.
fn add_part(kind: Kind, parts: &mut Vec<Tree>, tree: Tree) -> Result<(), AllocError>
    ensures { OnOk result (plains_of parts.new.items ≡ append (plains_of parts.old.items) (spec.parts_of kind (tree_view tree))) }
{
    match kind {
        Kind::All => add_to_all(parts, tree),
        Kind::Any => add_to_any(parts, tree),
    }
}

/// That a field has a value, where a leaf asks for it.
fn guard_of(field: u32, leaf: &Leaf) -> Leaf
    ensures { result ≡ spec.guard_of field leaf.now }
{
    Leaf {
        field,
        test: LeafTest::Has,
        place: leaf.place,
    }
}

/// All of a leaf's guards and it.
fn behind_guards(alloc: Global, leaf: &Leaf) -> Result<Tree, Fault>
    ensures ok { IfOk result (λ t. tree_view t ≡ spec.guarded_leaf true leaf.now) }
    ensures err { IfErr result (λ e. e ≡ Fault.Memory) }
{
    let copy = leaf.copy(alloc)?;
    let mut parts = Vec::with_capacity(alloc, 3)?;
    parts.push(Tree::Leaf(guard_of(leaf.field, leaf)))?;
    match other_of(&leaf.test) {
        None => {
            parts.push(Tree::Leaf(copy))?;
            Ok(Tree::All(parts))
        }
        Some(other) => {
            parts.push(Tree::Leaf(guard_of(other, leaf)))?;
            parts.push(Tree::Leaf(copy))?;
            Ok(Tree::All(parts))
        }
    }
}

/// The leaf, or all of its guards and it.
fn guarded_leaf(alloc: Global, leaf: &Leaf, is_guarded: bool) -> Result<Tree, Fault>
    ensures ok { IfOk result (λ t. tree_view t ≡ spec.guarded_leaf is_guarded leaf.now) }
    ensures err { IfErr result (λ e. e ≡ Fault.Memory) }
{
    if is_guarded {
        return behind_guards(alloc, leaf);
    }
    Ok(Tree::Leaf(leaf.copy(alloc)?))
}

/// The parts of a list below an odd number of words NOT, or an even one, each guarded and joined to the list.
#[cycle(guarding)]
fn guarded_parts(alloc: Global, kind: Kind, parts: &[Tree], odd: bool) -> Result<Vec<Tree>, Fault>
    ensures ok { IfOk result (λ ts. plains_of ts.items ≡ spec.guarded_parts kind odd (plains_of parts.now)) }
    ensures err { IfErr result (λ e. e ≡ Fault.Memory) }
{
    let mut joined = Vec::with_capacity(alloc, parts.len())?;
    for part in parts {
        let part = guarded(alloc, part, odd)?;
        add_part(kind, &mut joined, part)?;
    }
    Ok(joined)
}

/// The tree that is written for a tree below an odd number of words NOT, or an even one: its guards are tests of their own,
/// and no list stands in a list of its own kind.
#[cycle(guarding)]
pub(crate) fn guarded(alloc: Global, tree: &Tree, odd: bool) -> Result<Tree, Fault>
    ensures ok { IfOk result (λ t. tree_view t ≡ spec.guarded odd (tree_view tree.now)) }
    ensures err { IfErr result (λ e. e ≡ Fault.Memory) }
{
    match tree {
        Tree::All(parts) => {
            let joined = guarded_parts(alloc, Kind::All, parts.as_slice(), odd)?;
            Ok(Tree::All(joined))
        }
        Tree::Any(parts) => {
            let joined = guarded_parts(alloc, Kind::Any, parts.as_slice(), odd)?;
            Ok(Tree::Any(joined))
        }
        Tree::Not(part) => {
            let part = guarded(alloc, part, !odd)?;
            Ok(Tree::Not(Box::new(alloc, part)?))
        }
        Tree::Leaf(leaf) => guarded_leaf(alloc, leaf, odd && is_unsure(&leaf.test)),
        Tree::Never => Ok(Tree::Never),
    }
}
