//! The text of a tree.

ghost use Rattle.std.specs.Prelude.{◌≡◌, ◌++◌, IfErr, OnOk};
ghost use Rattle.backend_core.specs.FieldAt.{name_at};
ghost use Rattle.backend_core.specs.View.{tree_view};
ghost use Rattle.lucene_writer.specs.Pieces as pieces;

use crate::output::{put, put_if};
use crate::place::{Standing, is_alone, is_in_and, is_whole};
use crate::test_text::{put_never, put_test};
use backend_core::{Leaf, LeafTest, Tree, name_of};
use event_schema::Field;
use sig_base::{Fault, Text};
use std::alloc::Global;

fn put_leaf(
    alloc: Global,
    out: &mut Text,
    fields: &[Field],
    leaf: &Leaf,
    at: Standing,
) -> Result<(), Fault>
    ensures ok { OnOk result (out.new ≡ out.old ++ pieces.test_text at (name_at fields.now leaf.now.field) leaf.now.test) }
    ensures err { IfErr result (λ e. e ≡ Fault.Memory) }
{
    let name = name_of(fields, leaf.field);
    put_test(alloc, out, name, at, &leaf.test)
}

/// Whether a tree is a clause with NOT where it stands in an all.
fn is_denied(tree: &Tree) -> bool
    ensures { result ≡ pieces.is_denied (tree_view tree.now) }
{
    match tree {
        Tree::All(_) | Tree::Any(_) => false,
        Tree::Not(_) => true,
        Tree::Leaf(leaf) => is_denied_test(&leaf.test),
        Tree::Never => false,
    }
}

fn is_denied_test(test: &LeafTest) -> bool
    ensures { result ≡ pieces.is_denied_test test.now }
{
    match test {
        LeafTest::Absent => true,
        LeafTest::Has
        | LeafTest::Fits { .. }
        | LeafTest::Equals(_)
        | LeafTest::Compare { .. }
        | LeafTest::SameAs(_)
        | LeafTest::Finds(_) => false,
    }
}

#[tactic(auto, using(crate::proofs::Rows::denied_more, crate::proofs::Rows::denied_here, crate::proofs::Rows::denied_end))]
pub(crate) fn all_denied(parts: &[Tree]) -> bool
    ensures { result ≡ pieces.all_denied parts.now }
{
    for part in parts {
        if !is_denied(part) {
            return false;
        }
    }
    true
}

/// Adds the text of an all of these parts that stands here.
#[cycle(texts)]
fn put_all(
    alloc: Global,
    out: &mut Text,
    fields: &[Field],
    parts: &[Tree],
    at: Standing,
) -> Result<(), Fault>
    ensures ok { OnOk result (out.new ≡ out.old ++ pieces.all_text fields.now at parts.now) }
    ensures err { IfErr result (λ e. e ≡ Fault.Memory) }
{
    let enclosed = !is_whole(at);
    put_if(out, enclosed, "(")?;
    let denied = all_denied(parts);
    put_if(out, denied, "*:* AND ")?;
    let mut behind = false;
    for part in parts {
        put_if(out, behind, " AND ")?;
        behind = true;
        put_tree(alloc, out, fields, part, Standing::InAnd)?;
    }
    put_if(out, enclosed, ")")?;
    Ok(())
}

/// Adds the text of an any of these parts that stands here.
#[cycle(texts)]
fn put_any(
    alloc: Global,
    out: &mut Text,
    fields: &[Field],
    parts: &[Tree],
    at: Standing,
) -> Result<(), Fault>
    ensures ok { OnOk result (out.new ≡ out.old ++ pieces.any_text fields.now at parts.now) }
    ensures err { IfErr result (λ e. e ≡ Fault.Memory) }
{
    let enclosed = !is_whole(at);
    put_if(out, enclosed, "(")?;
    let mut behind = false;
    for part in parts {
        put_if(out, behind, " OR ")?;
        behind = true;
        put_tree(alloc, out, fields, part, Standing::Alone)?;
    }
    put_if(out, enclosed, ")")?;
    Ok(())
}

/// Adds the text of a tree that stands here.
#[cycle(texts)]
pub(crate) fn put_tree(
    alloc: Global,
    out: &mut Text,
    fields: &[Field],
    tree: &Tree,
    at: Standing,
) -> Result<(), Fault>
    ensures ok { OnOk result (out.new ≡ out.old ++ pieces.tree_text fields.now at (tree_view tree.now)) }
    ensures err { IfErr result (λ e. e ≡ Fault.Memory) }
{
    match tree {
        Tree::All(parts) => put_all(alloc, out, fields, parts.as_slice(), at),
        Tree::Any(parts) => put_any(alloc, out, fields, parts.as_slice(), at),
        Tree::Not(part) => {
            let enclosed = is_alone(at);
            put_if(out, enclosed, "(")?;
            let bare = !is_in_and(at);
            put_if(out, bare, "*:* AND ")?;
            put(out, "NOT ")?;
            put_tree(alloc, out, fields, part, Standing::Alone)?;
            put_if(out, enclosed, ")")?;
            Ok(())
        }
        Tree::Leaf(leaf) => put_leaf(alloc, out, fields, leaf, at),
        Tree::Never => put_never(out, at),
    }
}
