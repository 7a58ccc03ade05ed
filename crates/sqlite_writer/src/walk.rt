//! The text of a tree.

ghost use Rattle.std.specs.Prelude.{◌≡◌, ◌++◌, IfErr, OnOk};
ghost use Rattle.backend_core.specs.FieldAt.{name_at, kind_at};
ghost use Rattle.backend_core.specs.View.{tree_view};
ghost use Rattle.sqlite_writer.specs.Pieces.{tree_text, items_text, halved_text, enclosed_if, is_enclosed as is_enclosed_list, standing_in as standing, test_text};

use crate::output::{put, put_if, put_word_if};
use crate::place::{Kind, MOST_IN_A_ROW, Standing, is_enclosed, standing_in};
use crate::test_text::put_test;
use backend_core::{Leaf, Tree, kind_of, name_of};
use event_schema::Field;
use sig_base::{Fault, Text};

pub(crate) fn put_leaf(out: &mut Text, fields: &[Field], leaf: &Leaf) -> Result<(), Fault>
    ensures ok { OnOk result (out.new ≡ out.old ++ test_text fields.now (kind_at fields.now leaf.now.field) (name_at fields.now leaf.now.field) leaf.now.test) }
    ensures err { IfErr result (λ e. e ≡ Fault.Memory) }
{
    let name = name_of(fields, leaf.field);
    let kind = kind_of(fields, leaf.field);
    put_test(out, fields, kind, name, &leaf.test)
}

/// Adds the text of the parts of a list, in halves where it's long.
#[cycle(texts)]
fn put_parts(out: &mut Text, fields: &[Field], kind: Kind, parts: &[Tree]) -> Result<(), Fault>
    ensures ok { OnOk result (out.new ≡ out.old ++ halved_text kind (items_text fields.now (standing kind) parts.now)) }
    ensures err { IfErr result (λ e. e ≡ Fault.Memory) }
{
    if parts.len() > MOST_IN_A_ROW {
        let (first, second) = parts.split_at(parts.len() - parts.len() / 2);
        put_parts(out, fields, kind, first)?;
        put_word_if(out, true, kind)?;
        put(out, "(")?;
        put_parts(out, fields, kind, second)?;
        put(out, ")")?;
        return Ok(());
    }
    let at = standing_in(kind);
    let mut behind = false;
    for part in parts {
        put_word_if(out, behind, kind)?;
        behind = true;
        put_tree(out, fields, part, at)?;
    }
    Ok(())
}

/// Adds the text of a list that stands here.
#[cycle(texts)]
fn put_list(
    out: &mut Text,
    fields: &[Field],
    kind: Kind,
    parts: &[Tree],
    at: Standing,
) -> Result<(), Fault>
    ensures ok { OnOk result (out.new ≡ out.old ++ enclosed_if (is_enclosed_list kind at) (halved_text kind (items_text fields.now (standing kind) parts.now))) }
    ensures err { IfErr result (λ e. e ≡ Fault.Memory) }
{
    let enclosed = is_enclosed(kind, at);
    put_if(out, enclosed, "(")?;
    put_parts(out, fields, kind, parts)?;
    put_if(out, enclosed, ")")?;
    Ok(())
}

/// Adds the text of a tree that stands here, whose guards are tests of their own.
#[cycle(texts)]
pub(crate) fn put_tree(
    out: &mut Text,
    fields: &[Field],
    tree: &Tree,
    at: Standing,
) -> Result<(), Fault>
    ensures ok { OnOk result (out.new ≡ out.old ++ tree_text fields.now at (tree_view tree.now)) }
    ensures err { IfErr result (λ e. e ≡ Fault.Memory) }
{
    match tree {
        Tree::All(parts) => put_list(out, fields, Kind::All, parts.as_slice(), at),
        Tree::Any(parts) => put_list(out, fields, Kind::Any, parts.as_slice(), at),
        Tree::Not(part) => {
            put(out, "NOT ")?;
            put_tree(out, fields, part, Standing::BehindNot)
        }
        Tree::Leaf(leaf) => put_leaf(out, fields, leaf),
        Tree::Never => put(out, "0"),
    }
}
