//! The size of a tree's text in bytes, known before the text is made.

ghost use Rattle.std.specs.Prelude.{◌≡◌, ◌+◌, true, IfOk, IfErr};
ghost use Rattle.std.specs.Str.{chars};
ghost use Rattle.sig_base.specs.Texts.{is_ascii};
ghost use Rattle.backend_core.specs.FieldAt.{name_at, kind_at};
ghost use Rattle.backend_core.specs.View.{tree_view};
ghost use Rattle.sqlite_writer.specs.Pieces.{piece_if, word_of, tree_text, items_text, halved_text, enclosed_if, is_enclosed as is_enclosed_list, standing_in as standing, test_text};
ghost use Rattle.sqlite_writer.specs.Sizes.{bytes_in};

use crate::place::{Kind, MOST_IN_A_ROW, Standing, is_enclosed, standing_in};
use crate::walk::put_leaf;
use backend_core::{Leaf, Tree};
use event_schema::Field;
use sig_base::{Fault, Text};
use std::alloc::Global;

/// The size with more bytes. Past the most that can be counted there is no memory for the text either.
fn add(size: usize, more: usize) -> Result<usize, Fault>
    ensures ok { IfOk result (λ n. n ≡ size + more) }
    ensures err { IfErr result (λ e. e ≡ Fault.Memory) }
{
    match size.checked_add(more) {
        Some(sum) => Ok(sum),
        None => Err(Fault::Memory),
    }
}

/// The size with the bytes of a text.
pub(crate) fn with_text(size: usize, text: &str) -> Result<usize, Fault>
    ensures ok { IfOk result (λ n. n ≡ size + bytes_in (chars text.now)) }
    ensures err { IfErr result (λ e. e ≡ Fault.Memory) }
{
    add(size, text.len())
}

/// The size with a piece of ASCII, or with nothing.
fn with_piece_if(size: usize, so: bool, piece: &str) -> Result<usize, Fault>
    requires { is_ascii piece.now ≡ true }
    ensures ok { IfOk result (λ n. n ≡ size + bytes_in (piece_if so piece.now)) }
    ensures err { IfErr result (λ e. e ≡ Fault.Memory) }
{
    if so {
        return add(size, piece.len());
    }
    Ok(size)
}

/// The size with the word between the parts of a list, or with nothing.
fn with_word_if(size: usize, so: bool, kind: Kind) -> Result<usize, Fault>
    ensures ok { IfOk result (λ n. n ≡ size + bytes_in (piece_if so (word_of kind))) }
    ensures err { IfErr result (λ e. e ≡ Fault.Memory) }
{
    match kind {
        Kind::All => with_piece_if(size, so, " AND "),
        Kind::Any => with_piece_if(size, so, " OR "),
    }
}

/// The size with a test, whose text is made for it and dropped.
fn with_leaf(alloc: Global, size: usize, fields: &[Field], leaf: &Leaf) -> Result<usize, Fault>
    ensures ok { IfOk result (λ n. n ≡ size + bytes_in (test_text fields.now (kind_at fields.now leaf.now.field) (name_at fields.now leaf.now.field) leaf.now.test)) }
    ensures err { IfErr result (λ e. e ≡ Fault.Memory) }
{
    let mut text = Text::new(alloc);
    put_leaf(&mut text, fields, leaf)?;
    with_text(size, text.as_str())
}

/// The size with the parts of a list, in halves where it's long.
#[cycle(sizes)]
fn with_parts(
    alloc: Global,
    size: usize,
    fields: &[Field],
    kind: Kind,
    parts: &[Tree],
) -> Result<usize, Fault>
    ensures ok { IfOk result (λ n. n ≡ size + bytes_in (halved_text kind (items_text fields.now (standing kind) parts.now))) }
    ensures err { IfErr result (λ e. e ≡ Fault.Memory) }
{
    if parts.len() > MOST_IN_A_ROW {
        let (first, second) = parts.split_at(parts.len() - parts.len() / 2);
        let one = with_parts(alloc, size, fields, kind, first)?;
        let word = with_word_if(one, true, kind)?;
        let opened = with_piece_if(word, true, "(")?;
        let two = with_parts(alloc, opened, fields, kind, second)?;
        return with_piece_if(two, true, ")");
    }
    let at = standing_in(kind);
    let mut sum = size;
    let mut behind = false;
    for part in parts {
        sum = with_word_if(sum, behind, kind)?;
        behind = true;
        sum = with_tree(alloc, sum, fields, part, at)?;
    }
    Ok(sum)
}

/// The size with a list that stands here.
#[cycle(sizes)]
fn with_list(
    alloc: Global,
    size: usize,
    fields: &[Field],
    kind: Kind,
    parts: &[Tree],
    at: Standing,
) -> Result<usize, Fault>
    ensures ok { IfOk result (λ n. n ≡ size + bytes_in (enclosed_if (is_enclosed_list kind at) (halved_text kind (items_text fields.now (standing kind) parts.now)))) }
    ensures err { IfErr result (λ e. e ≡ Fault.Memory) }
{
    let enclosed = is_enclosed(kind, at);
    let opened = with_piece_if(size, enclosed, "(")?;
    let sum = with_parts(alloc, opened, fields, kind, parts)?;
    with_piece_if(sum, enclosed, ")")
}

/// The size with a tree that stands here, whose guards are tests of their own.
#[cycle(sizes)]
pub(crate) fn with_tree(
    alloc: Global,
    size: usize,
    fields: &[Field],
    tree: &Tree,
    at: Standing,
) -> Result<usize, Fault>
    ensures ok { IfOk result (λ n. n ≡ size + bytes_in (tree_text fields.now at (tree_view tree.now))) }
    ensures err { IfErr result (λ e. e ≡ Fault.Memory) }
{
    match tree {
        Tree::All(parts) => with_list(alloc, size, fields, Kind::All, parts.as_slice(), at),
        Tree::Any(parts) => with_list(alloc, size, fields, Kind::Any, parts.as_slice(), at),
        Tree::Not(part) => {
            let sum = with_piece_if(size, true, "NOT ")?;
            with_tree(alloc, sum, fields, part, Standing::BehindNot)
        }
        Tree::Leaf(leaf) => with_leaf(alloc, size, fields, leaf),
        Tree::Never => with_piece_if(size, true, "0"),
    }
}
