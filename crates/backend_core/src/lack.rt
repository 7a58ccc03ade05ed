//! What backends lack.

ghost use Rattle.std.specs.Prelude.{◌≡◌, Option};
ghost use Rattle.std.specs.Str.{chars};
ghost use Rattle.event_schema.specs.declared.schema.Schema.{Schema};
ghost use Rattle.backend_core.specs.Lacks.{lack_name, leaf_refusal, lack_refusal, lacks_refusal};
ghost use Rattle.backend_core.specs.View.{tree_view, plains_of};
ghost use Rattle.backend_core.specs.declared.lack.Lack.{Lack};
ghost use Rattle.backend_core.specs.declared.tree.Leaf.{Leaf};
ghost use Rattle.sig_base.specs.Judged.{Judged, first};

use crate::tree::{Leaf, Tree};
use event_schema::Schema;
use sig_base::{Code, Detail, Fault, Refusal, Text};
use std::alloc::Global;

/// What a leaf asks that no query of a backend's language can say.
#[derive(Clone, Copy, Debug, PartialEq, Eq)]
pub enum Lack {
    /// a test of a field that may have several values
    Many,
    /// a regular expression
    Regex,
    /// a comparison of two fields
    FieldRef,
    /// a pattern by case, of a field whose texts' case isn't kept
    Cased,
    /// a pattern of a field of whole numbers
    WholePattern,
    /// the empty text among several values
    EmptyText,
}

impl Lack {
    /// The word for it in a refusal.
    pub fn name(&self) -> &str
        ensures { chars result.now ≡ lack_name self.now }
    {
        match self {
            Lack::Many => "Many",
            Lack::Regex => "Regex",
            Lack::FieldRef => "FieldRef",
            Lack::Cased => "Cased",
            Lack::WholePattern => "WholePattern",
            Lack::EmptyText => "EmptyText",
        }
    }
}

/// A backend, which may not be able to say every leaf.
pub trait Lacking {
    ghost missing: { Schema → Leaf → Option Lack };

    /// What it lacks for a leaf, if anything. Takes no memory.
    fn lacks(&self, schema: &Schema, leaf: &Leaf) -> Option<Lack>
        ensures { result ≡ missing schema.now leaf.now };
}

/// Refuses a leaf at its place where something is lacking for it (111).
fn judge_lack(alloc: Global, leaf: &Leaf, lack: Option<Lack>) -> Result<(), Fault>
    ensures { Judged (λ done. Unit {0}) (leaf_refusal leaf.now lack) result }
{
    let Some(lack) = lack else {
        return Ok(());
    };
    let name = Text::copy(alloc, lack.name())?;
    Err(Fault::Refused(Refusal {
        code: Code::LACKS,
        place: leaf.place,
        detail: Detail::Text(name),
    }))
}

/// Refuses the first leaf in a tree's order for which the backend lacks something (111), at the leaf's place.
#[cycle(lacks)]
pub fn judge_lacks<B: Lacking>(
    alloc: Global,
    backend: &B,
    schema: &Schema,
    tree: &Tree,
) -> Result<(), Fault>
    ensures { Judged (λ done. Unit {0}) (lack_refusal (B.missing schema.now) (tree_view tree.now)) result }
{
    match tree {
        Tree::All(parts) => judge_parts(alloc, backend, schema, parts.as_slice()),
        Tree::Any(parts) => judge_parts(alloc, backend, schema, parts.as_slice()),
        Tree::Not(part) => judge_lacks(alloc, backend, schema, part),
        Tree::Leaf(leaf) => judge_lack(alloc, leaf, backend.lacks(schema, leaf)),
        Tree::Never => Ok(()),
    }
}

#[cycle(lacks)]
fn judge_parts<B: Lacking>(
    alloc: Global,
    backend: &B,
    schema: &Schema,
    parts: &[Tree],
) -> Result<(), Fault>
    ensures { Judged (λ done. Unit {0}) (lacks_refusal (B.missing schema.now) (plains_of parts.now)) result }
{
    for part in parts {
        judge_lacks(alloc, backend, schema, part)?;
    }
    Ok(())
}
