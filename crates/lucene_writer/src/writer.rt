//! The query of a tree.

ghost use Rattle.std.specs.Prelude.{◌≡◌, ◌<◌, ℕ, min, length, IfOk, IfErr};
ghost use Rattle.sig_base.specs.Judged.{Judged};
ghost use Rattle.backend_core.specs.Sound.{IsSound};
ghost use Rattle.backend_core.specs.View.{tree_view};
ghost use Rattle.backend_core.specs.Writing.{numbered, at_most, Writes};
ghost use Rattle.lucene_writer.specs.Lacking.{lucene_lacks};
ghost use Rattle.lucene_writer.specs.Queries.{query_text, query_bytes};
ghost use Rattle.lucene_writer.specs.Refused.{counted_at_most, deep_refusal};

use crate::counts::{tree_clauses, tree_opens};
use crate::laws::pieces_are_query;
use crate::place::Standing;
use crate::walk::put_tree;
use backend_core::{Tree, judge_lacks};
use event_schema::Schema;
use sig_base::{Bytes, Code, Detail, Fault, Limits, Place, Refusal, Text};
use std::alloc::Global;

/// The writer of queries for Lucene.
#[derive(Clone, Copy, Debug)]
pub struct LuceneText;

fn refused(code: Code, place: Place, count: usize, limit: usize) -> Fault
    ensures { result ≡ Fault.Refused (numbered code place count limit) }
{
    Fault::Refused(Refusal {
        code,
        place,
        detail: Detail::Numbers(count as i128, limit as i128),
    })
}

/// Refuses a count past the limit; it's counted up to the most that a number can be.
fn judge_count(code: Code, place: Place, count: usize, limit: usize) -> Result<(), Fault>
    ensures { (counted : ℕ) → count ≡ min counted usize.MAX → limit < usize.MAX
        → Judged (λ done. Unit {0}) (counted_at_most code place counted limit) result }
{
    if count > limit {
        return Err(refused(code, place, count, limit));
    }
    Ok(())
}

/// Refuses more open parentheses than `lucene_depth` (112), or else more leaf clauses than `lucene_clauses` (113).
fn judge_size(limits: &Limits, schema: &Schema, tree: &Tree, place: Place) -> Result<(), Fault>
    ensures { IsSound schema.now.fields (tree_view tree.now)
        → Judged (λ done. Unit {0}) (deep_refusal limits.now schema.now (tree_view tree.now) place) result }
{
    pieces_are_query();
    let opens = tree_opens(tree, Standing::Whole);
    judge_count(Code::QUERY_TOO_DEEP, place, opens, limits.lucene_depth)?;
    let clauses = tree_clauses(tree, Standing::Whole);
    judge_count(
        Code::TOO_MANY_CLAUSES,
        place,
        clauses,
        limits.lucene_clauses,
    )
}

/// The characters of a tree's query.
fn query_of(alloc: Global, schema: &Schema, tree: &Tree) -> Result<Text, Fault>
    ensures ok { IsSound schema.now.fields (tree_view tree.now)
        → IfOk result (λ text. text ≡ query_text schema.now (tree_view tree.now)) }
    ensures err { IfErr result (λ e. e ≡ Fault.Memory) }
{
    pieces_are_query();
    let mut out = Text::new(alloc);
    put_tree(
        alloc,
        &mut out,
        schema.fields.as_slice(),
        tree,
        Standing::Whole,
    )?;
    Ok(out)
}

/// Refuses more bytes than `query_bytes` (114).
fn judge_bytes(size: usize, limits: &Limits, place: Place) -> Result<(), Fault>
    ensures { Judged (λ done. Unit {0}) (at_most 114 place size size limits.now.query_bytes) result }
{
    if size > limits.query_bytes {
        return Err(refused(Code::QUERY_TOO_LONG, place, size, limits.query_bytes));
    }
    Ok(())
}

impl LuceneText {
    /// The query of a sound tree, without a line feed. It is refused at the first leaf for which something is lacking (111), else at
    /// `place` for its open parentheses (112) or its leaf clauses (113), or else for more than `query_bytes` (114).
    pub fn text(
        &self,
        alloc: Global,
        limits: &Limits,
        schema: &Schema,
        tree: &Tree,
        place: Place,
    ) -> Result<Bytes, Fault>
        ensures { IsSound schema.now.fields (tree_view tree.now)
            → Writes (λ s l. lucene_lacks s.fields l) query_bytes deep_refusal limits.now schema.now (tree_view tree.now) place result }
    {
        judge_lacks(alloc, self, schema, tree)?;
        judge_size(limits, schema, tree, place)?;
        let query = query_of(alloc, schema, tree)?;
        judge_bytes(query.as_str().len(), limits, place)?;
        Ok(Bytes::from_vec(query.into_bytes()))
    }
}
