//! The query of a tree.

ghost use Rattle.std.specs.Prelude.{◌≡◌, ◌≤◌, ◌^◌, ◌-◌, ◌++◌, ℕ, length, min, pos, false, None, IfOk, IfErr, OnOk};
ghost use Rattle.backend_core.specs.Lacks.{lack_refusal};
ghost use Rattle.backend_core.specs.Sound.{IsSound};
ghost use Rattle.backend_core.specs.Trees.{Plain};
ghost use Rattle.backend_core.specs.View.{tree_view};
ghost use Rattle.sql_lang.specs.Expression.{depth};
ghost use Rattle.sqlite_writer.specs.Queries.{query_tree, query_text, query_bytes, query_expr, IsQueryOf};
ghost use Rattle.sqlite_writer.specs.Pieces.{head_text, written_text};
ghost use Rattle.sqlite_writer.specs.Sizes.{bytes_in};
ghost use Rattle.sqlite_writer.specs.Joined.{guarded as guarded_tree};
ghost use Rattle.sqlite_writer.specs.Lacking.{sqlite_lacks};
ghost use Rattle.backend_core.specs.Writing.{numbered};
ghost use Rattle.sqlite_writer.specs.Refused.{IsRefused, IsUnwritten};
ghost use Rattle.sqlite_writer.specs.Schemas.{IsFoundSchema};
ghost use Rattle.sqlite_writer.specs.Shallow.{ListsAreShallow};

use crate::deep::tree_depth;
use crate::guarded_tree::guarded;
use crate::laws::{lists_are_shallow, tree_is_query};
use crate::output::{put, put_name};
use crate::place::Standing;
use crate::sizes::{with_text, with_tree};
use crate::walk::put_tree;
use backend_core::{Tree, judge_lacks};
use event_schema::Schema;
use sig_base::{Bytes, Code, Detail, Fault, Limits, Place, Refusal, Text};
use std::alloc::Global;

/// The writer of queries for SQLite.
#[derive(Clone, Copy, Debug)]
pub struct Sqlite;

/// Adds what stands before the condition.
fn put_head(out: &mut Text, schema: &Schema) -> Result<(), Fault>
    ensures ok { OnOk result (out.new ≡ out.old ++ head_text schema.now.table) }
    ensures err { IfErr result (λ e. e ≡ Fault.Memory) }
{
    put(out, "SELECT * FROM ")?;
    put_name(out, schema.table.as_str())?;
    put(out, " WHERE ")?;
    Ok(())
}

/// The characters of a tree's query, which has so many bytes. `written` is the tree with its guards.
fn query_of(alloc: Global, bytes: usize, schema: &Schema, written: &Tree) -> Result<Text, Fault>
    ensures ok { IfOk result (λ text. text ≡ written_text schema.now (tree_view written.now)) }
    ensures sound { (t : Plain) → tree_view written.now ≡ guarded_tree false t → IsSound schema.now.fields t
        → IfOk result (λ text. text ≡ query_text schema.now t) }
    ensures err { IfErr result (λ e. e ≡ Fault.Memory) }
{
    // with room for a line feed behind it
    let mut out = Text::with_capacity(alloc, bytes.saturating_add(1))?;
    put_head(&mut out, schema)?;
    put_tree(&mut out, schema.fields.as_slice(), written, Standing::InOr)?;
    Ok(out)
}

/// How many bytes the query of a tree has. `written` is the tree with its guards.
fn query_size(alloc: Global, schema: &Schema, written: &Tree) -> Result<usize, Fault>
    ensures ok { IfOk result (λ n. n ≡ bytes_in (written_text schema.now (tree_view written.now))) }
    ensures sound { (t : Plain) → tree_view written.now ≡ guarded_tree false t → IsSound schema.now.fields t
        → IfOk result (λ n. n ≡ length (query_bytes schema.now t)) }
    ensures err { IfErr result (λ e. e ≡ Fault.Memory) }
{
    let mut head = Text::new(alloc);
    put_head(&mut head, schema)?;
    let size = with_text(0, head.as_str())?;
    with_tree(
        alloc,
        size,
        schema.fields.as_slice(),
        written,
        Standing::InOr,
    )
}

/// The depth of a tree's query. `written` is the tree with its guards.
fn query_depth(schema: &Schema, written: &Tree) -> usize
    ensures { (t : Plain) → tree_view written.now ≡ guarded_tree false t → IsSound schema.now.fields t
        → result ≡ min (depth (query_expr schema.now t)) (2 ^ 64 - 1) }
{
    tree_depth(schema.fields.as_slice(), written)
}

fn refused(code: Code, place: Place, count: usize, limit: usize) -> Fault
    ensures { result ≡ Fault.Refused (numbered code place count limit) }
{
    Fault::Refused(Refusal {
        code,
        place,
        detail: Detail::Numbers(count as i128, limit as i128),
    })
}

impl Sqlite {
    /// The query of a sound tree, without a line feed. It is refused, before it is made, at the first leaf for which something
    /// is lacking (111: a test of a field that may have several values), else at `place` where it's deeper than `sql_depth`
    /// (112), or else longer than `query_bytes` (114).
    pub fn text(
        &self,
        alloc: Global,
        limits: &Limits,
        schema: &Schema,
        tree: &Tree,
        place: Place,
    ) -> Result<Bytes, Fault>
        ensures bytes { IsSound schema.now.fields (tree_view tree.now)
            → IfOk result (λ bytes. bytes ≡ query_bytes schema.now (tree_view tree.now)) }
        ensures lacks { OnOk result (lack_refusal (sqlite_lacks schema.now.fields) (tree_view tree.now) ≡ None) }
        ensures law { IsSound schema.now.fields (tree_view tree.now) → IsFoundSchema schema.now
            → IfOk result (λ bytes. (limit : ℕ) → 1 ≤ limit
            → depth (query_expr schema.now (tree_view tree.now)) ≤ limit
            → IsQueryOf limit schema.now (tree_view tree.now) bytes) }
        ensures deep { IsSound schema.now.fields (tree_view tree.now)
            → IfOk result (λ bytes. depth (query_expr schema.now (tree_view tree.now)) ≤ limits.now.sql_depth) }
        ensures lists { ListsAreShallow schema.now.fields (query_tree schema.now (tree_view tree.now)) }
        ensures long { IfOk result (λ bytes. length bytes ≤ limits.now.query_bytes) }
        ensures refused { IsSound schema.now.fields (tree_view tree.now)
            → IfErr result (λ e. IsRefused (lack_refusal (sqlite_lacks schema.now.fields) (tree_view tree.now))
            (IsUnwritten limits.now.sql_depth limits.now.query_bytes place
            (depth (query_expr schema.now (tree_view tree.now))) (length (query_bytes schema.now (tree_view tree.now)))) e) }
    {
        lists_are_shallow();
        judge_lacks(alloc, self, schema, tree)?;
        self.written(alloc, limits, schema, tree, place)
    }

    /// The query of a tree, refused for its depth or else its bytes alone.
    fn written(
        &self,
        alloc: Global,
        limits: &Limits,
        schema: &Schema,
        tree: &Tree,
        place: Place,
    ) -> Result<Bytes, Fault>
        ensures bytes { IsSound schema.now.fields (tree_view tree.now)
            → IfOk result (λ bytes. bytes ≡ query_bytes schema.now (tree_view tree.now)) }
        ensures law { IsSound schema.now.fields (tree_view tree.now) → IsFoundSchema schema.now
            → lack_refusal (sqlite_lacks schema.now.fields) (tree_view tree.now) ≡ None
            → IfOk result (λ bytes. (limit : ℕ) → 1 ≤ limit
            → depth (query_expr schema.now (tree_view tree.now)) ≤ limit
            → IsQueryOf limit schema.now (tree_view tree.now) bytes) }
        ensures deep { IsSound schema.now.fields (tree_view tree.now)
            → IfOk result (λ bytes. depth (query_expr schema.now (tree_view tree.now)) ≤ limits.now.sql_depth) }
        ensures long { IfOk result (λ bytes. length bytes ≤ limits.now.query_bytes) }
        ensures refused { IsSound schema.now.fields (tree_view tree.now) → IfErr result (λ e. IsUnwritten limits.now.sql_depth limits.now.query_bytes place
            (depth (query_expr schema.now (tree_view tree.now))) (length (query_bytes schema.now (tree_view tree.now))) e) }
    {
        tree_is_query();
        let written = guarded(alloc, tree, false)?;
        let depth = query_depth(schema, &written);
        if depth > limits.sql_depth {
            return Err(refused(Code::QUERY_TOO_DEEP, place, depth, limits.sql_depth));
        }
        let size = query_size(alloc, schema, &written)?;
        if size > limits.query_bytes {
            return Err(refused(Code::QUERY_TOO_LONG, place, size, limits.query_bytes));
        }
        let query = query_of(alloc, size, schema, &written)?;
        Ok(Bytes::from_vec(query.into_bytes()))
    }
}
