//! How deep a query is.

ghost use Rattle.std.specs.Prelude.{List, ◌≡◌, nat_lt, min, map, None};
ghost use Rattle.event_schema.specs.declared.schema.Field.{Field};
ghost use Rattle.sql_lang.specs.Expression.{depth, or_expr, collated_depth};
ghost use Rattle.sql_lang.specs.Grammar as grammar;
ghost use Rattle.sql_lang.specs.Machine.{and_of, or_of};
ghost use Rattle.sql_parse.specs.View.{ors_view, ands_view, nots_view, core_view, leaf_view};
ghost use Rattle.sql_lang.specs.View.{collate_view};
ghost use Rattle.sql_check.specs.Depths as depths;

use sql_lang::Collate;
use sql_parse::{Ands, Core, Leaf, Nots, Ors};

fn collated_depth(collate: Collate) -> u128
    ensures { result ≡ collated_depth (collate_view collate) }
{
    match collate {
        Collate::Unsaid => 1,
        Collate::NoCase | Collate::Binary => 2,
    }
}

fn leaf_depth(leaf: &Leaf) -> u128
    ensures { result ≡ depths.leaf_depth (leaf_view leaf.now) }
{
    match leaf {
        Leaf::Constant(_) => 1,
        Leaf::IsNull { .. } | Leaf::Like { .. } | Leaf::Glob { .. } | Leaf::Regexp { .. } => 2,
        Leaf::Compare { left, collate, .. } => {
            1 + collated_depth(*left).max(collated_depth(*collate))
        }
        Leaf::OneOf { collate, .. } | Leaf::Between { collate, .. } => 1 + collated_depth(*collate),
    }
}

/// How deep a chain is with one more part, where what stands before it is so deep; `most` where it's deeper.
fn join(most: u128, deep: Option<u128>, part: u128) -> u128
    ensures { result ≡ min (depths.joined deep part) most }
{
    match deep {
        Some(deep) => deep.max(part).saturating_add(1).min(most),
        None => part.min(most),
    }
}

#[cycle(depth)]
fn core_depth(most: u128, core: &Core) -> u128
    ensures { result ≡ min (depths.nots_depth (core_view core.now)) most }
{
    match core {
        Core::Test(leaf) => leaf_depth(leaf).min(most),
        Core::Enclosed(ors) => ors_depth(most, ors),
    }
}

#[cycle(depth)]
fn nots_depth(most: u128, nots: &Nots) -> u128
    ensures { result ≡ min (depths.nots_depth (nots_view nots.now)) most }
{
    let deep = core_depth(most, &nots.core);
    deep.saturating_add(nots.count as u128).min(most)
}

#[cycle(depth)]
fn and_front(most: u128, before: &[Nots]) -> Option<u128>
    ensures { (last : grammar.Nots) → min (depths.joined result (depths.nots_depth last)) most ≡ min (depths.and_depth (and_of (map nots_view before.now) last) None) most }
{
    let mut deep = None;
    for part in before {
        deep = Some(join(most, deep, nots_depth(most, part)));
    }
    deep
}

#[cycle(depth)]
fn ands_depth(most: u128, ands: &Ands) -> u128
    ensures { result ≡ min (depths.and_depth (ands_view ands.now) None) most }
{
    let front = and_front(most, &ands.before);
    join(most, front, nots_depth(most, &ands.last))
}

#[cycle(depth)]
fn or_front(most: u128, before: &[Ands]) -> Option<u128>
    ensures { (last : grammar.Ands) → min (depths.joined result (depths.and_depth last None)) most ≡ min (depths.or_depth (or_of (map ands_view before.now) last) None) most }
{
    let mut deep = None;
    for part in before {
        deep = Some(join(most, deep, ands_depth(most, part)));
    }
    deep
}

#[cycle(depth)]
fn ors_depth(most: u128, ors: &Ors) -> u128
    ensures { result ≡ min (depths.or_depth (ors_view ors.now) None) most }
{
    let front = or_front(most, &ors.before);
    join(most, front, ands_depth(most, &ors.last))
}

/// Whether the expression of a condition is deeper than the limit, which doesn't depend on the columns.
pub fn is_too_deep(limit: usize, ors: &Ors) -> bool
    ensures { (fields : List Field) → result ≡ nat_lt limit (depth (or_expr fields (ors_view ors.now))) }
{
    (limit as u128) < ors_depth(limit as u128 + 1, ors)
}
