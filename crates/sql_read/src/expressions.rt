//! From a query as it's written to its expression, or to the first of what is wrong with it. It recurses with open parentheses alone,
//! and what it keeps for each is small: the query is lent, and what is made of a result stands in functions that don't recurse.

ghost use Rattle.std.specs.Prelude.{ℕ, List, ◌≡◌, drop, length, map, IfOk, IfErr};
ghost use Rattle.sql_lang.specs.Expression as expression;
ghost use Rattle.sql_lang.specs.Grammar.{spell_or, spell_and, spell_nots, enclosed};
ghost use Rattle.sql_lang.specs.Grammar as grammar;
ghost use Rattle.query_tokens.specs.Places.{At};
ghost use Rattle.sql_lang.specs.Machine.{and_of, or_of};
ghost use Rattle.sql_lang.specs.View.{expr_view};
ghost use Rattle.sql_scan.specs.View.{places_view};
ghost use Rattle.sql_parse.specs.View.{core_view, nots_view, ands_view, ors_view};
ghost use Rattle.sql_read.specs.Checks.{not_checks, and_checks, or_checks};
ghost use Rattle.sql_read.specs.Chains.{and_list, or_list, nots_on};
ghost use Rattle.sql_read.specs.Walks.{WalkAnswers, AndBuilt, AndAnswers, OrBuilt, OrAnswers};

use crate::leaves::walk_leaf;
use crate::token_places::behind;
use query_lang::Builder;
use sig_base::{Fault, Place};
use sql_check::Columns;
use sql_lang::Expr;
use sql_parse::{Ands, Core, Nots, Ors};
use std::alloc::Global;

/// An expression, and the places of the tokens behind it.
#[derive(Drop)]
pub struct Walked<'p> {
    pub expr: Expr,
    pub rest: &'p [Place],
}

/// The expressions of the parts of a chain before its last one, and the places behind their words.
#[derive(Drop)]
pub struct Chain<'p> {
    pub done: Vec<Expr>,
    pub rest: &'p [Place],
}

/// So many words NOT before an expression.
#[inline(never)]
fn negated(alloc: Global, count: usize, expr: Expr) -> Result<Expr, Fault>
    ensures ok { IfOk result (λ e. expr_view e ≡ nots_on count (expr_view expr)) }
    ensures err { IfErr result (λ e. e ≡ Fault.Memory) }
{
    let mut all = expr;
    for turn in 0..count {
        let _turn = turn;
        all = Expr::Not(Box::new(alloc, all)?);
    }
    Ok(all)
}

/// The expression behind so many words NOT.
#[inline(never)]
fn close_nots<'p>(alloc: Global, count: usize, inner: Walked<'p>) -> Result<Walked<'p>, Fault>
    ensures ok { IfOk result (λ w. (expr_view w.expr ≡ nots_on count (expr_view inner.entry.expr)) × (w.rest.now ≡ inner.entry.rest.now)) }
    ensures err { IfErr result (λ e. e ≡ Fault.Memory) }
{
    let expr = negated(alloc, count, inner.expr)?;
    Ok(Walked {
        expr,
        rest: inner.rest,
    })
}

/// The same expression, with the closing parenthesis passed.
#[inline(never)]
fn closed(inner: Walked<'_>) -> Walked<'_>
    ensures expr { expr_view result.expr ≡ expr_view inner.entry.expr }
    ensures rest { places_view result.rest.now ≡ drop 1 (places_view inner.entry.rest.now) }
{
    Walked {
        expr: inner.expr,
        rest: behind(inner.rest, 1),
    }
}

/// The AND of these parts and the last one, which alone is itself.
#[inline(never)]
fn close_and<'p>(parts: Vec<Expr>, last: Walked<'p>) -> Result<Walked<'p>, Fault>
    ensures ok { IfOk result (λ w. (expr_view w.expr ≡ and_list (map expr_view parts.items) (expr_view last.entry.expr)) × (w.rest.now ≡ last.entry.rest.now)) }
    ensures err { IfErr result (λ e. e ≡ Fault.Memory) }
{
    if parts.is_empty() {
        return Ok(last);
    }
    let mut all = parts;
    all.push(last.expr)?;
    Ok(Walked {
        expr: Expr::And(all),
        rest: last.rest,
    })
}

/// The OR of these parts and the last one, which alone is itself.
#[inline(never)]
fn close_or<'p>(parts: Vec<Expr>, last: Walked<'p>) -> Result<Walked<'p>, Fault>
    ensures ok { IfOk result (λ w. (expr_view w.expr ≡ or_list (map expr_view parts.items) (expr_view last.entry.expr)) × (w.rest.now ≡ last.entry.rest.now)) }
    ensures err { IfErr result (λ e. e ≡ Fault.Memory) }
{
    if parts.is_empty() {
        return Ok(last);
    }
    let mut all = parts;
    all.push(last.expr)?;
    Ok(Walked {
        expr: Expr::Or(all),
        rest: last.rest,
    })
}

#[cycle(walk)]
fn walk_core<'p, B: Builder>(
    alloc: Global,
    columns: &Columns<'_>,
    builder: &mut B,
    core: &Core,
    places: &'p [Place],
) -> Result<Walked<'p>, Fault>
    ensures { WalkAnswers (B.refused builder.old) (B.refused builder.new) (not_checks columns.now (core_view core.now) (places_view places.now))
        (expression.not_expr columns.now (core_view core.now)) (drop (length (spell_nots (core_view core.now))) (places_view places.now)) result }
{
    match core {
        Core::Test(leaf) => walk_leaf(alloc, columns, builder, leaf, places),
        Core::Enclosed(inner) => { walk_enclosed(alloc, columns, builder, inner, places) }
    }
}

#[cycle(walk)]
fn walk_enclosed<'p, B: Builder>(
    alloc: Global,
    columns: &Columns<'_>,
    builder: &mut B,
    inner: &Ors,
    places: &'p [Place],
) -> Result<Walked<'p>, Fault>
    ensures { WalkAnswers (B.refused builder.old) (B.refused builder.new) (not_checks columns.now (enclosed (ors_view inner.now)) (places_view places.now))
        (expression.not_expr columns.now (enclosed (ors_view inner.now))) (drop (length (spell_nots (enclosed (ors_view inner.now)))) (places_view places.now)) result }
{
    match walk_ors(alloc, columns, builder, inner, behind(places, 1)) {
        Ok(walked) => Ok(closed(walked)),
        Err(stop) => Err(stop),
    }
}

#[cycle(walk)]
fn walk_nots<'p, B: Builder>(
    alloc: Global,
    columns: &Columns<'_>,
    builder: &mut B,
    nots: &Nots,
    places: &'p [Place],
) -> Result<Walked<'p>, Fault>
    ensures { WalkAnswers (B.refused builder.old) (B.refused builder.new) (not_checks columns.now (nots_view nots.now) (places_view places.now))
        (expression.not_expr columns.now (nots_view nots.now)) (drop (length (spell_nots (nots_view nots.now))) (places_view places.now)) result }
{
    let count = nots.count;
    match walk_core(alloc, columns, builder, &nots.core, behind(places, count)) {
        Ok(inner) => close_nots(alloc, count, inner),
        Err(stop) => Err(stop),
    }
}

#[cycle(walk)]
fn and_chain<'p, B: Builder>(
    alloc: Global,
    columns: &Columns<'_>,
    builder: &mut B,
    before: &[Nots],
    last: &Nots,
    places: &'p [Place],
) -> Result<Chain<'p>, Fault>
    ensures { AndAnswers columns.now (B.refused builder.old) (B.refused builder.new) (map nots_view before.now) (nots_view last.now) (places_view places.now) result }
{
    let mut done = Vec::new(alloc);
    let mut rest = places;
    for part in before {
        match walk_nots(alloc, columns, builder, part, rest) {
            Ok(walked) => {
                done.push(walked.expr)?;
                rest = behind(walked.rest, 1);
            }
            Err(stop) => return Err(stop),
        }
    }
    Ok(Chain { done, rest })
}

#[cycle(walk)]
fn and_last<'p, B: Builder>(
    alloc: Global,
    columns: &Columns<'_>,
    builder: &mut B,
    last: &Nots,
    chain: Chain<'p>,
) -> Result<Walked<'p>, Fault>
    ensures { (old : List (List ℕ)) (parts : List grammar.Nots) (start : List At) → AndBuilt columns.now old (B.refused builder.old) parts start chain.entry
        → WalkAnswers old (B.refused builder.new) (and_checks columns.now (and_of parts (nots_view last.now)) start)
        (expression.and_expr columns.now (and_of parts (nots_view last.now))) (drop (length (spell_and (and_of parts (nots_view last.now)))) start) result }
{
    match walk_nots(alloc, columns, builder, last, chain.rest) {
        Ok(walked) => close_and(chain.done, walked),
        Err(stop) => Err(stop),
    }
}

#[cycle(walk)]
fn walk_ands<'p, B: Builder>(
    alloc: Global,
    columns: &Columns<'_>,
    builder: &mut B,
    ands: &Ands,
    places: &'p [Place],
) -> Result<Walked<'p>, Fault>
    ensures { WalkAnswers (B.refused builder.old) (B.refused builder.new) (and_checks columns.now (ands_view ands.now) (places_view places.now))
        (expression.and_expr columns.now (ands_view ands.now)) (drop (length (spell_and (ands_view ands.now))) (places_view places.now)) result }
{
    match and_chain(alloc, columns, builder, &ands.before, &ands.last, places) {
        Ok(chain) => and_last(alloc, columns, builder, &ands.last, chain),
        Err(stop) => Err(stop),
    }
}

#[cycle(walk)]
fn or_chain<'p, B: Builder>(
    alloc: Global,
    columns: &Columns<'_>,
    builder: &mut B,
    before: &[Ands],
    last: &Ands,
    places: &'p [Place],
) -> Result<Chain<'p>, Fault>
    ensures { OrAnswers columns.now (B.refused builder.old) (B.refused builder.new) (map ands_view before.now) (ands_view last.now) (places_view places.now) result }
{
    let mut done = Vec::new(alloc);
    let mut rest = places;
    for part in before {
        match walk_ands(alloc, columns, builder, part, rest) {
            Ok(walked) => {
                done.push(walked.expr)?;
                rest = behind(walked.rest, 1);
            }
            Err(stop) => return Err(stop),
        }
    }
    Ok(Chain { done, rest })
}

#[cycle(walk)]
fn or_last<'p, B: Builder>(
    alloc: Global,
    columns: &Columns<'_>,
    builder: &mut B,
    last: &Ands,
    chain: Chain<'p>,
) -> Result<Walked<'p>, Fault>
    ensures { (old : List (List ℕ)) (parts : List grammar.Ands) (start : List At) → OrBuilt columns.now old (B.refused builder.old) parts start chain.entry
        → WalkAnswers old (B.refused builder.new) (or_checks columns.now (or_of parts (ands_view last.now)) start)
        (expression.or_expr columns.now (or_of parts (ands_view last.now))) (drop (length (spell_or (or_of parts (ands_view last.now)))) start) result }
{
    match walk_ands(alloc, columns, builder, last, chain.rest) {
        Ok(walked) => close_or(chain.done, walked),
        Err(stop) => Err(stop),
    }
}

/// The expression of a query's condition, and the places behind it; or the first of what is wrong with it.
#[cycle(walk)]
pub fn walk_ors<'p, B: Builder>(
    alloc: Global,
    columns: &Columns<'_>,
    builder: &mut B,
    ors: &Ors,
    places: &'p [Place],
) -> Result<Walked<'p>, Fault>
    ensures { WalkAnswers (B.refused builder.old) (B.refused builder.new) (or_checks columns.now (ors_view ors.now) (places_view places.now))
        (expression.or_expr columns.now (ors_view ors.now)) (drop (length (spell_or (ors_view ors.now))) (places_view places.now)) result }
{
    match or_chain(alloc, columns, builder, &ors.before, &ors.last, places) {
        Ok(chain) => or_last(alloc, columns, builder, &ors.last, chain),
        Err(stop) => Err(stop),
    }
}
