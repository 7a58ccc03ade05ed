//! The query that bytes are.

ghost use Rattle.std.specs.Prelude.{ℕ, List, ◌≡◌, ◌≤◌, ◌<◌, ◌+◌, ◌^◌, length, false, None, IsUtf8, IfOk, IfErr};
ghost use Rattle.std.specs.Str.{chars};
ghost use Rattle.query_lang.specs.Answers.{ReadAnswers};
ghost use Rattle.query_tokens.specs.Places.{origin, place_after};
ghost use Rattle.query_tokens.specs.Tokens.{sorts, places};
ghost use Rattle.sql_lang.specs.Expression as expression;
ghost use Rattle.sql_lang.specs.Reading as reading;
ghost use Rattle.sql_lang.specs.Regexps.{byte_regexps};
ghost use Rattle.sql_lang.specs.Tokens as tokens;
ghost use Rattle.sql_lang.specs.Queries.{IsWithin};
ghost use Rattle.sql_lang.specs.View.{expr_view};
ghost use Rattle.query_tokens.specs.PlaceView.{place_view};
ghost use Rattle.sql_scan.specs.View.{places_view, tokens_view};
ghost use Rattle.sql_parse.specs.View.{sorts_view, query_view};
ghost use Rattle.sql_read.specs.Answers.{SelectAnswers, TextAnswers, IsRefused, place_or};
ghost use Rattle.sql_read.specs.Checks.{query_checks};

use crate::expressions::walk_ors;
use crate::token_places::behind;
use event_schema::Schema;
use query_lang::Builder;
use query_tokens::place_behind;
use sig_base::{Code, Fault, Limits, Place, refused};
use sql_check::{Columns, is_named, is_too_deep, place_at};
use sql_lang::Select;
use sql_parse::{Outcome, Query, read_query};
use sql_scan::{Sort, Token, first_other, nests_too_far, scan};
use std::alloc::Global;
use std::collections::VecDeque;

/// More tokens than memory can hold.
const TOO_MANY_TOKENS: usize = 1 << 62;

/// What tokens are, and their places.
#[derive(Drop)]
struct Parted {
    sorts: VecDeque<Sort>,
    places: Vec<Place>,
}

fn part(alloc: Global, all: Vec<Token>) -> Result<Parted, Fault>
    ensures sorts { IfOk result (λ p. sorts_view p.sorts.items ≡ sorts (tokens_view all.items)) }
    ensures places { IfOk result (λ p. places_view p.places.items ≡ places (tokens_view all.items)) }
    ensures err { IfErr result (λ e. e ≡ Fault.Memory) }
{
    let mut sorts = VecDeque::new(alloc);
    let mut places = Vec::with_capacity(alloc, all.len())?;
    for token in all {
        sorts.push_back(token.sort)?;
        places.push(token.place)?;
    }
    Ok(Parted { sorts, places })
}

/// A token's place, or the end of the text behind the last one.
fn place_or(places: &[Place], index: usize, end: Place) -> Place
    ensures { place_view result ≡ place_or (places_view places.now) index (place_view end) }
{
    match places.get(index) {
        Some(place) => *place,
        None => end,
    }
}

/// The query under a schema, or the first of what is wrong with its table, its names, kinds and patterns.
fn select_of<B: Builder>(
    alloc: Global,
    schema: &Schema,
    query: Query,
    places: &[Place],
    builder: &mut B,
) -> Result<Select, Fault>
    ensures { SelectAnswers (B.refused builder.old) (B.refused builder.new) (query_checks schema.now (query_view query) (places_view places.now))
        (expression.or_expr schema.now.fields (query_view query).condition) result }
{
    if !is_named(&query.table, &schema.table) {
        return Err(refused(Code::SQL_UNKNOWN_COLUMN, place_at(places, 3)));
    }
    let columns = Columns::of(alloc, schema.fields.as_slice())?;
    match walk_ors(
        alloc,
        &columns,
        builder,
        &query.condition,
        behind(places, 5),
    ) {
        Ok(walked) => Ok(Select {
            condition: walked.expr,
        }),
        Err(stop) => Err(stop),
    }
}

/// The query that tokens are, none of which is left out of the language; the text ends at this place.
fn read_tokens<B: Builder>(
    alloc: Global,
    limit: usize,
    schema: &Schema,
    all: Vec<Token>,
    end: Place,
    builder: &mut B,
) -> Result<Select, Fault>
    ensures { (cs : List ℕ) → tokens_view all.items ≡ tokens.tokens cs → place_view end ≡ place_after origin cs
        → reading.first_other (tokens.tokens cs) ≡ None → reading.nests_too_far limit (sorts (tokens.tokens cs)) ≡ false
        → TextAnswers limit schema.now cs (B.refused builder.old) (B.refused builder.new) result }
{
    sql_lang::places_rise();
    let parted = part(alloc, all)?;
    if parted.sorts.len() >= TOO_MANY_TOKENS {
        return Err(Fault::Memory);
    }
    let query = match read_query(alloc, parted.sorts)? {
        Outcome::Read(query) => query,
        Outcome::Stops(count) => {
            let place = place_or(parted.places.as_slice(), count, end);
            return Err(refused(Code::SQL_SYNTAX, place));
        }
    };
    if is_too_deep(limit, &query.condition) {
        return Err(refused(Code::SQL_DEPTH, Place::START));
    }
    select_of(alloc, schema, query, parted.places.as_slice(), builder)
}

/// The query that a text is, or its first refusal.
fn read_text<B: Builder>(
    alloc: Global,
    limit: usize,
    schema: &Schema,
    text: &str,
    builder: &mut B,
) -> Result<Select, Fault>
    requires { length text.now < 2 ^ 31 }
    ensures { TextAnswers limit schema.now (chars text.now) (B.refused builder.old) (B.refused builder.new) result }
{
    let scanned = scan(alloc, text)?;
    if let Some(place) = first_other(scanned.tokens.as_slice()) {
        return Err(refused(Code::SQL_OUTSIDE, place));
    }
    if nests_too_far(limit, scanned.tokens.as_slice()) {
        return Err(refused(Code::SQL_DEPTH, Place::START));
    }
    read_tokens(alloc, limit, schema, scanned.tokens, scanned.end, builder)
}

/// Bytes that are a text, as one.
fn as_text(bytes: &[u8]) -> &str
    requires { IsUtf8 bytes.now }
    ensures { result.now ≡ bytes.now }
{
    std::str::from_utf8(bytes).unwrap()
}

/// The query that bytes are under a schema, or its first refusal: 1 at the first byte that is no UTF-8, and else the
/// first of these: 121, a token that is none of the language's; 124, parentheses or words NOT nested deeper than `sql_depth`; 120,
/// where the text stops being a query; 124, an expression too deep; by place 122, 123, 125, 47 and 48, a name, a kind or a pattern.
pub fn read_select<B: Builder>(
    alloc: Global,
    limits: &Limits,
    schema: &Schema,
    bytes: &[u8],
    builder: &mut B,
) -> Result<Select, Fault>
    requires short { length bytes.now ≤ limits.now.query_bytes + 1 }
    ensures answers { ReadAnswers (λ select. reading.Reads schema.now bytes.now (expr_view select.condition)) (λ select. IsWithin limits.now schema.now bytes.now (expr_view select.condition))
        (IsRefused limits.now schema.now bytes.now) (byte_regexps bytes.now) (B.refused builder.old) (B.refused builder.new) result }
{
    sql_lang::no_refused_query();
    match std::str::from_utf8(bytes) {
        Ok(text) => read_text(alloc, limits.sql_depth, schema, text, builder),
        Err(bad) => {
            let (good, _) = bytes.split_at(bad.valid_up_to());
            Err(refused(Code::NOT_UTF8, place_behind(as_text(good))))
        }
    }
}
