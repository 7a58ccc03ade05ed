//! The query that bytes are.

ghost use Rattle.std.specs.Prelude.{◌≡◌, ◌≤◌, ◌<◌, ◌+◌, ◌^◌, false, length, IsUtf8, IfOk, IfErr};
ghost use Rattle.std.specs.Str.{chars};
ghost use Rattle.lucene_lang.specs.Reading as reading;
ghost use Rattle.lucene_lang.specs.Reading.{BytesRead, BytesRefused};
ghost use Rattle.lucene_lang.specs.Verdict.{verdict};
ghost use Rattle.lucene_lang.specs.View.{group_view};
ghost use Rattle.query_tokens.specs.Tokens.{sorts};
ghost use Rattle.lucene_read.specs.Answers.{Answers, IfRefused};
ghost use Rattle.lucene_read.specs.Steps as steps;
ghost use Rattle.lucene_read.specs.View.{place_view, mixed_if, ill_if, state_view, tokens_view};

use crate::partial::{Ill, Now, Partial, State, Wrong};
use crate::transitions::{ended, no_clauses, step};
use event_schema::{Field, Schema};
use lucene_lang::Group;
use lucene_scan::{Token, first_outside, opens_too_far, scan};
use query_tokens::place_behind;
use sig_base::{Code, Fault, Limits, Place, refused};
use std::alloc::Global;

fn begun(alloc: Global) -> State
    ensures { state_view result ≡ steps.begun }
{
    State {
        now: Now::Reading(Partial::Start),
        level: no_clauses(alloc),
        outer: Vec::new(alloc),
        wrong: Wrong {
            mixed: None,
            ill: None,
        },
    }
}

/// The query, unless something was wrong with it.
fn judged(wrong: Wrong, group: Group) -> Result<Group, Fault>
    ensures { Answers result (steps.judged (mixed_if wrong.mixed) (ill_if wrong.ill) (group_view group)) }
{
    if let Some(place) = wrong.mixed {
        return Err(refused(Code::LUCENE_MIXED, place));
    }
    match wrong.ill {
        Some(ill) => Err(refused(ill.code, ill.place)),
        None => Ok(group),
    }
}

/// What was read at the end of a text, which is this place.
fn finish(state: State, end: Place) -> Result<Group, Fault>
    ensures { Answers result (steps.finish (state_view state) (place_view end)) }
{
    let State {
        now,
        level,
        outer,
        wrong,
    } = state;
    let Now::Whole(atom) = now else {
        return Err(refused(Code::LUCENE_SYNTAX, end));
    };
    if !outer.is_empty() {
        return Err(refused(Code::LUCENE_SYNTAX, end));
    }
    let group = ended(level, atom)?;
    judged(wrong, group)
}

/// The query that tokens are, where none is left out of the language; the text ends at this place. More fields than can be
/// numbered are want of memory.
#[tactic(auto, using(crate::proofs::Stepped::goes_on, crate::proofs::Stepped::stops))]
fn read_tokens(
    alloc: Global,
    fields: &[Field],
    tokens: &[Token],
    end: Place,
) -> Result<Group, Fault>
    ensures { Answers result (steps.run fields.now steps.begun (tokens_view tokens.now) (place_view end)) }
{
    if fields.len() > u32::MAX as usize {
        return Err(Fault::Memory);
    }
    let mut state = begun(alloc);
    for token in tokens {
        let Some(next) = step(alloc, fields, state, token)? else {
            return Err(refused(Code::LUCENE_SYNTAX, token.place));
        };
        state = next;
    }
    finish(state, end)
}

/// A token that is left out of the language, or else parentheses that nest too far.
fn first_cause(limit: usize, tokens: &[Token]) -> Option<Ill>
    ensures { ill_if result ≡ steps.first_cause (reading.first_outside false (tokens_view tokens.now)) (reading.opens_too_far limit 0 0 (sorts (tokens_view tokens.now))) }
{
    if let Some(place) = first_outside(tokens) {
        return Some(Ill {
            code: Code::LUCENE_OUTSIDE,
            place,
        });
    }
    if opens_too_far(limit, tokens) {
        return Some(Ill {
            code: Code::LUCENE_DEPTH,
            place: Place { line: 1, column: 1 },
        });
    }
    None
}

/// The query that tokens are, or their first refusal; the text ends at this place.
fn judge(
    alloc: Global,
    limit: usize,
    fields: &[Field],
    tokens: &[Token],
    end: Place,
) -> Result<Group, Fault>
    ensures { Answers result (steps.verdict limit fields.now (tokens_view tokens.now) (place_view end)) }
{
    if let Some(ill) = first_cause(limit, tokens) {
        return Err(refused(ill.code, ill.place));
    }
    read_tokens(alloc, fields, tokens, end)
}

/// The query that a text is, or its first refusal.
fn read_text(alloc: Global, limit: usize, schema: &Schema, text: &str) -> Result<Group, Fault>
    requires short { length text.now < 2 ^ 31 }
    ensures { Answers result (verdict limit schema.now (chars text.now)) }
{
    let tokens = scan(alloc, text)?;
    let end = place_behind(text);
    judge(
        alloc,
        limit,
        schema.fields.as_slice(),
        tokens.as_slice(),
        end,
    )
}

/// Bytes that are a text, as one.
fn as_text(bytes: &[u8]) -> &str
    requires { IsUtf8 bytes.now }
    ensures { result.now ≡ bytes.now }
{
    std::str::from_utf8(bytes).unwrap()
}

/// The query that these bytes are under this schema, after Lucene's classic query syntax. Refuses 1 at the first byte that is no
/// UTF-8, and else the first of these: 131, a token that is left out of the language; 135, more open parentheses than
/// `lucene_depth`; 130, where the text stops being a query; 134, a group with both words; 132 and 133, a name or a kind that
/// isn't the schema's. A schema of 2^32 fields and more, which can't be numbered, is want of memory.
pub fn read_query(
    alloc: Global,
    limits: &Limits,
    schema: &Schema,
    bytes: &[u8],
) -> Result<Group, Fault>
    requires short { length bytes.now ≤ limits.now.query_bytes + 1 }
    ensures ok { IfOk result (λ g. BytesRead limits.now.lucene_depth schema.now bytes.now (group_view g)) }
    ensures refused { IfErr result (λ e. IfRefused e (BytesRefused limits.now.lucene_depth schema.now bytes.now)) }
{
    lucene_lang::query_or_refusal();
    match std::str::from_utf8(bytes) {
        Ok(text) => read_text(alloc, limits.lucene_depth, schema, text),
        Err(bad) => {
            let (good, _) = bytes.split_at(bad.valid_up_to());
            Err(refused(Code::NOT_UTF8, place_behind(as_text(good))))
        }
    }
}
