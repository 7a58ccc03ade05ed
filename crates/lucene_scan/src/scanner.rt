//! The tokens of a text, character by character.

ghost use Rattle.std.specs.Prelude.{◌≡◌, ◌<◌, ◌^◌, length, ◌++◌, ◌∷◌, [], IfOk, IfErr, OnOk};
ghost use Rattle.std.specs.Str.{chars};
ghost use Rattle.lucene_lang.specs.Tokens as specs;
ghost use Rattle.query_tokens.specs.PlaceView.{place_view};
ghost use Rattle.lucene_scan.specs.View.{sign_view, tokens_view, mode_view};

use crate::mode::Mode;
use crate::run_kinds::run_sort;
use crate::runs::Run;
use crate::token::Sort;
use crate::tokens::Tokens;
use lucene_lang::Written;
use query_tokens::after;
use sig_base::{Fault, Place};
use std::alloc::Global;

fn is_blank(c: char) -> bool
    ensures { result ≡ specs.is_blank c }
{
    c == ' ' || c == '\t' || c == '\n' || c == '\r' || c == '\u{3000}'
}

fn sign_of(c: char) -> Option<Sort>
    ensures { sign_view result ≡ specs.sign_of c }
{
    if c == '(' {
        return Some(Sort::Opening);
    }
    if c == ')' {
        return Some(Sort::Closing);
    }
    if c == '[' {
        return Some(Sort::Opens(true));
    }
    if c == ']' {
        return Some(Sort::Closes(true));
    }
    if c == '{' {
        return Some(Sort::Opens(false));
    }
    if c == '}' {
        return Some(Sort::Closes(false));
    }
    if c == ':' {
        return Some(Sort::Colon);
    }
    None
}

fn one_run(alloc: Global, c: char) -> Result<Run, Fault>
    ensures ok { IfOk result (λ run. run ≡ Written.Bare c ∷ []) }
    ensures err { IfErr result (λ e. e ≡ Fault.Memory) }
{
    let mut run = Run::new(alloc);
    run.push(Written::Bare(c))?;
    Ok(run)
}

/// A character that no token goes on with.
fn start(alloc: Global, tokens: &mut Tokens, place: Place, c: char) -> Result<Mode, Fault>
    ensures mode { IfOk result (λ mode. mode_view mode ≡ (specs.start (place_view place) c).mode) }
    ensures ended { OnOk result (tokens_view tokens.new ≡ tokens_view tokens.old ++ (specs.start (place_view place) c).ended) }
    ensures err { IfErr result (λ e. e ≡ Fault.Memory) }
{
    if is_blank(c) {
        return Ok(Mode::Outside);
    }
    if c == '"' {
        return Ok(Mode::InPhrase(Run::new(alloc), place));
    }
    if c == '\\' {
        return Ok(Mode::BehindBackslash(Run::new(alloc), place, place));
    }
    if let Some(sort) = sign_of(c) {
        tokens.push(sort, place)?;
        return Ok(Mode::Outside);
    }
    let run = one_run(alloc, c)?;
    Ok(Mode::InRun(run, place))
}

fn ends_run(c: char) -> bool
    ensures { result ≡ specs.ends_run c }
{
    is_blank(c) || c == '"' || sign_of(c).is_some()
}

/// A character behind a run.
fn in_run(
    alloc: Global,
    tokens: &mut Tokens,
    run: Run,
    at: Place,
    place: Place,
    c: char,
) -> Result<Mode, Fault>
    ensures mode { IfOk result (λ mode. mode_view mode ≡ (specs.turn (specs.InRun run (place_view at)) (place_view place) c).mode) }
    ensures ended { OnOk result (tokens_view tokens.new ≡ tokens_view tokens.old ++ (specs.turn (specs.InRun run (place_view at)) (place_view place) c).ended) }
    ensures err { IfErr result (λ e. e ≡ Fault.Memory) }
{
    if ends_run(c) {
        let sort = run_sort(alloc, run)?;
        tokens.push(sort, at)?;
        return start(alloc, tokens, place, c);
    }
    if c == '\\' {
        return Ok(Mode::BehindBackslash(run, at, place));
    }
    let mut run = run;
    run.push(Written::Bare(c))?;
    Ok(Mode::InRun(run, at))
}

/// A character behind a phrase's start.
fn in_phrase(tokens: &mut Tokens, run: Run, at: Place, c: char, place: Place) -> Result<Mode, Fault>
    ensures mode { IfOk result (λ mode. mode_view mode ≡ (specs.turn (specs.InPhrase run (place_view at)) (place_view place) c).mode) }
    ensures ended { OnOk result (tokens_view tokens.new ≡ tokens_view tokens.old ++ (specs.turn (specs.InPhrase run (place_view at)) (place_view place) c).ended) }
    ensures err { IfErr result (λ e. e ≡ Fault.Memory) }
{
    if c == '"' {
        tokens.push(Sort::Phrase(run), at)?;
        return Ok(Mode::Outside);
    }
    if c == '\\' {
        return Ok(Mode::EscapedInPhrase(run, at));
    }
    let mut run = run;
    run.push(Written::Bare(c))?;
    Ok(Mode::InPhrase(run, at))
}

fn escaped(run: Run, c: char) -> Result<Run, Fault>
    ensures ok { IfOk result (λ more. more ≡ run ++ Written.Escaped c ∷ []) }
    ensures err { IfErr result (λ e. e ≡ Fault.Memory) }
{
    let mut run = run;
    run.push(Written::Escaped(c))?;
    Ok(run)
}

/// One turn of the scanner: the tokens that a character ends, and what is read of the next one behind it.
pub(crate) fn turn(
    alloc: Global,
    tokens: &mut Tokens,
    mode: Mode,
    place: Place,
    c: char,
) -> Result<Mode, Fault>
    ensures mode { IfOk result (λ m. mode_view m ≡ (specs.turn (mode_view mode) (place_view place) c).mode) }
    ensures ended { OnOk result (tokens_view tokens.new ≡ tokens_view tokens.old ++ (specs.turn (mode_view mode) (place_view place) c).ended) }
    ensures err { IfErr result (λ e. e ≡ Fault.Memory) }
{
    match mode {
        Mode::Outside => start(alloc, tokens, place, c),
        Mode::InRun(run, at) => in_run(alloc, tokens, run, at, place, c),
        Mode::BehindBackslash(run, at, _) => Ok(Mode::InRun(escaped(run, c)?, at)),
        Mode::InPhrase(run, at) => in_phrase(tokens, run, at, c, place),
        Mode::EscapedInPhrase(run, at) => Ok(Mode::InPhrase(escaped(run, c)?, at)),
    }
}

fn cut_run(alloc: Global, tokens: &mut Tokens, run: Run, at: Place) -> Result<(), Fault>
    ensures ok { OnOk result (tokens_view tokens.new ≡ tokens_view tokens.old ++ specs.cut_run run (place_view at)) }
    ensures err { IfErr result (λ e. e ≡ Fault.Memory) }
{
    if run.as_slice().is_empty() {
        return Ok(());
    }
    let sort = run_sort(alloc, run)?;
    tokens.push(sort, at)
}

/// The tokens that end with the text.
fn last(alloc: Global, tokens: &mut Tokens, mode: Mode) -> Result<(), Fault>
    ensures ok { OnOk result (tokens_view tokens.new ≡ tokens_view tokens.old ++ specs.last (mode_view mode)) }
    ensures err { IfErr result (λ e. e ≡ Fault.Memory) }
{
    match mode {
        Mode::Outside => Ok(()),
        Mode::InRun(run, at) => {
            let sort = run_sort(alloc, run)?;
            tokens.push(sort, at)
        }
        Mode::BehindBackslash(run, at, backslash) => {
            cut_run(alloc, tokens, run, at)?;
            tokens.push(Sort::Unclosed, backslash)
        }
        Mode::InPhrase(_, at) | Mode::EscapedInPhrase(_, at) => tokens.push(Sort::Unclosed, at),
    }
}

/// The tokens of a text of fewer than 2^31 bytes, so that its places are numbers of 32 bits; only want of memory is answered.
#[tactic(auto, using(crate::proofs::Walked::scan_turn, query_tokens::proofs::PlaceLemmas::place_turn, query_tokens::proofs::PlaceLemmas::place_near))]
pub fn scan(alloc: Global, text: &str) -> Result<Tokens, Fault>
    requires { length text.now < 2 ^ 31 }
    ensures ok { IfOk result (λ tokens. tokens_view tokens ≡ specs.tokens (chars text.now)) }
    ensures err { IfErr result (λ e. e ≡ Fault.Memory) }
{
    let mut tokens = Tokens::new(alloc);
    let mut mode = Mode::Outside;
    let mut place = Place { line: 1, column: 1 };
    for c in text.chars() {
        mode = turn(alloc, &mut tokens, mode, place, c)?;
        place = after(place, c);
    }
    last(alloc, &mut tokens, mode)?;
    Ok(tokens)
}
