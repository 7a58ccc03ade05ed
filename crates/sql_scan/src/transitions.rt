//! What a character makes of what has been read.

ghost use Rattle.std.specs.Prelude.{◌≡◌, ◌++◌, ◌∷◌, [], IfOk, IfErr};
ghost use Rattle.sql_lang.specs.Tokens as tokens;
ghost use Rattle.query_tokens.specs.PlaceView.{place_view};
ghost use Rattle.sql_scan.specs.View.{sort_view, mode_view, turn_view, ended_view};

use crate::mode::{Mode, Turn};
use crate::signs::{begins_sign, is_blank, is_run_char, long_sign, sign_of};
use crate::sorts::{quoted_sort, run_sort};
use crate::token::{Sort, Token};
use sig_base::{Fault, Place};
use std::alloc::Global;

fn with_char(text: Vec<char>, c: char) -> Result<Vec<char>, Fault>
    ensures ok { IfOk result (λ all. all.items ≡ text.items ++ c ∷ []) }
    ensures err { IfErr result (λ e. e ≡ Fault.Memory) }
{
    let mut all = text;
    all.push(c)?;
    Ok(all)
}

fn start(alloc: Global, place: Place, c: char) -> Result<Mode, Fault>
    ensures ok { IfOk result (λ m. mode_view m ≡ tokens.start (place_view place) c) }
    ensures err { IfErr result (λ e. e ≡ Fault.Memory) }
{
    if is_blank(c) {
        return Ok(Mode::Outside);
    }
    if c == '"' || c == '\'' {
        return Ok(Mode::InQuotes(c, Vec::new(alloc), place));
    }
    if is_run_char(c) || c == '-' {
        let text = with_char(Vec::new(alloc), c)?;
        return Ok(Mode::InRun(text, place));
    }
    if begins_sign(c) {
        return Ok(Mode::InSign(c, place));
    }
    Ok(Mode::Whole(sign_of(c), place))
}

/// A token ends before a character, with which another may begin.
fn ends(alloc: Global, sort: Sort, from: Place, place: Place, c: char) -> Result<Turn, Fault>
    ensures ok { IfOk result (λ t. turn_view t ≡ tokens.ends (sort_view sort) (place_view from) (tokens.start (place_view place) c)) }
    ensures err { IfErr result (λ e. e ≡ Fault.Memory) }
{
    let mode = start(alloc, place, c)?;
    Ok(Turn {
        ended: Some(Token { sort, place: from }),
        mode,
    })
}

fn in_run(alloc: Global, text: Vec<char>, from: Place, place: Place, c: char) -> Result<Turn, Fault>
    ensures ok { IfOk result (λ t. turn_view t ≡ tokens.turn (tokens.InRun text.items (place_view from)) (place_view place) c) }
    ensures err { IfErr result (λ e. e ≡ Fault.Memory) }
{
    if is_run_char(c) {
        let text = with_char(text, c)?;
        return Ok(Turn {
            ended: None,
            mode: Mode::InRun(text, from),
        });
    }
    let sort = run_sort(alloc, &text)?;
    ends(alloc, sort, from, place, c)
}

fn in_quotes(
    quote: char,
    text: Vec<char>,
    from: Place,
    place: Place,
    c: char,
) -> Result<Turn, Fault>
    ensures ok { IfOk result (λ t. turn_view t ≡ tokens.turn (tokens.InQuotes quote text.items (place_view from)) (place_view place) c) }
    ensures err { IfErr result (λ e. e ≡ Fault.Memory) }
{
    if c == quote {
        return Ok(Turn {
            ended: None,
            mode: Mode::AfterQuotes(quote, text, from),
        });
    }
    let text = with_char(text, c)?;
    Ok(Turn {
        ended: None,
        mode: Mode::InQuotes(quote, text, from),
    })
}

fn after_quotes(
    alloc: Global,
    quote: char,
    text: Vec<char>,
    from: Place,
    place: Place,
    c: char,
) -> Result<Turn, Fault>
    ensures ok { IfOk result (λ t. turn_view t ≡ tokens.turn (tokens.AfterQuotes quote text.items (place_view from)) (place_view place) c) }
    ensures err { IfErr result (λ e. e ≡ Fault.Memory) }
{
    if c == quote {
        let text = with_char(text, quote)?;
        return Ok(Turn {
            ended: None,
            mode: Mode::InQuotes(quote, text, from),
        });
    }
    let sort = quoted_sort(alloc, quote, &text)?;
    ends(alloc, sort, from, place, c)
}

fn in_sign(alloc: Global, sign: char, from: Place, place: Place, c: char) -> Result<Turn, Fault>
    ensures ok { IfOk result (λ t. turn_view t ≡ tokens.turn (tokens.InSign sign (place_view from)) (place_view place) c) }
    ensures err { IfErr result (λ e. e ≡ Fault.Memory) }
{
    match long_sign(sign, c) {
        Some(op) => Ok(Turn {
            ended: Some(Token {
                sort: Sort::Compare(op),
                place: from,
            }),
            mode: Mode::Outside,
        }),
        None => ends(alloc, sign_of(sign), from, place, c),
    }
}

fn outside(alloc: Global, place: Place, c: char) -> Result<Turn, Fault>
    ensures ok { IfOk result (λ t. turn_view t ≡ tokens.turn tokens.Outside (place_view place) c) }
    ensures err { IfErr result (λ e. e ≡ Fault.Memory) }
{
    let mode = start(alloc, place, c)?;
    Ok(Turn { ended: None, mode })
}

/// A character at this place, after what was read.
pub(crate) fn turn(alloc: Global, mode: Mode, place: Place, c: char) -> Result<Turn, Fault>
    ensures ok { IfOk result (λ t. turn_view t ≡ tokens.turn (mode_view mode) (place_view place) c) }
    ensures err { IfErr result (λ e. e ≡ Fault.Memory) }
{
    match mode {
        Mode::Outside => outside(alloc, place, c),
        Mode::Whole(sort, from) => ends(alloc, sort, from, place, c),
        Mode::InRun(text, from) => in_run(alloc, text, from, place, c),
        Mode::InQuotes(quote, text, from) => in_quotes(quote, text, from, place, c),
        Mode::AfterQuotes(quote, text, from) => after_quotes(alloc, quote, text, from, place, c),
        Mode::InSign(sign, from) => in_sign(alloc, sign, from, place, c),
    }
}

/// The token that ends with the text.
pub(crate) fn last(alloc: Global, mode: Mode) -> Result<Option<Token>, Fault>
    ensures ok { IfOk result (λ t. ended_view t ≡ tokens.last (mode_view mode)) }
    ensures err { IfErr result (λ e. e ≡ Fault.Memory) }
{
    match mode {
        Mode::Outside => Ok(None),
        Mode::Whole(sort, place) => Ok(Some(Token { sort, place })),
        Mode::InRun(text, place) => {
            let sort = run_sort(alloc, &text)?;
            Ok(Some(Token { sort, place }))
        }
        Mode::InQuotes(_, _, place) => Ok(Some(Token {
            sort: Sort::Unclosed,
            place,
        })),
        Mode::AfterQuotes(quote, text, place) => {
            let sort = quoted_sort(alloc, quote, &text)?;
            Ok(Some(Token { sort, place }))
        }
        Mode::InSign(sign, place) => Ok(Some(Token {
            sort: sign_of(sign),
            place,
        })),
    }
}
