//! The tokens of a text, character by character.

ghost use Rattle.std.specs.Prelude.{◌≡◌, ◌<◌, ◌^◌, ◌-◌, ◌++◌, IfOk, IfErr, OnOk, length};
ghost use Rattle.std.specs.Str.{chars};
ghost use Rattle.query_tokens.specs.Places as places;
ghost use Rattle.sql_lang.specs.Tokens as tokens;
ghost use Rattle.query_tokens.specs.PlaceView.{place_view};
ghost use Rattle.sql_scan.specs.View.{ended_view, tokens_view};

use crate::mode::Mode;
use crate::token::Token;
use crate::transitions::{last, turn};
use query_tokens::after;
use sig_base::{Fault, Place};
use std::alloc::Global;

/// The tokens of a text, and the place behind its last character.
#[derive(Drop)]
pub struct Scanned {
    pub tokens: Vec<Token>,
    pub end: Place,
}

fn add(found: &mut Vec<Token>, ended: Option<Token>) -> Result<(), Fault>
    ensures ok { OnOk result (tokens_view found.new.items ≡ tokens_view found.old.items ++ ended_view ended) }
    ensures err { IfErr result (λ e. e ≡ Fault.Memory) }
{
    if let Some(token) = ended {
        found.push(token)?;
    }
    Ok(())
}

/// The tokens of a text of fewer than 2^31 bytes, so that its places are numbers of 32 bits; only want of memory is answered.
#[tactic(auto, using(crate::proofs::Walked::scan_turn, query_tokens::proofs::PlaceLemmas::place_turn, query_tokens::proofs::PlaceLemmas::place_near))]
pub fn scan(alloc: Global, text: &str) -> Result<Scanned, Fault>
    requires { length text.now < 2 ^ 31 }
    ensures tokens { IfOk result (λ scanned. tokens_view scanned.tokens.items ≡ tokens.tokens (chars text.now)) }
    ensures end { IfOk result (λ scanned. place_view scanned.end ≡ places.place_after places.origin (chars text.now)) }
    ensures err { IfErr result (λ e. e ≡ Fault.Memory) }
{
    let mut found = Vec::new(alloc);
    let mut mode = Mode::Outside;
    let mut place = Place { line: 1, column: 1 };
    for c in text.chars() {
        let step = turn(alloc, mode, place, c)?;
        add(&mut found, step.ended)?;
        mode = step.mode;
        place = after(place, c);
    }
    let ended = last(alloc, mode)?;
    add(&mut found, ended)?;
    Ok(Scanned {
        tokens: found,
        end: place,
    })
}
