//! The matcher: the words `SHAPE PIECES CHARACTERS` are a pattern of that many pieces and a text of that many `a`s, which are
//! matched without and with a `b` behind the text. The shape `runs` is `*a` for each piece and then `b`; `letters` is a `*`, then `a`
//! for each piece and then `b`, which is the slowest that there is. As in `time out/bench matching runs 4000 60000`.

use crate::{no_memory, number, unknown};
use sig_base::Fault;
use sig_strings::{Part, Pattern};
use std::alloc::{AllocError, Global};
use std::env::Args;
use std::io;

/// The pattern of this many pieces, with a run before each or before the first alone.
fn pattern_of(alloc: Global, runs: bool, pieces: usize) -> Result<Pattern, Fault> {
    let mut parts = Vec::new(alloc);
    for i in 0..pieces {
        if runs || i == 0 {
            parts.push(Part::Run)?;
        }
        parts.push(Part::Char('a'))?;
    }
    parts.push(Part::Char('b'))?;
    Ok(Pattern::of_parts(parts))
}

fn text_of(alloc: Global, characters: usize) -> Result<String, AllocError> {
    let mut text = String::new(alloc);
    for _ in 0..characters {
        text.push('a')?;
    }
    Ok(text)
}

fn answers(
    alloc: Global,
    runs: bool,
    pieces: usize,
    characters: usize,
) -> Result<(bool, bool), Fault> {
    let pattern = pattern_of(alloc, runs, pieces)?;
    let mut text = text_of(alloc, characters)?;
    let without = pattern.fits(text.as_str(), true);
    text.push('b')?;
    Ok((without, pattern.fits(text.as_str(), true)))
}

pub(crate) fn line(
    alloc: Global,
    runs: bool,
    pieces: usize,
    characters: usize,
) -> io::Result<String> {
    match answers(alloc, runs, pieces, characters) {
        Ok((without, with)) => Ok(format!(in alloc; "without b: {without}, with b: {with}")?),
        Err(_) => Err(no_memory()),
    }
}

pub(crate) fn told(alloc: Global, words: &mut Args) -> io::Result<String> {
    let Some(shape) = words.next() else {
        return Err(unknown());
    };
    let (Some(pieces), Some(characters)) = (number(words.next()), number(words.next())) else {
        return Err(unknown());
    };
    line(alloc, shape.as_str() == "runs", pieces, characters)
}
