//! Words read from the left.

ghost use Rattle.std.specs.Prelude.{◌≡◌, ◌<◌, ◌≤◌, ◌+◌, length, drop, IfOk, IfErr};
ghost use Rattle.sig_conditions.specs.Conditions.{cond_view};
ghost use Rattle.sig_conditions.specs.Outcome.{Gives, Reads, Selects};
ghost use Rattle.sig_conditions.specs.Reader.{and_in, atom_in, condition_in, not_in, or_in};

use crate::condition::Condition;
use crate::join::{join_and, join_or, negate};
use crate::look::{begins, word_at};
use crate::selector::Selector;
use crate::stop::Stop;
use crate::word::{Sign, Word};
use sig_base::Text;
use std::alloc::Global;

/// A copy of a name.
fn name_of(alloc: Global, name: &Text) -> Result<Text, Stop>
    ensures ok { IfOk result (λ t. t ≡ name.now) }
    ensures err { IfErr result (λ e. e ≡ Stop.Memory) }
{
    match Text::copy(alloc, name.as_str()) {
        Ok(copy) => Ok(copy),
        Err(_) => Err(Stop::Memory),
    }
}

/// The word `of` and what it chooses among.
fn read_selector(alloc: Global, words: &[Word], at: usize) -> Result<Selector, Stop>
    ensures selects { Selects words.now at result }
    ensures within { IfOk result (λ s. at + 2 ≤ length words.now) }
{
    let Some(Word::Fixed(Sign::Of)) = word_at(words, at) else {
        return Err(Stop::Unread);
    };
    match word_at(words, at + 1) {
        Some(Word::Fixed(Sign::Them)) => Ok(Selector::Them),
        Some(Word::Name(name)) => Ok(Selector::Names(name_of(alloc, name)?)),
        Some(Word::Pattern(name)) => Ok(Selector::Names(name_of(alloc, name)?)),
        _ => Err(Stop::Unread),
    }
}

/// Parts with the word `or` between.
#[cycle(reader)]
fn read_or(
    alloc: Global,
    depth: usize,
    words: &[Word],
    at: usize,
) -> Result<(Condition, usize), Stop>
    requires { at ≤ length words.now }
    ensures reads { Reads words.now result (or_in depth (drop at words.now)) }
    ensures later { IfOk result (λ p. at < p.1) }
    ensures within { IfOk result (λ p. p.1 ≤ length words.now) }
{
    let (first, behind) = read_and(alloc, depth, words, at)?;
    let mut more = Vec::new(alloc);
    let mut end = behind;
    'parts: while begins(words, end, Sign::Or) {
        let (part, behind) = read_and(alloc, depth, words, end + 1)?;
        more.push(part)?;
        end = behind;
    }
    Ok((join_or(first, more)?, end))
}

/// Parts with the word `and` between.
#[cycle(reader)]
fn read_and(
    alloc: Global,
    depth: usize,
    words: &[Word],
    at: usize,
) -> Result<(Condition, usize), Stop>
    requires { at ≤ length words.now }
    ensures reads { Reads words.now result (and_in depth (drop at words.now)) }
    ensures later { IfOk result (λ p. at < p.1) }
    ensures within { IfOk result (λ p. p.1 ≤ length words.now) }
{
    let (first, behind) = read_not(alloc, depth, words, at)?;
    let mut more = Vec::new(alloc);
    let mut end = behind;
    'parts: while begins(words, end, Sign::And) {
        let (part, behind) = read_not(alloc, depth, words, end + 1)?;
        more.push(part)?;
        end = behind;
    }
    Ok((join_and(first, more)?, end))
}

/// Any number of the word `not`, and an atom.
#[cycle(reader)]
fn read_not(
    alloc: Global,
    depth: usize,
    words: &[Word],
    at: usize,
) -> Result<(Condition, usize), Stop>
    requires { at ≤ length words.now }
    ensures reads { Reads words.now result (not_in depth (drop at words.now)) }
    ensures later { IfOk result (λ p. at < p.1) }
    ensures within { IfOk result (λ p. p.1 ≤ length words.now) }
{
    if !begins(words, at, Sign::Not) {
        return read_atom(alloc, depth, words, at);
    }
    if depth == 0 {
        return Err(Stop::Unread);
    }
    let (part, end) = read_not(alloc, depth - 1, words, at + 1)?;
    Ok((negate(alloc, part)?, end))
}

/// A name, a choice, or a condition in parentheses.
#[cycle(reader)]
fn read_atom(
    alloc: Global,
    depth: usize,
    words: &[Word],
    at: usize,
) -> Result<(Condition, usize), Stop>
    requires { at ≤ length words.now }
    ensures reads { Reads words.now result (atom_in depth (drop at words.now)) }
    ensures later { IfOk result (λ p. at < p.1) }
    ensures within { IfOk result (λ p. p.1 ≤ length words.now) }
{
    match word_at(words, at) {
        Some(Word::Fixed(Sign::Open)) => {
            if depth == 0 {
                return Err(Stop::Unread);
            }
            let (inner, end) = read_or(alloc, depth - 1, words, at + 1)?;
            if !begins(words, end, Sign::Close) {
                return Err(Stop::Unread);
            }
            Ok((inner, end + 1))
        }
        Some(Word::Name(name)) => Ok((Condition::Name(name_of(alloc, name)?), at + 1)),
        Some(Word::Fixed(Sign::One)) => Ok((
            Condition::OneOf(read_selector(alloc, words, at + 1)?),
            at + 3,
        )),
        Some(Word::Fixed(Sign::All)) => Ok((
            Condition::AllOf(read_selector(alloc, words, at + 1)?),
            at + 3,
        )),
        _ => Err(Stop::Unread),
    }
}

/// The condition that all of the words are.
pub fn read_words(alloc: Global, depth: usize, words: &[Word]) -> Result<Condition, Stop>
    ensures { Gives cond_view result (condition_in depth words.now) }
{
    let (condition, end) = read_or(alloc, depth, words, 0)?;
    if end < words.len() {
        return Err(Stop::Unread);
    }
    Ok(condition)
}
