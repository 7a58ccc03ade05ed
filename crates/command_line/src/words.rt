//! The words behind a command's name, read by clap.

ghost use Rattle.std.specs.Prelude.{◌≡◌, IfOk, IfErr, IfSome, IfNone, List, map, unwrap_or, option_map, false, []};
ghost use Rattle.clap.specs.Lexer.{strip_byte};
ghost use Rattle.command_line.specs.Clean as clean;
ghost use Rattle.command_line.specs.Given as given;
ghost use Rattle.command_line.specs.Given.{Item};
ghost use Rattle.command_line.specs.Matched.{HasItems};
ghost use Rattle.command_line.specs.Table as table;
ghost use Rattle.command_line.specs.Table.{row_of, IsGiven};

use crate::command_name::{CommandName, Count};
use crate::parts::matched;
use clap::ArgMatches;
use clap::error::ErrorKind;
use sig_base::Fault;
use std::alloc::Global;
use std::convert::AsStr;

/// Whether so many names are what the command takes.
fn are_enough(count: Count, names: Option<&[&str]>) -> bool
    ensures { result ≡ table.are_enough count (unwrap_or (option_map (λ s. map (λ v. v.now) s.now) names.entry) []) }
{
    let all = match names {
        Some(names) => names.len(),
        None => 0,
    };
    match count {
        Count::NoName => true,
        Count::OneName => all == 1,
        Count::SomeNames => all >= 1,
    }
}

fn is_value(word: &str) -> bool
    ensures { result ≡ given.is_value word.now }
{
    match word.as_bytes() {
        [first, ..] => *first != b'-',
        [] => false,
    }
}

// What follows a first hyphen.
fn strip_dash(word: &str) -> Option<&str>
    ensures { option_map (λ s. s.now) result ≡ strip_byte 45 word.now }
{
    word.strip_prefix('-')
}

// What follows `--`.
fn behind_dashes(word: &str) -> Option<&str>
    ensures { option_map (λ s. s.now) result ≡ clean.behind_dashes word.now }
{
    strip_dash(strip_dash(word)?)
}

// What follows a first `=` is a value, if there is one.
fn is_clean_option(text: &str) -> bool
    ensures { result ≡ clean.is_clean_option text.now }
{
    match text.split_once('=') {
        Some(cut) => is_value(cut.1),
        None => true,
    }
}

fn is_clean_word(ended: bool, word: &str) -> bool
    ensures { result ≡ clean.is_clean_word ended word.now }
{
    if ended {
        return !word.is_empty();
    }
    match behind_dashes(word) {
        Some(text) => is_clean_option(text),
        None => is_value(word),
    }
}

fn is_last_dashes(word: &str) -> bool
    ensures { result ≡ clean.is_last_dashes (clean.behind_dashes word.now) }
{
    match behind_dashes(word) {
        Some(text) => text.is_empty(),
        None => false,
    }
}

/// Whether the words are clean: what clap takes beside them is refused here.
fn are_clean<S: AsStr>(words: &[S]) -> bool
    ensures { result ≡ clean.are_clean (map S.text words.now) }
{
    are_clean_in_turn(words)
}

fn are_clean_in_turn<S: AsStr>(words: &[S]) -> bool
    ensures { result ≡ clean.clean_from false (map S.text words.now) }
{
    let mut ended = false;
    for word in words {
        if !is_clean_word(ended, word.as_str()) {
            return false;
        }
        ended = ended | is_last_dashes(word.as_str());
    }
    true
}

/// The options and names of the words behind a command's name, where the words are taken.
pub fn read<'a, S: AsStr>(
    alloc: Global,
    which: CommandName,
    words: &'a [S],
) -> Result<Option<ArgMatches<'a>>, Fault>
    ensures taken { IfOk result (λ r. IfSome r (λ m. (items : List Item) × IsGiven (row_of which) (map S.text words.entry.now) items × HasItems m items)) }
    ensures untaken { IfOk result (λ r. IfNone r ((items : List Item) → IsGiven (row_of which) (map S.text words.entry.now) items → ⊥)) }
    ensures err { IfErr result (λ e. e ≡ Fault.Memory) }
{
    if !are_clean(words) {
        return Ok(None);
    }
    match matched(alloc, which, words) {
        Ok(matches) => {
            if are_enough(which.count(), matches.get_raw("FILE")) {
                Ok(Some(matches))
            } else {
                Ok(None)
            }
        }
        Err(error) => {
            if error.kind() == ErrorKind::OutOfMemory {
                Err(Fault::Memory)
            } else {
                Ok(None)
            }
        }
    }
}
