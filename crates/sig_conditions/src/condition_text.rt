//! A condition read from its text.

ghost use Rattle.std.specs.Prelude.{◌≡◌, ◌≤◌, IfOk, IfErr};
ghost use Rattle.std.specs.Str.{chars};
ghost use Rattle.sig_conditions.specs.Conditions.{cond_view};
ghost use Rattle.sig_conditions.specs.Refusals.{IsRead, IsUnread};
ghost use Rattle.sig_conditions.specs.Words.{nesting, nests};

use crate::condition::Condition;
use crate::reader::read_words;
use crate::scan::{has_character, scan};
use crate::stop::Stop;
use crate::word::{Sign, Word};
use sig_base::{Code, Fault, Limits, Place, refused};
use std::alloc::Global;

/// 1 at the words `(` and `not`, and 0 at the others.
fn weight(word: &Word) -> usize
    ensures value { result ≡ nests word.now }
    ensures small { result ≤ 1 }
{
    if word.is(Sign::Open) || word.is(Sign::Not) {
        return 1;
    }
    0
}

/// How many words `(` and `not` there are.
fn count_nesting(words: &[Word]) -> usize
    ensures { result ≡ nesting words.now }
{
    let mut count = 0;
    for word in words {
        count += weight(word);
    }
    count
}

/// Reads a condition, whose names may be any: `OldAggregation` at a `|`, `ConditionDepth` past so many words `(` and
/// `not`, and then `ConditionSyntax` where the words have no reading.
pub fn read_condition(
    alloc: Global,
    limits: &Limits,
    text: &str,
    place: Place,
) -> Result<Condition, Fault>
    ensures read { IfOk result (λ c. IsRead limits.now.condition_words (chars text.now) (cond_view c)) }
    ensures refused { IfErr result (λ e. IsUnread limits.now.condition_words (chars text.now) place e) }
{
    if has_character(text, '|') {
        return Err(refused(Code::OLD_AGGREGATION, place));
    }
    let words = scan(alloc, text)?;
    if count_nesting(&words) > limits.condition_words {
        return Err(refused(Code::CONDITION_DEPTH, place));
    }
    match read_words(alloc, limits.condition_words, &words) {
        Ok(condition) => Ok(condition),
        Err(Stop::Memory) => Err(Fault::Memory),
        Err(Stop::Unread) => Err(refused(Code::CONDITION_SYNTAX, place)),
    }
}
