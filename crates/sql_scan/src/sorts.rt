//! What runs and quoted texts are.

ghost use Rattle.std.specs.Prelude.{◌≡◌, [], IfOk, IfErr, ◌<◌, ◌^◌, true};
ghost use Rattle.std.specs.List.{list_all};
ghost use Rattle.sig_base.specs.Digits.{is_digit, unsigned, digits_from};
ghost use Rattle.sig_base.specs.Folding.{folded};
ghost use Rattle.sql_lang.specs.Tokens as tokens;
ghost use Rattle.sql_scan.specs.Numerals.{IsSmall, IsNumber, begins_minus, signed};
ghost use Rattle.sql_scan.specs.View.{sort_view, keyword_option_view};

use crate::token::{Keyword, Numeral, Sort};
use sig_base::{Fault, Text, fold, is_digit_char};
use std::alloc::Global;

/// The keyword that a folded word is.
fn keyword(word: &Text) -> Option<Keyword>
    ensures { keyword_option_view result ≡ tokens.keyword_in tokens.keywords word.now }
{
    if word.is("select") {
        return Some(Keyword::Select);
    }
    if word.is("from") {
        return Some(Keyword::From);
    }
    if word.is("where") {
        return Some(Keyword::Where);
    }
    if word.is("or") {
        return Some(Keyword::Or);
    }
    if word.is("and") {
        return Some(Keyword::And);
    }
    if word.is("not") {
        return Some(Keyword::Not);
    }
    if word.is("is") {
        return Some(Keyword::Is);
    }
    if word.is("null") {
        return Some(Keyword::Null);
    }
    if word.is("like") {
        return Some(Keyword::Like);
    }
    if word.is("escape") {
        return Some(Keyword::Escape);
    }
    if word.is("glob") {
        return Some(Keyword::Glob);
    }
    if word.is("regexp") {
        return Some(Keyword::Regexp);
    }
    if word.is("in") {
        return Some(Keyword::In);
    }
    if word.is("between") {
        return Some(Keyword::Between);
    }
    if word.is("collate") {
        return Some(Keyword::Collate);
    }
    if word.is("nocase") {
        return Some(Keyword::NoCase);
    }
    if word.is("binary") {
        return Some(Keyword::Binary);
    }
    None
}

fn folded_text(alloc: Global, word: &[char]) -> Result<Text, Fault>
    ensures ok { IfOk result (λ t. t ≡ folded word.now) }
    ensures err { IfErr result (λ e. e ≡ Fault.Memory) }
{
    let mut out = Text::new(alloc);
    for c in word {
        out.push(fold(*c))?;
    }
    Ok(out)
}

fn copied(alloc: Global, word: &[char]) -> Result<Text, Fault>
    ensures ok { IfOk result (λ t. t ≡ word.now) }
    ensures err { IfErr result (λ e. e ≡ Fault.Memory) }
{
    let text = Text::from_chars(alloc, word)?;
    Ok(text)
}

fn is_plain(word: &[char]) -> bool
    ensures { result ≡ tokens.is_plain word.now }
{
    word.iter().all(|c| '\0' < *c)
}

#[tactic(auto, unfolding(sql_lang::specs::Tokens::text_sort))]
fn text_sort(alloc: Global, word: &[char]) -> Result<Sort, Fault>
    ensures ok { IfOk result (λ s. sort_view s ≡ tokens.text_sort word.now) }
    ensures err { IfErr result (λ e. e ≡ Fault.Memory) }
{
    if !is_plain(word) {
        return Ok(Sort::Other);
    }
    let text = copied(alloc, word)?;
    Ok(Sort::Text(text))
}

pub(crate) fn quoted_sort(alloc: Global, quote: char, word: &[char]) -> Result<Sort, Fault>
    ensures ok { IfOk result (λ s. sort_view s ≡ tokens.quoted_sort quote word.now) }
    ensures err { IfErr result (λ e. e ≡ Fault.Memory) }
{
    if quote == '"' {
        let text = copied(alloc, word)?;
        return Ok(Sort::Name(text));
    }
    text_sort(alloc, word)
}

/// The characters behind an optional minus.
fn unsigned(word: &[char]) -> &[char]
    ensures { result.now ≡ unsigned word.now }
{
    match word {
        [first, rest @ ..] => { if *first == '-' { rest } else { word } }
        [] => word,
    }
}

fn all_digits(word: &[char]) -> bool
    ensures { result ≡ list_all is_digit word.now }
{
    word.iter().all(|c| is_digit_char(*c))
}

fn are_digits(word: &[char]) -> bool
    ensures { result ≡ tokens.are_digits word.now }
{
    match word {
        [] => false,
        [_, ..] => all_digits(word),
    }
}

/// The number that digits write, where it's below 2^63.
fn small_value(digits: &[char]) -> Option<u64>
    requires { tokens.are_digits digits.now ≡ true }
    ensures { IsSmall (digits_from 0 digits.now) result }
{
    let mut value: u128 = 0;
    for c in digits {
        value = 10 * value + (*c as u32 - '0' as u32) as u128;
        if value >= 1 << 63 {
            return None;
        }
    }
    Some(value as u64)
}

fn begins_minus(word: &[char]) -> bool
    ensures { result ≡ begins_minus word.now }
{
    match word {
        [first, ..] => *first == '-',
        [] => false,
    }
}

fn signed(minus: bool, value: u64) -> i64
    requires { value < 2 ^ 63 }
    ensures { result ≡ signed minus value }
{
    if minus {
        return -(value as i64);
    }
    value as i64
}

/// The number that a run writes, if it's one.
#[tactic(auto, unfolding(sql_lang::specs::Tokens::is_number))]
fn number(word: &[char]) -> Option<i64>
    ensures { IsNumber word.now result }
{
    let digits = unsigned(word);
    if !are_digits(digits) {
        return None;
    }
    match small_value(digits) {
        Some(value) => Some(signed(begins_minus(word), value)),
        None => None,
    }
}

fn word_sort(word: Option<Keyword>) -> Sort
    ensures { sort_view result ≡ tokens.word_or tokens.Other (keyword_option_view word) }
{
    match word {
        Some(word) => Sort::Word(word),
        None => Sort::Other,
    }
}

/// A run of letters, digits and _, with a minus before it or not.
#[tactic(auto, unfolding(sql_lang::specs::Tokens::run_sort))]
pub(crate) fn run_sort(alloc: Global, word: &[char]) -> Result<Sort, Fault>
    ensures ok { IfOk result (λ s. sort_view s ≡ tokens.run_sort word.now) }
    ensures err { IfErr result (λ e. e ≡ Fault.Memory) }
{
    match number(word) {
        Some(value) => {
            let text = copied(alloc, word)?;
            Ok(Sort::Number(Numeral { text, value }))
        }
        None => {
            let low = folded_text(alloc, word)?;
            Ok(word_sort(keyword(&low)))
        }
    }
}
