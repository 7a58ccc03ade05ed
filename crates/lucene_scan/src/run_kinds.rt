//! What a run is.

ghost use Rattle.std.specs.Prelude.{◌≡◌, ◌&&◌, nat_le, map, IfOk, IfErr};
ghost use Rattle.std.specs.List.{list_all, list_any};
ghost use Rattle.std.specs.Str.{chars};
ghost use Rattle.sig_base.specs.Digits as digits;
ghost use Rattle.lucene_lang.specs.Tokens as tokens;
ghost use Rattle.lucene_scan.specs.View.{sort_view};

use crate::runs::Run;
use crate::token::Sort;
use lucene_lang::{Word, Written};
use sig_base::{Fault, Text, first_char, is_digit_char};
use std::alloc::Global;

fn is_bare(c: &Written) -> bool
    ensures { result ≡ tokens.is_bare c.now }
{
    match c {
        Written::Bare(_) => true,
        Written::Escaped(_) => false,
    }
}

fn is_wildcard(c: &Written) -> bool
    ensures { result ≡ tokens.is_wildcard c.now }
{
    match c {
        Written::Bare(c) => *c == '*' || *c == '?',
        Written::Escaped(_) => false,
    }
}

fn character(c: &Written) -> char
    ensures { result ≡ tokens.character c.now }
{
    match c {
        Written::Bare(c) | Written::Escaped(c) => *c,
    }
}

fn all_bare(run: &Run) -> bool
    ensures { result ≡ list_all tokens.is_bare run.now }
{
    run.as_slice().iter().all(|c| is_bare(c))
}

fn has_wildcard(run: &Run) -> bool
    ensures { result ≡ list_any tokens.is_wildcard run.now }
{
    run.as_slice().iter().any(|c| is_wildcard(c))
}

/// The characters of a run, without the backslashes; only want of memory is answered.
pub fn text_of(alloc: Global, run: &Run) -> Result<Text, Fault>
    ensures ok { IfOk result (λ text. text ≡ map tokens.character run.now) }
    ensures err { IfErr result (λ e. e ≡ Fault.Memory) }
{
    let mut text = Text::new(alloc);
    for c in run.as_slice() {
        text.push(character(c))?;
    }
    Ok(text)
}

fn are_digits(text: &str) -> bool
    ensures { result ≡ list_all digits.is_digit (chars text.now) }
{
    text.chars().all(|c| is_digit_char(c))
}

#[tactic(auto, using(crate::proofs::Decimals::unsigned_none, crate::proofs::Decimals::unsigned_more, crate::proofs::Decimals::unsigned_same))]
fn unsigned(text: &str) -> &str
    ensures { chars result.now ≡ digits.unsigned (chars text.now) }
{
    let Some((first, rest)) = first_char(text) else {
        return text;
    };
    if first == '-' {
        return rest;
    }
    text
}

fn begins_positive(first: char, rest: &str) -> bool
    ensures { result ≡ ((nat_le 49 first && nat_le first 57) && list_all digits.is_digit (chars rest.now)) }
{
    ('1' <= first && first <= '9') && are_digits(rest)
}

#[tactic(auto, using(crate::proofs::Decimals::positive_none, crate::proofs::Decimals::positive_more))]
fn is_positive(text: &str) -> bool
    ensures { result ≡ digits.is_positive (chars text.now) }
{
    let Some((first, rest)) = first_char(text) else {
        return false;
    };
    begins_positive(first, rest)
}

/// Whether a text is a canonical decimal: 0, or an optional minus, a digit 1 to 9 and any digits.
#[tactic(auto, unfolding(lucene_lang::specs::Tokens::is_decimal), using(crate::proofs::Decimals::decimal_is))]
pub fn is_decimal(text: &Text) -> bool
    ensures { result ≡ tokens.is_decimal text.now }
{
    text.is("0") || is_positive(unsigned(text.as_str()))
}

fn other_sort(run: Run) -> Sort
    ensures { sort_view result ≡ tokens.other_sort run }
{
    if has_wildcard(&run) {
        return Sort::Wild(run);
    }
    Sort::Plain(run)
}

fn bare_sort(text: Text, run: Run) -> Sort
    ensures { sort_view result ≡ tokens.bare_sort text run }
{
    if text.is("AND") {
        return Sort::Joins(Word::And);
    }
    if text.is("OR") {
        return Sort::Joins(Word::Or);
    }
    if text.is("NOT") {
        return Sort::Not;
    }
    if text.is("*") {
        return Sort::Star;
    }
    if text.is("TO") {
        return Sort::To;
    }
    if is_decimal(&text) {
        return Sort::Decimal(text);
    }
    other_sort(run)
}

/// What a run is, by its characters.
#[tactic(auto, unfolding(lucene_lang::specs::Tokens::run_sort))]
pub(crate) fn run_sort(alloc: Global, run: Run) -> Result<Sort, Fault>
    ensures ok { IfOk result (λ sort. sort_view sort ≡ tokens.run_sort run) }
    ensures err { IfErr result (λ e. e ≡ Fault.Memory) }
{
    if !all_bare(&run) {
        return Ok(other_sort(run));
    }
    let text = text_of(alloc, &run)?;
    Ok(bare_sort(text, run))
}
