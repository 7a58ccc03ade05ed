//! What a plain scalar means (YAML 1.2, 10.3.2, without floating point).

ghost use Rattle.std.specs.Prelude.{◌≡◌, ◌≤◌, ◌^◌, IfOk, IfSome, pos, neg_ℤ};
ghost use Rattle.std.specs.Str.{bytes_eq};
ghost use Rattle.yaml_tree.specs.Tree.{At, scalar};
ghost use Rattle.yaml_tree.specs.View.{kind_view};
ghost use Rattle.yaml_inline.specs.Scalar as spec;

use sig_base::{Text, is_digit_char};
use std::alloc::{AllocError, Global};
use yaml_tree::Kind;

/// How many characters the longest word has that means something else than itself.
const LONGEST_WORD: usize = 5;

/// The null, truth value, whole number or text that these characters are.
#[tactic(auto, unfolding(crate::specs::Scalar::resolved), using(crate::proofs::Words::long_text))]
pub fn resolved(alloc: Global, chars: &[char]) -> Result<Kind, AllocError>
    ensures { IfOk result (λ k. (a : At) → kind_view k a ≡ scalar a (spec.resolved chars.now)) }
{
    if chars.len() > LONGEST_WORD {
        return number_or_text(alloc, chars);
    }
    if is_null(chars) {
        Ok(Kind::Null)
    } else if is_true(chars) {
        Ok(Kind::Truth(true))
    } else if is_false(chars) {
        Ok(Kind::Truth(false))
    } else {
        number_or_text(alloc, chars)
    }
}

fn number_or_text(alloc: Global, chars: &[char]) -> Result<Kind, AllocError>
    ensures { IfOk result (λ k. (a : At) → kind_view k a ≡ scalar a (spec.number_or_text chars.now (spec.whole_of chars.now))) }
{
    match whole(chars) {
        Some(number) => Ok(Kind::Whole(number)),
        None => Ok(Kind::Text(Text::from_chars(alloc, chars)?)),
    }
}

fn is_null(chars: &[char]) -> bool
    ensures { result ≡ spec.is_null chars.now }
{
    chars.is_empty()
        || is_word(&['~'], chars)
        || is_word(&['n', 'u', 'l', 'l'], chars)
        || is_word(&['N', 'u', 'l', 'l'], chars)
        || is_word(&['N', 'U', 'L', 'L'], chars)
}

fn is_true(chars: &[char]) -> bool
    ensures { result ≡ spec.is_true chars.now }
{
    is_word(&['t', 'r', 'u', 'e'], chars)
        || is_word(&['T', 'r', 'u', 'e'], chars)
        || is_word(&['T', 'R', 'U', 'E'], chars)
}

fn is_false(chars: &[char]) -> bool
    ensures { result ≡ spec.is_false chars.now }
{
    is_word(&['f', 'a', 'l', 's', 'e'], chars)
        || is_word(&['F', 'a', 'l', 's', 'e'], chars)
        || is_word(&['F', 'A', 'L', 'S', 'E'], chars)
}

fn is_word(word: &[char], chars: &[char]) -> bool
    ensures { result ≡ bytes_eq word.now chars.now }
{
    word == chars
}

/// The whole number of 64 bits that these characters are.
#[tactic(auto, unfolding(crate::specs::Scalar::whole_of))]
fn whole(chars: &[char]) -> Option<i64>
    ensures { result ≡ spec.whole_of chars.now }
{
    let (first, others) = chars.split_first()?;
    if *first == '-' {
        Some(negated(digits_value(1 << 63, others)?))
    } else if *first == '+' {
        Some(digits_value((1 << 63) - 1, others)? as i64)
    } else {
        Some(digits_value((1 << 63) - 1, chars)? as i64)
    }
}

fn negated(value: u64) -> i64
    requires { value ≤ 2 ^ 63 }
    ensures { result ≡ neg_ℤ (pos value) }
{
    if value == 1 << 63 {
        i64::MIN
    } else {
        -(value as i64)
    }
}

/// The number of these digits, if it is at most so large.
#[tactic(auto, using(crate::proofs::Digits::value_past, crate::proofs::Digits::value_start, crate::proofs::Digits::value_none, crate::proofs::Digits::value_turn, crate::proofs::Digits::value_stop, crate::proofs::Digits::value_end))]
fn digits_value(most: u64, chars: &[char]) -> Option<u64>
    requires { most ≤ 2 ^ 63 }
    ensures value { result ≡ spec.value_within most chars.now }
    ensures within { IfSome result (λ n. n ≤ most) }
{
    if chars.is_empty() {
        return None;
    }
    let mut value: u128 = 0;
    for c in chars {
        if !is_digit_char(*c) {
            return None;
        }
        value = 10 * value + u128::from(*c as u32 - 48);
        if value > u128::from(most) {
            return None;
        }
    }
    Some(value as u64)
}
