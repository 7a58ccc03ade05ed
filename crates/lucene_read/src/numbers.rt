//! Numbers that are written in decimal digits.

ghost use Rattle.std.specs.Prelude.{◌≡◌, ◌+◌, ◌*◌, ◌-◌, ◌^◌, ◌≤◌, min};
ghost use Rattle.std.specs.Str.{chars};
ghost use Rattle.sig_base.specs.Digits.{digits_from};
ghost use Rattle.lucene_lang.specs.Faults as faults;
ghost use Rattle.lucene_read.specs.Known.{bounded, number_in};

use lucene_scan::is_decimal;
use sig_base::{Text, first_char};

fn digit(c: char) -> u32
    ensures { result ≡ c - 48 }
{
    (c as u32).saturating_sub(48)
}

/// One more digit behind a number, where 2^63 stands for all that is larger.
fn grown(value: u64, digit: u32) -> u64
    requires { value ≤ 2 ^ 63 }
    ensures { result ≡ min (value * 10 + digit) (2 ^ 63) }
{
    let next = u128::from(value) * 10 + u128::from(digit);
    if next > 1 << 63 {
        return 1 << 63;
    }
    next as u64
}

fn bounded(value: u64) -> Option<i64>
    requires { value ≤ 2 ^ 63 }
    ensures { result ≡ bounded value }
{
    if value >= 1 << 63 {
        return None;
    }
    Some(value as i64)
}

/// The number of these digits, below 2^63.
#[tactic(auto, using(crate::proofs::Digits::goes_on))]
fn magnitude(digits: &str) -> Option<i64>
    ensures { result ≡ bounded (digits_from 0 (chars digits.now)) }
{
    let mut value: u64 = 0;
    for c in digits.chars() {
        value = grown(value, digit(c));
    }
    bounded(value)
}

/// The number with an optional minus, from -(2^63 - 1) to 2^63 - 1.
#[tactic(auto, using(crate::proofs::Digits::no_number))]
pub(crate) fn number_in(text: &str) -> Option<i64>
    ensures { result ≡ number_in (chars text.now) }
{
    let Some((first, rest)) = first_char(text) else {
        return Some(0);
    };
    if first == '-' {
        return match magnitude(rest) {
            Some(number) => Some(-number),
            None => None,
        };
    }
    magnitude(text)
}

/// Whether a text is a canonical decimal in bounds.
#[tactic(auto, unfolding(lucene_lang::specs::Faults::is_number))]
pub(crate) fn is_number(text: &Text) -> bool
    ensures { result ≡ faults.is_number text.now }
{
    is_decimal(text) && number_in(text.as_str()).is_some()
}
