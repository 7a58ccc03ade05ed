//! Numbers on the command line.

ghost use Rattle.std.specs.Prelude.{◌≡◌, ◌+◌, ◌-◌, ◌*◌, ◌≤◌, min, option_map, option_and_then};
ghost use Rattle.sig_base.specs.Digits.{digits_from};
ghost use Rattle.sigma_serve.specs.Words as accepted_words;

use sig_base::is_positive;

/// One more digit behind a number, where 2^32 stands for all that is larger.
fn grown(value: u64, digit: u8) -> u64
    requires { value ≤ 4294967296 }
    ensures { result ≡ min (10 * value + (digit - 48)) 4294967296 }
{
    let next = 10 * value + u64::from(digit.saturating_sub(b'0'));
    if next > 4_294_967_296 {
        return 4_294_967_296;
    }
    next
}

/// The number of these digits, where 2^32 stands for all that is larger.
fn number_of(digits: &[u8]) -> u64
    ensures { result ≡ min (digits_from 0 digits.now) 4294967296 }
{
    let mut value: u64 = 0;
    for digit in digits {
        value = grown(value, *digit);
    }
    value
}

/// Whether the bytes are a canonical decimal without a sign.
fn is_canonical(bytes: &[u8]) -> bool
    ensures { result ≡ accepted_words.is_canonical bytes.now }
{
    bytes == b"0".as_slice() || is_positive(bytes)
}

/// The number from 0 to the last one of which the word is the canonical decimal.
fn number_to(word: &str, last: u32) -> Option<u32>
    ensures { result ≡ accepted_words.number_to last word.now }
{
    if !is_canonical(word.as_bytes()) {
        return None;
    }
    let number = number_of(word.as_bytes());
    if number > u64::from(last) {
        return None;
    }
    Some(number as u32)
}

/// The same of a word, if there is one.
pub(super) fn number_if_any(word: Option<&str>, last: u32) -> Option<u32>
    ensures { result ≡ option_and_then (accepted_words.number_to last) (option_map (λ s. s.now) word.entry) }
{
    number_to(word?, last)
}
