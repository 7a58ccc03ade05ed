//! Timespans.

ghost use Rattle.std.specs.Prelude.{◌≡◌, ◌+◌, ◌-◌, ◌*◌, ◌≤◌, min};
ghost use Rattle.sig_base.specs.Digits.{digits_from};
ghost use Rattle.correlation_read.specs.Timespans as spec;

use sig_base::{Text, is_positive};

/// One more digit behind a number, where 100,000 stands for all that is larger.
fn grown(value: u32, digit: u8) -> u32
    requires { value ≤ 100000 }
    ensures { result ≡ min (10 * value + (digit - 48)) 100000 }
{
    let next = 10 * value + u32::from(digit.saturating_sub(b'0'));
    if next > 100_000 {
        return 100_000;
    }
    next
}

/// The number of these digits, where 100,000 stands for all that is larger.
fn number_of(digits: &[u8]) -> u32
    ensures { result ≡ min (digits_from 0 digits.now) 100000 }
{
    let mut value: u32 = 0;
    for digit in digits {
        value = grown(value, *digit);
    }
    value
}

/// The number from 1 to 99,999 whose canonical decimal the bytes are.
fn count_of(digits: &[u8]) -> Option<u32>
    ensures { result ≡ spec.count_of digits.now }
{
    if !is_positive(digits) {
        return None;
    }
    let count = number_of(digits);
    if count > 99_999 {
        return None;
    }
    Some(count)
}

/// The seconds of a unit.
fn seconds_of(unit: u8) -> Option<u32>
    ensures { result ≡ spec.seconds_of unit }
{
    match unit {
        b's' => Some(1),
        b'm' => Some(60),
        b'h' => Some(3600),
        b'd' => Some(86_400),
        b'w' => Some(604_800),
        _ => None,
    }
}

/// The nanoseconds of so many units of so many seconds.
fn nanoseconds(count: Option<u32>, seconds: Option<u32>) -> Option<i128>
    ensures { result ≡ spec.nanoseconds count seconds }
{
    let Some(count) = count else {
        return None;
    };
    let Some(seconds) = seconds else {
        return None;
    };
    Some((u128::from(count) * u128::from(seconds) * 1_000_000_000) as i128)
}

/// The nanoseconds of the timespan that these bytes are.
fn span_in(bytes: &[u8]) -> Option<i128>
    ensures { result ≡ spec.span_of bytes.now }
{
    let Some((unit, digits)) = bytes.split_last() else {
        return None;
    };
    nanoseconds(count_of(digits), seconds_of(*unit))
}

/// The nanoseconds of a timespan: a canonical decimal from 1 to 99,999 and one of `s`, `m`, `h`, `d` and `w`. Takes no
/// memory.
#[tactic(auto, using(crate::proofs::Spans::same_span))]
pub fn span_of(text: &Text) -> Option<i128>
    ensures { result ≡ spec.span_of text.now }
{
    span_in(text.as_str().as_bytes())
}
