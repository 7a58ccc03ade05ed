//! The digits at the front, and the whole numbers that are taken.

ghost use Rattle.std.specs.Prelude.{◌≡◌, ◌≤◌, length};
ghost use Rattle.std.specs.List.{prefix_len};
ghost use Rattle.sig_base.specs.Digits.{is_digit};
ghost use Rattle.event_time.specs.Wholes as spec;

use sig_base::is_digit;

/// How many digits stand at the front.
#[tactic(auto, using(crate::proofs::Sums::digits_within))]
pub fn digits(bytes: &[u8]) -> usize
    ensures count { result ≡ prefix_len is_digit bytes.now }
    ensures within { result ≤ length bytes.now }
{
    bytes.iter().take_while(|byte| is_digit(**byte)).count()
}

/// Whether a number is from -(2^63 - 1) to 2^63 - 1, which leaves the least of 64 bits out.
pub fn is_whole(number: i64) -> bool
    ensures { result ≡ spec.is_whole number }
{
    number != i64::MIN
}
