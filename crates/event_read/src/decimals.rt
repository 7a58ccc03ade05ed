//! Texts that are canonical decimals.

ghost use Rattle.std.specs.Prelude.{◌≡◌};
ghost use Rattle.event_read.specs.Takes as spec;

use sig_base::{is_digit, is_positive};

/// Whether the bytes are `0`, or an optional `-`, a digit 1 to 9 and any digits.
pub(super) fn is_decimal(bytes: &[u8]) -> bool
    ensures { result ≡ spec.is_decimal bytes.now }
{
    match bytes {
        [] => false,
        [digit] => is_digit(*digit),
        [first, rest @ ..] => {
            if *first == b'-' {
                is_positive(rest)
            } else {
                is_positive(bytes)
            }
        }
    }
}
