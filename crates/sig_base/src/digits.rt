//! Digits, and the decimals that they make.

ghost use Rattle.std.specs.Prelude.{◌≡◌};
ghost use Rattle.std.specs.List.{list_all};
ghost use Rattle.sig_base.specs.Digits as digits;

/// Whether the byte is an ASCII digit.
pub fn is_digit(byte: u8) -> bool
    ensures { result ≡ digits.is_digit byte }
{
    48 <= byte && byte <= 57
}

/// Whether the character is an ASCII digit.
pub fn is_digit_char(c: char) -> bool
    ensures { result ≡ digits.is_digit c }
{
    '0' <= c && c <= '9'
}

/// Whether all bytes are ASCII digits.
pub fn are_digits(bytes: &[u8]) -> bool
    ensures { result ≡ list_all digits.is_digit bytes.now }
{
    bytes.iter().all(|byte| is_digit(*byte))
}

/// Whether the bytes are a digit 1 to 9 and any digits.
pub fn is_positive(bytes: &[u8]) -> bool
    ensures { result ≡ digits.is_positive bytes.now }
{
    match bytes {
        [] => false,
        [first, rest @ ..] => 49 <= *first && *first <= 57 && are_digits(rest),
    }
}
