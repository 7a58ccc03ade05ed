//! Texts that a field of addresses takes.

ghost use Rattle.std.specs.Prelude.{◌≡◌, true};
ghost use Rattle.std.specs.List.{before_first, after_first, position};
ghost use Rattle.event_read.specs.Quads as spec;

use event_time::digits;
use sig_base::is_digit;

fn is_within(low: u8, high: u8, byte: u8) -> bool
    ensures { result ≡ spec.is_within low high byte }
{
    low <= byte && byte <= high
}

fn is_octet(bytes: &[u8]) -> bool
    ensures { result ≡ spec.is_octet bytes.now }
{
    match bytes {
        [a] => is_digit(*a),
        [a, b] => is_within(b'1', b'9', *a) && is_digit(*b),
        [a, b, c] => {
            *a == b'1' && is_digit(*b) && is_digit(*c)
                || *a == b'2' && is_within(b'0', b'4', *b) && is_digit(*c)
                || *a == b'2' && *b == b'5' && is_within(b'0', b'5', *c)
        }
        _ => false,
    }
}

fn dot_at(bytes: &[u8]) -> Option<usize>
    ensures { result ≡ position spec.is_dot bytes.now }
{
    bytes.iter().position(|byte| *byte == b'.')
}

/// What stands before the first dot, and what stands behind it.
fn around_dot(bytes: &[u8]) -> (&[u8], &[u8])
    ensures before { result.0.now ≡ before_first spec.is_dot bytes.now }
    ensures after { result.1.now ≡ after_first spec.is_dot bytes.now }
{
    match dot_at(bytes) {
        Some(at) => {
            let (before, rest) = bytes.split_at(at);
            (before, rest.split_at(1).1)
        }
        None => (bytes, &[]),
    }
}

fn is_quad(bytes: &[u8]) -> bool
    ensures { result ≡ spec.is_quad bytes.now }
{
    let (first, behind_first) = around_dot(bytes);
    let (second, behind_second) = around_dot(behind_first);
    let (third, fourth) = around_dot(behind_second);
    is_octet(first) && is_octet(second) && is_octet(third) && is_octet(fourth)
}

fn begins_as_quad(bytes: &[u8]) -> bool
    ensures { result ≡ spec.begins_as_quad bytes.now }
{
    let count = digits(bytes);
    1 <= count && count <= 3 && count < bytes.len() && bytes[count] == b'.'
}

/// Whether a field of addresses takes the text.
pub(super) fn is_address(bytes: &[u8]) -> bool
    ensures { result ≡ spec.is_address bytes.now }
{
    is_quad(bytes) || !begins_as_quad(bytes)
}
