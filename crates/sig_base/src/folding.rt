//! Folding: texts are compared without regard to the case of the letters A to Z alone.

ghost use Rattle.std.specs.Prelude.{◌≡◌};
ghost use Rattle.std.specs.Str.{chars, bytes_eq};
ghost use Rattle.sig_base.specs.Folding as folding;

use crate::characters::first_char;

/// A to Z become a to z; every other character stays.
pub fn fold(c: char) -> char
    ensures { result ≡ folding.fold c }
{
    c.to_ascii_lowercase()
}

/// Whether two texts are one, where A to Z are taken for a to z.
pub fn same_folded(one: &str, other: &str) -> bool
    ensures { result ≡ bytes_eq (folding.folded (chars one.now)) (folding.folded (chars other.now)) }
{
    let mut left = one;
    let mut right = other;
    while let Some((c, rest)) = first_char(left) {
        match first_char(right) {
            Some((d, more)) => {
                if fold(c) != fold(d) {
                    return false;
                }
                left = rest;
                right = more;
            }
            None => return false,
        }
    }
    match first_char(right) {
        Some(_) => false,
        None => true,
    }
}
