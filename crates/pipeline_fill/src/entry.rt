//! Texts that take the place of another.

use sig_base::Text;

/// The texts of an entry, and how many parts the longest of the patterns has that they're read as, and all of them together,
/// counted up to 2^127 - 1.
#[derive(Clone, Copy)]
pub struct Entry<'s> {
    pub texts: &'s [Text],
    pub longest: usize,
    pub extent: u128,
}
