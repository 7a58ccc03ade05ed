//! How large a selector is, and the names that it is compared with.

ghost use Rattle.std.specs.Prelude.{◌≡◌, ◌≤◌, ◌-◌, ◌^◌};
ghost use Rattle.sig_conditions.specs.Selectors as spec;

use crate::selector::Selector;
use sig_base::Text;

/// The bytes of a text, and one more.
fn size_of(text: &Text) -> usize
    ensures size { result ≡ spec.size_of text.now }
    ensures most { result ≤ 2 ^ 64 - 1 }
{
    text.as_str().len() + 1
}

/// The bytes of a selector's word, and one more.
pub fn selector_size(selector: &Selector) -> usize
    ensures { result ≡ spec.selector_size selector.now }
{
    match selector {
        Selector::Them => 5,
        Selector::Names(word) => size_of(word),
    }
}

/// The size of names, or 2^64 - 1 where it is larger.
pub fn names_size(names: &[Text]) -> usize
    ensures { result ≡ spec.counted (spec.names_size names.now) }
{
    let mut sum: usize = 0;
    for name in names {
        sum = sum.saturating_add(size_of(name));
    }
    sum
}
