//! What stands at a place among the words.

ghost use Rattle.std.specs.Prelude.{◌≡◌, ◌<◌, ◌+◌, length, drop, IfNone, IfSome, [], ◌∷◌};
ghost use Rattle.sig_conditions.specs.Words.{begins, is_sign};

use crate::word::{Sign, Word};

/// The word at an index.
pub fn word_at(words: &[Word], at: usize) -> Option<&Word>
    ensures none { IfNone result (drop at words.now ≡ []) }
    ensures some { IfSome result (λ w. drop at words.now ≡ w.now ∷ drop (at + 1) words.now) }
    ensures within { IfSome result (λ w. at < length words.now) }
{
    words.get(at)
}

/// Whether a sign stands at an index.
pub fn begins(words: &[Word], at: usize, sign: Sign) -> bool
    ensures { result ≡ begins (is_sign sign) (drop at words.now) }
{
    match word_at(words, at) {
        Some(word) => word.is(sign),
        None => false,
    }
}
