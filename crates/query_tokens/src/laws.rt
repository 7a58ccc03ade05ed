//! Laws of bytes and their places.

ghost use Rattle.std.specs.Prelude.{◌≡◌, ◌⊎◌, ℕ, List};
ghost use Rattle.query_tokens.specs.Places.{At, IsText, IsBadAt};

/// Bytes are one text of characters, or there is one place where they stop being one.
pub fn text_or_bad_place()
    ensures either { (bytes : List ℕ) → ((cs : List ℕ) × IsText bytes cs) ⊎ ((place : At) × IsBadAt bytes place) }
    ensures one_text { (bytes cs ds : List ℕ) → IsText bytes cs → IsText bytes ds → cs ≡ ds }
    ensures one_place { (bytes : List ℕ) (p q : At) → IsBadAt bytes p → IsBadAt bytes q → p ≡ q }
    ensures not_both { (bytes cs : List ℕ) (p : At) → IsText bytes cs → IsBadAt bytes p → ⊥ }
{}
