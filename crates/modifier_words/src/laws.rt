//! What follows from the definitions: each function does nothing, and its clauses are laws.

ghost use Rattle.std.specs.Prelude.{◌≡◌, ◌&&◌, Bool, List, true, false};
ghost use Rattle.std.specs.List.{list_all, list_any};
ghost use Rattle.modifier_words.specs.Chains.{is_chain};
ghost use Rattle.modifier_words.specs.CommonChains.{is_common_word, is_common_chain};
ghost use Rattle.modifier_words.specs.Kinds.{is_encoding, is_expand, is_windash};
ghost use Rattle.modifier_words.specs.declared.modifier.Modifier.{Modifier};

/// Of positions, `all`, `cased` and `exists`, the chains are no modifier, `exists` alone at a field, and at most one of
/// each of the others in any order.
pub fn common_chains()
    ensures { (keyword : Bool) (modifiers : List Modifier)
        → list_all is_common_word modifiers ≡ true → is_chain keyword modifiers ≡ is_common_chain keyword modifiers }
{}

/// No chain has both an encoding and `windash`, nor an encoding and `expand`.
pub fn encodings_stand_apart()
    ensures dashes { (keyword : Bool) (modifiers : List Modifier)
        → is_chain keyword modifiers ≡ true → (list_any is_encoding modifiers && list_any is_windash modifiers) ≡ false }
    ensures holes { (keyword : Bool) (modifiers : List Modifier)
        → is_chain keyword modifiers ≡ true → (list_any is_encoding modifiers && list_any is_expand modifiers) ≡ false }
{}
