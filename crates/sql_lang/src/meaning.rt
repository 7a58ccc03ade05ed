//! Laws of the meaning: which rows a test selects, and what runs and single characters of a pattern
//! are.

ghost use Rattle.std.specs.Prelude.{◌≡◌, ◌↔◌, ℕ, ℤ, Bool, true, List, ◌∷◌, ◌++◌, Option, Some, None};
ghost use Rattle.event_schema.specs.declared.value.Value.{Value};
ghost use Rattle.event_schema.specs.declared.value.Value.TheVariants.{Text, Whole};
ghost use Rattle.sql_lang.specs.Tokens.{Op, Eq};
ghost use Rattle.sql_lang.specs.Grammar.{Collate};
ghost use Rattle.sql_lang.specs.Meaning.{value_at, text_of, texts_equal, wholes_are, values_are, like_fits, glob_fits, some_end, behind_one, SqlSelects};
ghost use Rattle.sql_lang.specs.ColumnTests.{value_test, no_value_test, text_test, number_test, column_test, like_test, glob_test};

/// Each test selects exactly the rows that its words say.
pub fn leaves_select()
    ensures value { (k : ℕ) (row : List (Option Value))
        → (SqlSelects (value_test k) row ↔ ((v : Value) × (value_at row k ≡ Some v))) }
    ensures no_value { (k : ℕ) (row : List (Option Value))
        → (SqlSelects (no_value_test k) row ↔ (value_at row k ≡ None)) }
    ensures text { (k : ℕ) (value : List ℕ) (c : Collate) (row : List (Option Value))
        → (SqlSelects (text_test k value c) row
        ↔ ((t : List ℕ) × (value_at row k ≡ Some (Text t)) × (texts_equal c t value ≡ true))) }
    ensures number { (k : ℕ) (op : Op) (z : ℤ) (row : List (Option Value))
        → (SqlSelects (number_test k op z) row
        ↔ ((n : ℤ) × (value_at row k ≡ Some (Whole n)) × (wholes_are op n z ≡ true))) }
    ensures fields { (k m : ℕ) (c : Collate) (row : List (Option Value))
        → (SqlSelects (column_test k m c) row
        ↔ ((v : Value) × (w : Value) × (value_at row k ≡ Some v) × (value_at row m ≡ Some w)
        × (values_are c Eq v w ≡ true))) }
    ensures like { (k : ℕ) (pattern : List ℕ) (row : List (Option Value))
        → (SqlSelects (like_test k pattern) row
        ↔ ((v : Value) × (value_at row k ≡ Some v)
        × (like_fits pattern (Some 92) (text_of v) ≡ true))) }
    ensures glob { (k : ℕ) (pattern : List ℕ) (row : List (Option Value))
        → (SqlSelects (glob_test k pattern) row
        ↔ ((v : Value) × (value_at row k ≡ Some v) × (glob_fits pattern (text_of v) ≡ true))) }
{}

/// A run takes any characters, and what is behind it fits what is left; a single character is the
/// first.
pub fn runs_and_characters()
    ensures run { (fits : List ℕ → Bool) (text : List ℕ) → (some_end fits text ≡ true)
        ↔ ((before : List ℕ) × (suffix : List ℕ) × (text ≡ before ++ suffix)
        × (fits suffix ≡ true)) }
    ensures one { (is_so : ℕ → Bool) (fits : List ℕ → Bool) (text : List ℕ)
        → (behind_one is_so fits text ≡ true)
        ↔ ((first : ℕ) × (rest : List ℕ) × (text ≡ first ∷ rest) × (is_so first ≡ true)
        × (fits rest ≡ true)) }
{}
