//! Laws of the tests that are written: they are sound, and they are read as tests of the columns.

ghost use Rattle.std.specs.Prelude.{◌≡◌, ℕ, ℤ, true, false, List, Some};
ghost use Rattle.std.specs.Str.{all_scalars};
ghost use Rattle.event_schema.specs.declared.schema.Field.{Field};
ghost use Rattle.event_schema.specs.Events.{IsPlainText, IsWholeNumber};
ghost use Rattle.sql_lang.specs.Tokens.{Op};
ghost use Rattle.sql_lang.specs.Grammar.{Collate, Unsaid};
ghost use Rattle.sql_lang.specs.Names.{column_of};
ghost use Rattle.sql_lang.specs.Expression.{Test, test_of};
ghost use Rattle.sql_lang.specs.Faults.{whole, not_whole, unknown, is_bad_like, is_bad_glob};
ghost use Rattle.sql_layout.specs.Trees.{IsSound};
ghost use Rattle.sql_layout.specs.Leaves.{has_value, has_no_value, never, equals_text, compares_number, equals_field, fits_like, fits_glob};
ghost use Rattle.sql_lang.specs.ColumnTests.{value_test, no_value_test, text_test, number_test, column_test, like_test, glob_test};

/// Each leaf is sound where its names are fields of fitting kinds, its texts have no U+0000 and its
/// patterns are right.
pub fn leaves_are_sound()
    ensures value { (fields : List Field) (field : List ℕ) → all_scalars field ≡ true
        → unknown fields field ≡ false
        → IsSound fields (has_value field) }
    ensures no_value { (fields : List Field) (field : List ℕ) → all_scalars field ≡ true
        → unknown fields field ≡ false
        → IsSound fields (has_no_value field) }
    ensures never { (fields : List Field) → IsSound fields never }
    ensures text { (fields : List Field) (field value : List ℕ) (c : Collate)
        → all_scalars field ≡ true → IsPlainText value
        → not_whole fields field ≡ true → IsSound fields (equals_text field value c) }
    ensures number { (fields : List Field) (field : List ℕ) (op : Op) (z : ℤ)
        → all_scalars field ≡ true → IsWholeNumber z
        → whole fields field ≡ true → IsSound fields (compares_number field op z) }
    ensures texts { (fields : List Field) (field other : List ℕ) (c : Collate)
        → all_scalars field ≡ true → all_scalars other ≡ true
        → not_whole fields field ≡ true → not_whole fields other ≡ true
        → IsSound fields (equals_field field other c) }
    ensures wholes { (fields : List Field) (field other : List ℕ) → all_scalars field ≡ true
        → all_scalars other ≡ true
        → whole fields field ≡ true → whole fields other ≡ true
        → IsSound fields (equals_field field other Unsaid) }
    ensures like { (fields : List Field) (field pattern : List ℕ) → all_scalars field ≡ true
        → IsPlainText pattern
        → unknown fields field ≡ false → is_bad_like 92 pattern ≡ false
        → IsSound fields (fits_like field pattern) }
    ensures glob { (fields : List Field) (field pattern : List ℕ) → all_scalars field ≡ true
        → IsPlainText pattern
        → unknown fields field ≡ false → is_bad_glob pattern ≡ false
        → IsSound fields (fits_glob field pattern) }
{}

/// Each leaf is read as the test of its field's column.
pub fn leaves_are_read()
    ensures value { (fields : List Field) (field : List ℕ) (k : ℕ) → column_of fields field ≡ Some k
        → Test (test_of fields (has_value field)) ≡ value_test k }
    ensures no_value { (fields : List Field) (field : List ℕ) (k : ℕ)
        → column_of fields field ≡ Some k
        → Test (test_of fields (has_no_value field)) ≡ no_value_test k }
    ensures text { (fields : List Field) (field value : List ℕ) (c : Collate) (k : ℕ)
        → column_of fields field ≡ Some k
        → Test (test_of fields (equals_text field value c)) ≡ text_test k value c }
    ensures number { (fields : List Field) (field : List ℕ) (op : Op) (z : ℤ) (k : ℕ)
        → column_of fields field ≡ Some k → IsWholeNumber z
        → Test (test_of fields (compares_number field op z)) ≡ number_test k op z }
    ensures fields { (fields : List Field) (field other : List ℕ) (c : Collate) (k m : ℕ)
        → column_of fields field ≡ Some k
        → column_of fields other ≡ Some m
        → Test (test_of fields (equals_field field other c)) ≡ column_test k m c }
    ensures like { (fields : List Field) (field pattern : List ℕ) (k : ℕ)
        → column_of fields field ≡ Some k
        → Test (test_of fields (fits_like field pattern)) ≡ like_test k pattern }
    ensures glob { (fields : List Field) (field pattern : List ℕ) (k : ℕ)
        → column_of fields field ≡ Some k
        → Test (test_of fields (fits_glob field pattern)) ≡ glob_test k pattern }
{}
