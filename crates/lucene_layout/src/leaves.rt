//! Laws of the leaves that are written: their text is one token for the name and one for the value, and they are read as what
//! they say.

ghost use Rattle.std.specs.Prelude.{◌≡◌, ℕ, ℤ, Bool, false, true, List, ◌∷◌, ◌++◌, [], map, Option, Some};
ghost use Rattle.std.specs.Fmt.{signed_decimal};
ghost use Rattle.std.specs.Str.{all_scalars};
ghost use Rattle.event_schema.specs.declared.schema.Field.{Field};
ghost use Rattle.event_schema.specs.Events.{IsWholeNumber};
ghost use Rattle.query_tokens.specs.Tokens.{sorts};
ghost use Rattle.lucene_lang.specs.declared.query.Glyph.{Glyph};
ghost use Rattle.lucene_lang.specs.declared.query.Glyph.TheVariants.{Run};
ghost use Rattle.lucene_lang.specs.Tokens.{tokens};
ghost use Rattle.lucene_lang.specs.Grammar.{a_range, a_term, everything, sought, spell_term};
ghost use Rattle.lucene_lang.specs.Query.{FieldName, leaf_of, found_in, term_glyphs, Everything, OfField, Term, Range};
ghost use Rattle.lucene_lang.specs.Faults.{is_ill, is_whole_at};
ghost use Rattle.lucene_layout.specs.Escaped.{IsEnd, as_char, characters, end_for, glyph_written, name_for, name_written, pattern_written, term_for, word_escaped};
ghost use Rattle.lucene_layout.specs.Layout.{written, text_leaf, text_value};
ghost use Rattle.lucene_layout.specs.Trees.{IsSound};

/// The written text of a pattern is scanned as one term, which is exactly this pattern.
pub fn patterns_are_scanned()
    ensures term { (g : Glyph) (gs : List Glyph) → all_scalars (characters (g ∷ gs)) ≡ true
        → sorts (tokens (written (pattern_written (g ∷ gs)))) ≡ spell_term (term_for (g ∷ gs)) ∷ [] }
    ensures pattern { (g : Glyph) (gs : List Glyph) → all_scalars (characters (g ∷ gs)) ≡ true
        → term_glyphs (term_for (g ∷ gs)) ≡ g ∷ gs }
{}

/// A pattern is written character by character, with a backslash in front where that would be AND, OR or NOT.
pub fn patterns_are_written()
    ensures { (gs : List Glyph) → written (pattern_written gs) ≡ word_escaped (written (map glyph_written gs)) }
{}

/// A leaf is its name, a colon and its pattern.
pub fn leaves_are_written()
    ensures { (cs : List ℕ) (gs : List Glyph) → text_leaf (sought (name_for cs) (a_term (term_for gs)))
        ≡ written (name_written cs) ++ (58 ∷ written (pattern_written gs)) }
{}

/// A range is its name, a colon and its brackets with an end, the word TO and an end.
pub fn ranges_are_written()
    ensures { (cs : List ℕ) (b : Bool) (low high : Option ℤ) (c : Bool)
        → text_leaf (sought (name_for cs) (a_range b (end_for low) (end_for high) c))
        ≡ written (name_written cs) ++ (58 ∷ text_value (a_range b (end_for low) (end_for high) c)) }
{}

/// A range is sound where its name is found as that of a field of whole numbers and its ends are whole numbers or open; and it's
/// read as this range.
pub fn ranges_are_read()
    ensures sound { (fields : List Field) (c : ℕ) (cs : List ℕ) (f : FieldName) (b : Bool) (low high : Option ℤ) (d : Bool)
        → all_scalars (c ∷ cs) ≡ true → found_in fields (c ∷ cs) ≡ Some f → is_whole_at fields f.field ≡ true
        → IsEnd low → IsEnd high → IsSound fields (sought (name_for (c ∷ cs)) (a_range b (end_for low) (end_for high) d)) }
    ensures read { (fields : List Field) (c : ℕ) (cs : List ℕ) (f : FieldName) (b : Bool) (low high : Option ℤ) (d : Bool)
        → all_scalars (c ∷ cs) ≡ true → found_in fields (c ∷ cs) ≡ Some f → IsEnd low → IsEnd high
        → leaf_of fields (sought (name_for (c ∷ cs)) (a_range b (end_for low) (end_for high) d)) ≡ OfField f.field f.cased (Range low b high d) }
{}

/// A leaf is sound where its name is found and the field takes the term.
pub fn leaves_are_sound()
    ensures everything { (fields : List Field) → IsSound fields everything }
    ensures term { (fields : List Field) (c : ℕ) (cs : List ℕ) (g : Glyph) (gs : List Glyph) (f : FieldName)
        → all_scalars (c ∷ cs) ≡ true → all_scalars (characters (g ∷ gs)) ≡ true
        → found_in fields (c ∷ cs) ≡ Some f
        → is_ill (is_whole_at fields f.field) (a_term (term_for (g ∷ gs))) ≡ false
        → IsSound fields (sought (name_for (c ∷ cs)) (a_term (term_for (g ∷ gs)))) }
{}

/// It is read as this pattern on the field, or on the field's twin, that the name is found as.
pub fn leaves_are_read()
    ensures everything { (fields : List Field) → leaf_of fields everything ≡ Everything }
    ensures term { (fields : List Field) (c : ℕ) (cs : List ℕ) (g : Glyph) (gs : List Glyph) (f : FieldName)
        → all_scalars (c ∷ cs) ≡ true → all_scalars (characters (g ∷ gs)) ≡ true
        → found_in fields (c ∷ cs) ≡ Some f
        → leaf_of fields (sought (name_for (c ∷ cs)) (a_term (term_for (g ∷ gs)))) ≡ OfField f.field f.cased (Term (g ∷ gs)) }
{}

/// A field of whole numbers takes `*` and the decimal of each whole number, and any other field takes every term.
pub fn numbers_are_taken()
    ensures value { is_ill true (a_term (term_for (Run ∷ []))) ≡ false }
    ensures number { (z : ℤ) → IsWholeNumber z → is_ill true (a_term (term_for (map as_char (signed_decimal z)))) ≡ false }
    ensures other { (g : Glyph) (gs : List Glyph) → is_ill false (a_term (term_for (g ∷ gs))) ≡ false }
{}
