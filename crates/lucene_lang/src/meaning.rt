//! Laws of the meaning: what each atom holds of, which events a group selects, and what runs and single characters of a
//! term are.

ghost use Rattle.std.specs.Prelude.{◌≡◌, ◌↔◌, ℕ, ℤ, ⊤, Bool, true, false, List, [], ◌∷◌, ◌++◌, Option};
ghost use Rattle.event_schema.specs.Lists.{SomeOf, HasElement};
ghost use Rattle.event_schema.specs.Rows.{field_values, value_text};
ghost use Rattle.event_schema.specs.declared.value.Value.{Value};
ghost use Rattle.event_schema.specs.declared.value.Value.TheVariants.{Whole};
ghost use Rattle.lucene_lang.specs.declared.query.Glyph.{Glyph};
ghost use Rattle.lucene_lang.specs.declared.query.Glyph.TheVariants.{Char, One, Run};
ghost use Rattle.lucene_lang.specs.declared.query.Word.TheVariants.{And, Or};
ghost use Rattle.lucene_lang.specs.Query.{Term, Phrase, Range, Group, a_group, Clauses, Everything, OfGroup, OfField};
ghost use Rattle.lucene_lang.specs.Meaning.{atom_holds, kept, kept_glyphs, term_fits, is_above, is_below, LuceneSelects};
ghost use Rattle.lucene_lang.specs.Selection.{EachClause, SomeClause};

/// Each atom holds of exactly the events that its words say: of a field's values, some one is enough.
pub fn atoms_hold()
    ensures everything { (row : List (List Value)) → atom_holds row Everything ≡ true }
    ensures group { (row : List (List Value)) (g : Group) → (atom_holds row (OfGroup g) ≡ true) ↔ LuceneSelects g row }
    ensures value { (row : List (List Value)) (k : ℕ) (cased : Bool)
        → (atom_holds row (OfField k cased (Term (Run ∷ []))) ≡ true) ↔ HasElement (field_values row k) }
    ensures term { (row : List (List Value)) (k : ℕ) (cased : Bool) (gs : List Glyph)
        → (atom_holds row (OfField k cased (Term gs)) ≡ true)
        ↔ SomeOf (λ v. term_fits (kept_glyphs cased gs) (kept cased (value_text v)) ≡ true) (field_values row k) }
    ensures phrase { (row : List (List Value)) (k : ℕ) (cased : Bool) (t : List ℕ)
        → (atom_holds row (OfField k cased (Phrase t)) ≡ true)
        ↔ SomeOf (λ v. kept cased t ≡ kept cased (value_text v)) (field_values row k) }
    ensures range { (row : List (List Value)) (k : ℕ) (cased : Bool) (low : Option ℤ) (low_in : Bool) (high : Option ℤ) (high_in : Bool)
        → (atom_holds row (OfField k cased (Range low low_in high high_in)) ≡ true)
        ↔ SomeOf (λ v. (n : ℤ) × (v ≡ Whole n) × (is_above low low_in n ≡ true) × (is_below high high_in n ≡ true)) (field_values row k) }
{}

/// In a group with AND each clause without NOT holds, and there is one; in a group with OR some clause without NOT holds; no
/// clause with NOT holds in either.
pub fn groups_select()
    ensures and { (row : List (List Value)) (cs : Clauses)
        → (LuceneSelects (a_group And cs) row)
        ↔ (EachClause true (λ a. atom_holds row a ≡ false) cs × EachClause false (λ a. atom_holds row a ≡ true) cs
        × SomeClause false (λ a. ⊤) cs) }
    ensures or { (row : List (List Value)) (cs : Clauses)
        → (LuceneSelects (a_group Or cs) row)
        ↔ (EachClause true (λ a. atom_holds row a ≡ false) cs × SomeClause false (λ a. atom_holds row a ≡ true) cs) }
{}

/// What the parts of a term fit: a run any characters and what is behind it the rest, a single character the first one, another
/// character itself, and no part the empty text.
pub fn runs_and_characters()
    ensures run { (gs : List Glyph) (text : List ℕ) → (term_fits (Run ∷ gs) text ≡ true)
        ↔ ((before : List ℕ) × (suffix : List ℕ) × (text ≡ before ++ suffix) × (term_fits gs suffix ≡ true)) }
    ensures one { (gs : List Glyph) (text : List ℕ) → (term_fits (One ∷ gs) text ≡ true)
        ↔ ((first : ℕ) × (rest : List ℕ) × (text ≡ first ∷ rest) × (term_fits gs rest ≡ true)) }
    ensures character { (c : ℕ) (gs : List Glyph) (text : List ℕ) → (term_fits (Char c ∷ gs) text ≡ true)
        ↔ ((rest : List ℕ) × (text ≡ c ∷ rest) × (term_fits gs rest ≡ true)) }
    ensures nothing { (text : List ℕ) → (term_fits [] text ≡ true) ↔ (text ≡ []) }
{}
