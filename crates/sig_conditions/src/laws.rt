//! Laws of conditions, for the proofs above.

ghost use Rattle.std.specs.Prelude.{◌≡◌, ℕ, Bool, true, List, [], ◌∷◌, Some};
ghost use Rattle.sig_conditions.specs.Conditions.{Cond};
ghost use Rattle.sig_conditions.specs.Formulas.{PlainFormula, formula_of, value};
ghost use Rattle.sig_conditions.specs.Grammar.{ConditionReads};
ghost use Rattle.sig_conditions.specs.Meaning.{holds};
ghost use Rattle.sig_conditions.specs.Spelling.{AreWords};
ghost use Rattle.sig_conditions.specs.Words.{is_identifier, words};
ghost use Rattle.sig_conditions.specs.declared.word.Word.{Word};
ghost use Rattle.sig_conditions.specs.declared.word.Word.TheVariants.{Name};

/// A text has its words, and no others.
pub fn one_list_of_words()
    ensures some { (text : List ℕ) → AreWords text (words text) }
    ensures one { (text : List ℕ) (ws : List Word) → AreWords text ws → ws ≡ words text }
{}

/// What a detection may be called is one word, the name.
pub fn identifiers_are_names()
    ensures { (name : List ℕ) → is_identifier name ≡ true → words name ≡ Name name ∷ [] }
{}

/// Words are one condition, if any.
pub fn one_condition()
    ensures { (ws : List Word) (c d : Cond) → ConditionReads ws c → ConditionReads ws d → c ≡ d }
{}

/// The formula of a condition is true exactly where the condition holds of the detections.
pub fn same_meaning()
    ensures { (names : List (List ℕ)) (is_true : ℕ → Bool) (c : Cond) (f : PlainFormula) → formula_of names c ≡ Some f → value is_true f ≡ holds names is_true c }
{}
