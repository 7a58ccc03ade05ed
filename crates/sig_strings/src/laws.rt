//! What follows from the definitions, for the proofs of callers: each function does nothing, and its
//! clauses are laws.

ghost use Rattle.std.specs.Prelude.{◌≡◌, ◌↔◌, ◌++◌, ◌∷◌, [], ℕ, Bool, List, true, false};
ghost use Rattle.matching.specs.Suffixes.{SuffixHolds};
ghost use Rattle.sig_base.specs.Folding.{folded};
ghost use Rattle.sig_strings.specs.Divisions.{Divided, PrefixHolds, InfixHolds};
ghost use Rattle.sig_strings.specs.Edits as edits;
ghost use Rattle.sig_strings.specs.Fits.{Fits};
ghost use Rattle.sig_strings.specs.Spells.{Spells};
ghost use Rattle.sig_strings.specs.declared.part.Part.{Part};

/// Each text spells some pattern, and no two.
pub fn one_pattern()
    ensures some { (expand : Bool) (text : List ℕ) → (parts : List Part) × Spells expand text parts }
    ensures same { (expand : Bool) (text : List ℕ) (parts others : List Part)
        → Spells expand text parts → Spells expand text others → parts ≡ others }
{}

/// Two patterns, one behind the other, fit the texts that are a text of the first and then one of the second.
pub fn joined_fits()
    ensures { (parts others : List Part) (text : List ℕ) (cased : Bool)
        → Fits (parts ++ others) text cased
        ↔ Divided (λ t. Fits parts t cased) (λ t. Fits others t cased) text }
{}

/// A pattern of characters alone fits its own text: exactly, or after folding.
pub fn plain_fits()
    ensures cased { (parts : List Part) (text : List ℕ)
        → edits.has_wildcard parts ≡ false → Fits parts text true ↔ (text ≡ edits.plain_text parts) }
    ensures folded { (parts : List Part) (text : List ℕ)
        → edits.has_wildcard parts ≡ false
        → Fits parts text false ↔ (folded text ≡ folded (edits.plain_text parts)) }
{}

/// What the calls that add runs make of a pattern fits the texts that end with, begin with or contain one of
/// its texts.
pub fn runs_fit()
    ensures before { (parts : List Part) (text : List ℕ) (cased : Bool)
        → Fits (edits.with_run_before parts) text cased ↔ SuffixHolds (λ t. Fits parts t cased) text }
    ensures after { (parts : List Part) (text : List ℕ) (cased : Bool)
        → Fits (edits.with_run_after parts) text cased ↔ PrefixHolds (λ t. Fits parts t cased) text }
    ensures around { (parts : List Part) (text : List ℕ) (cased : Bool)
        → Fits (edits.with_run_after (edits.with_run_before parts)) text cased
        ↔ InfixHolds (λ t. Fits parts t cased) text }
{}

/// A run before or behind a pattern leaves it one that a text can spell.
pub fn stays_written()
    ensures before { (parts : List Part)
        → edits.all_written parts ≡ true → edits.all_written (edits.with_run_before parts) ≡ true }
    ensures after { (parts : List Part)
        → edits.all_written parts ≡ true → edits.all_written (edits.with_run_after parts) ≡ true }
{}
