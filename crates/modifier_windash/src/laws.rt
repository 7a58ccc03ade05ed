//! What follows from the definitions, for the proofs of callers: each function does nothing, and its
//! clauses are laws.

ghost use Rattle.std.specs.Prelude.{◌≡◌, ◌↔◌, ◌^◌, ◌||◌, ◌==◌, ℕ, Bool, List, true, length};
ghost use Rattle.std.specs.List.{list_all};
ghost use Rattle.sig_strings.specs.Edits.{is_written, all_written};
ghost use Rattle.sig_strings.specs.Fits.{Fits, SomeFits};
ghost use Rattle.sig_strings.specs.declared.part.Part.{Part};
ghost use Rattle.modifier_windash.specs.Choices.{choices, dash_count, is_dash_place};

/// A pattern fits a text exactly where some one of its choices does.
pub fn choices_fit()
    ensures { (parts : List Part) (text : List ℕ) (cased : Bool)
        → Fits parts text cased ↔ SomeFits (choices parts) text cased }
{}

/// Each place for a dash makes five times as many choices.
pub fn choices_are_counted()
    ensures { (parts : List Part) → length (choices parts) ≡ 5 ^ dash_count parts }
{}

/// No choice has a place for a dash, and the choices of written parts and dashes are written.
pub fn choices_are_written()
    ensures no_dash { (parts : List Part) → list_all (λ chosen. dash_count chosen == 0) (choices parts) ≡ true }
    ensures written { (parts : List Part)
        → list_all (λ part. is_written part || is_dash_place part) parts ≡ true
        → list_all all_written (choices parts) ≡ true }
{}
