//! Laws of written patterns: they fit exactly the texts that the pattern fits.

ghost use Rattle.std.specs.Prelude.{◌≡◌, ◌↔◌, ℕ, true, false, List, Some};
ghost use Rattle.sig_strings.specs.declared.part.Part.{Part};
ghost use Rattle.sig_strings.specs.Fits.{Fits};
ghost use Rattle.sql_lang.specs.Meaning.{like_fits, glob_fits};
ghost use Rattle.sql_layout.specs.Escaped.{like_text, glob_text};
ghost use Rattle.sql_like.specs.Writable.{is_writable, sql_parts};

/// A pattern written for LIKE fits the texts that the pattern fits in any case.
pub fn like_means()
    ensures { (parts : List Part) (text : List ℕ) → is_writable parts ≡ true
        → (like_fits (like_text (sql_parts parts)) (Some 92) text ≡ true) ↔ Fits parts text false }
{}

/// A pattern written for GLOB fits the texts that the pattern fits in their own case.
pub fn glob_means()
    ensures { (parts : List Part) (text : List ℕ) → is_writable parts ≡ true
        → (glob_fits (glob_text (sql_parts parts)) text ≡ true) ↔ Fits parts text true }
{}
