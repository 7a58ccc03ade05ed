//! Laws of the patterns of LIKE and GLOB: how parts are written.

ghost use Rattle.std.specs.Prelude.{◌≡◌, false, List, Some};
ghost use Rattle.event_schema.specs.Events.{IsPlainText};
ghost use Rattle.sql_lang.specs.Faults.{is_bad_like, is_bad_glob};
ghost use Rattle.sql_lang.specs.Meaning.{Part, like_parts, glob_parts};
ghost use Rattle.sql_layout.specs.Escaped.{like_text, glob_text, characters};

/// A written LIKE pattern is right, has no U+0000 that its parts don't have, and reads as its
/// parts.
pub fn like_text_is_read()
    ensures parts { (ps : List Part) → like_parts (Some 92) (like_text ps) ≡ ps }
    ensures good { (ps : List Part) → is_bad_like 92 (like_text ps) ≡ false }
    ensures plain { (ps : List Part) → IsPlainText (characters ps) → IsPlainText (like_text ps) }
{}

/// The same of a written GLOB pattern.
pub fn glob_text_is_read()
    ensures parts { (ps : List Part) → glob_parts (glob_text ps) ≡ ps }
    ensures good { (ps : List Part) → is_bad_glob (glob_text ps) ≡ false }
    ensures plain { (ps : List Part) → IsPlainText (characters ps) → IsPlainText (glob_text ps) }
{}
