//! Names, letters of either case taken for equal.

ghost use Rattle.std.specs.Prelude.{◌≡◌};
ghost use Rattle.sql_lang.specs.Names as names;

use sig_base::{Text, same_folded};

/// Whether two names differ in the case of the letters A to Z at most.
pub fn is_named(name: &Text, other: &Text) -> bool
    ensures { result ≡ names.is_named name.now other.now }
{
    same_folded(name.as_str(), other.as_str())
}
