ghost use Rattle.std.specs.Prelude.{◌↔◌, IsTrue};
ghost use Rattle.std.specs.Str.{chars};

use crate::cursor::Cursor;
use crate::suffixes::matches_some_suffix;
use crate::text_walk::walk;
use crate::walk::Walk;

/// Whether the pattern matches the whole text. It takes no memory, and at most about k * n steps for a
/// pattern of k steps and a text of n characters.
pub fn matches_whole<C: Cursor>(start: C, text: &str) -> bool
    ensures { IsTrue result ↔ C.holds start (chars text.now) }
{
    match walk(start, text) {
        Walk::Ends => true,
        Walk::Misses => false,
        Walk::Reaches(next, rest) => matches_some_suffix(next, rest),
    }
}
