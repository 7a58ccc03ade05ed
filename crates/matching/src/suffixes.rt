ghost use Rattle.std.specs.Prelude.{◌↔◌, IsTrue};
ghost use Rattle.std.specs.Str.{chars};
ghost use Rattle.matching.specs.Suffixes.{SuffixHolds};

use crate::cursor::Cursor;
use crate::text_walk::walk;
use crate::walk::Walk;
use sig_base::first_char;

/// Whether the pattern matches some suffix of the text, which is what stands behind a run. A run that is
/// reached makes the run before it needless: the pattern is sought from there on alone.
pub fn matches_some_suffix<C: Cursor>(start: C, text: &str) -> bool
    ensures { IsTrue result ↔ SuffixHolds (C.holds start) (chars text.now) }
{
    let mut later = start;
    let mut left = text;
    loop {
        match walk(later, left) {
            Walk::Ends => return true,
            Walk::Misses => {
                let Some((_, rest)) = first_char(left) else {
                    return false;
                };
                left = rest;
            }
            Walk::Reaches(next, rest) => {
                later = next;
                left = rest;
            }
        }
    }
}
