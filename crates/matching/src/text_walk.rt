ghost use Rattle.std.specs.Prelude.{ℕ};
ghost use Rattle.matching.specs.Walks.{WalkTells};

use crate::cursor::Cursor;
use crate::step::Step;
use crate::walk::Walk;
use sig_base::first_char;

/// Follows the pattern along the text, a character a step, up to its next run.
pub fn walk<'a, C: Cursor>(start: C, text: &'a str) -> Walk<'a, C>
    ensures { WalkTells C.holds C.left start text.now result }
{
    let mut now = start;
    let mut left = text;
    loop {
        match now.step() {
            Step::End => {
                if left.is_empty() {
                    return Walk::Ends;
                }
                return Walk::Misses;
            }
            Step::Never => return Walk::Misses,
            Step::Run(next) => return Walk::Reaches(next, left),
            Step::Takes(taker, next) => {
                let Some((c, rest)) = first_char(left) else {
                    return Walk::Misses;
                };
                if !taker.does_take(c) {
                    return Walk::Misses;
                }
                now = next;
                left = rest;
            }
        }
    }
}
