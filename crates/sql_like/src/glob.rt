//! Matching by GLOB, along the pattern's text.

ghost use Rattle.std.specs.Prelude.{◌≡◌, true, length};
ghost use Rattle.std.specs.Str.{chars};
ghost use Rattle.sql_lang.specs.Meaning.{glob_fits};

use matching::{Cursor, Step, Taker, matches_whole};
use sig_base::first_char;

/// What is left of a pattern.
#[derive(Clone, Copy)]
struct GlobPattern<'a> {
    rest: &'a str,
}

impl<'a> Cursor for GlobPattern<'a> {
    ghost holds = { λ at text. glob_fits (chars at.rest.now) text ≡ true };

    ghost left = { λ at. length at.rest.now };

    fn step(self) -> Step<GlobPattern<'a>> {
        let Some((c, rest)) = first_char(self.rest) else {
            return Step::End;
        };
        if c == '[' {
            let Some((d, closing)) = first_char(rest) else {
                return Step::End;
            };
            let Some((_, behind)) = first_char(closing) else {
                return Step::End;
            };
            return Step::Takes(Taker::Exact(d), GlobPattern { rest: behind });
        }
        let next = GlobPattern { rest };
        if c == '*' {
            return Step::Run(next);
        }
        if c == '?' {
            return Step::Takes(Taker::Any, next);
        }
        Step::Takes(Taker::Exact(c), next)
    }
}

/// Whether the pattern fits the whole text, by case. It takes no memory, and at most about k * n
/// steps for a pattern of k
/// characters and a text of n.
pub fn is_glob(pattern: &str, text: &str) -> bool
    ensures { result ≡ glob_fits (chars pattern.now) (chars text.now) }
{
    matches_whole(GlobPattern { rest: pattern }, text)
}
