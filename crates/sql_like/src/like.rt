//! Matching by LIKE, along the pattern's text.

ghost use Rattle.std.specs.Prelude.{◌≡◌, true, length};
ghost use Rattle.std.specs.Str.{chars};
ghost use Rattle.sql_lang.specs.Meaning.{like_fits, is_escape};

use matching::{Cursor, Step, Taker, matches_whole};
use sig_base::first_char;

/// What is left of a pattern.
#[derive(Clone, Copy)]
struct LikePattern<'a> {
    rest: &'a str,
    escape: Option<char>,
}

fn is_escape(escape: Option<char>, c: char) -> bool
    ensures { result ≡ is_escape escape c }
{
    match escape {
        Some(e) => c == e,
        None => false,
    }
}

impl<'a> Cursor for LikePattern<'a> {
    ghost holds = { λ at text. like_fits (chars at.rest.now) at.escape text ≡ true };

    ghost left = { λ at. length at.rest.now };

    fn step(self) -> Step<LikePattern<'a>> {
        let Some((c, rest)) = first_char(self.rest) else {
            return Step::End;
        };
        if is_escape(self.escape, c) {
            let Some((d, behind)) = first_char(rest) else {
                return Step::End;
            };
            let next = LikePattern {
                rest: behind,
                escape: self.escape,
            };
            return Step::Takes(Taker::Folded(d), next);
        }
        let next = LikePattern {
            rest,
            escape: self.escape,
        };
        if c == '%' {
            return Step::Run(next);
        }
        if c == '_' {
            return Step::Takes(Taker::Any, next);
        }
        Step::Takes(Taker::Folded(c), next)
    }
}

/// Whether the pattern fits the whole text, letters of either case taken for equal. It takes no
/// memory, and at most
/// about k * n steps for a pattern of k characters and a text of n.
pub fn is_like(pattern: &str, escape: Option<char>, text: &str) -> bool
    ensures { result ≡ like_fits (chars pattern.now) escape (chars text.now) }
{
    matches_whole(
        LikePattern {
            rest: pattern,
            escape,
        },
        text,
    )
}
