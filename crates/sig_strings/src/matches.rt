ghost use Rattle.std.specs.Prelude.{◌↔◌, IsTrue, length};
ghost use Rattle.std.specs.Str.{chars};
ghost use Rattle.sig_strings.specs.Fits.{Fits};

use crate::part::Part;
use crate::pattern::Pattern;
use matching::{Cursor, Step, Taker, matches_whole};

/// The parts from some place on.
#[derive(Clone, Copy)]
struct Parts<'a> {
    parts: &'a [Part],
    cased: bool,
}

impl<'a> Cursor for Parts<'a> {
    ghost holds = { λ at text. Fits at.parts.now text at.cased };

    ghost left = { λ at. length at.parts.now };

    fn step(self) -> Step<Parts<'a>> {
        let Some((part, rest)) = self.parts.split_first() else {
            return Step::End;
        };
        let next = Parts {
            parts: rest,
            cased: self.cased,
        };
        match part {
            Part::Char(c) => {
                if self.cased {
                    return Step::Takes(Taker::Exact(*c), next);
                }
                Step::Takes(Taker::Folded(*c), next)
            }
            Part::One => Step::Takes(Taker::Any, next),
            Part::Run => Step::Run(next),
            Part::Dash => Step::Takes(Taker::Dash, next),
            Part::Hole(_) => Step::Never,
        }
    }
}

impl Pattern {
    /// Whether the pattern fits the whole text, without memory of its own and in at most about k * n steps
    /// for k parts and n characters. Where `cased` is false, A to Z are read as a to z on both sides.
    pub fn fits(&self, text: &str, cased: bool) -> bool
        ensures { IsTrue result ↔ Fits self.now (chars text.now) cased }
    {
        let parts = self.parts();
        matches_whole(Parts { parts, cased }, text)
    }
}
