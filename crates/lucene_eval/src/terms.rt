//! Terms with wildcards.

ghost use Rattle.std.specs.Prelude.{◌≡◌, true, length};
ghost use Rattle.std.specs.Str.{chars};
ghost use Rattle.lucene_lang.specs.Meaning.{term_fits, kept, kept_glyphs};

use lucene_lang::Glyph;
use matching::{Cursor, Step, Taker, matches_whole};

/// What is left of a term.
#[derive(Clone, Copy)]
struct Term<'a> {
    glyphs: &'a [Glyph],
    cased: bool,
}

impl<'a> Cursor for Term<'a> {
    ghost holds = { λ at text. term_fits (kept_glyphs at.cased at.glyphs.now) (kept at.cased text) ≡ true };

    ghost left = { λ at. length at.glyphs.now };

    fn step(self) -> Step<Term<'a>> {
        let Some((glyph, rest)) = self.glyphs.split_first() else {
            return Step::End;
        };
        let next = Term {
            glyphs: rest,
            cased: self.cased,
        };
        match glyph {
            Glyph::Char(c) => {
                if self.cased {
                    return Step::Takes(Taker::Exact(*c), next);
                }
                Step::Takes(Taker::Folded(*c), next)
            }
            Glyph::One => Step::Takes(Taker::Any, next),
            Glyph::Run => Step::Run(next),
        }
    }
}

/// Whether a term is the text of a field, folded, or of its twin as it is. It takes no memory, and at most about
/// k * n steps for k glyphs and n characters.
pub fn is_term(glyphs: &[Glyph], cased: bool, text: &str) -> bool
    ensures { result ≡ term_fits (kept_glyphs cased glyphs.now) (kept cased (chars text.now)) }
{
    matches_whole(Term { glyphs, cased }, text)
}
