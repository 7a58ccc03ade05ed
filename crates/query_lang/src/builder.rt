//! Builders of regular expressions.

ghost use Rattle.std.specs.Prelude.{◌≡◌, List, ℕ, IfOk};
ghost use Rattle.std.specs.Str.{chars};
ghost use Rattle.query_lang.specs.Built.{IsBuilt, BuildAnswers};

use regex::Regex;
use std::alloc::Global;

/// Why no regular expression is built of a text: it is no pattern, it is refused otherwise, or memory is missing.
#[derive(Clone, Copy, Debug, PartialEq, Eq)]
pub enum BuildFault {
    Syntax,
    Refused,
    Memory,
}

/// Builds regular expressions. Contracts see the texts that it refused, in order, to which calls only append, and the texts that it
/// has built, which it stays to have built. That it has built a text is known of a builder that was asked for it alone.
pub trait Builder {
    ghost refused: { Self → List (List ℕ) };

    ghost has_built: { Self → List ℕ → Type 0 };

    /// The pattern that the grammar of `regex` reads from the text, with the default options.
    fn build(&mut self, alloc: Global, pattern: &str) -> Result<Regex, BuildFault>
        ensures ok { IfOk result (IsBuilt (chars pattern.now)) }
        ensures refused { BuildAnswers (refused self.old) (refused self.new) (chars pattern.now) result }
        ensures built { IfOk result (λ regex. has_built self.new (chars pattern.now)) }
        ensures keeps { (text : List ℕ) → has_built self.old text → has_built self.new text };
}
