//! The words of a condition.

ghost use Rattle.std.specs.Prelude.{◌≡◌};
ghost use Rattle.sig_conditions.specs.Words.{is_sign};

use sig_base::Text;

/// A word that is no name.
#[derive(Clone, Copy, PartialEq, Eq, Debug)]
pub enum Sign {
    /// `(`
    Open,
    /// `)`
    Close,
    /// `or`
    Or,
    /// `and`
    And,
    /// `not`
    Not,
    /// `1` or `any`
    One,
    /// `all`
    All,
    /// `of`
    Of,
    /// `them`
    Them,
    /// Any other character.
    Bad,
}

/// A word of a condition.
#[derive(Drop)]
pub enum Word {
    /// A parenthesis, a keyword, or what is no word.
    Fixed(Sign),
    /// An identifier.
    Name(Text),
    /// An identifier with `*` in it.
    Pattern(Text),
}

impl Word {
    /// Whether the word is this sign.
    pub fn is(&self, sign: Sign) -> bool
        ensures { result ≡ is_sign sign self.now }
    {
        match self {
            Word::Fixed(own) => *own == sign,
            Word::Name(_) => false,
            Word::Pattern(_) => false,
        }
    }
}
