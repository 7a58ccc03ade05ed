/// The one character that a pattern takes.
#[derive(Clone, Copy)]
pub enum Taker {
    /// any character
    Any,
    /// this character alone
    Exact(char),
    /// this character, where A to Z and a to z are the same
    Folded(char),
    /// one of `-`, `/`, the en dash, the em dash and the horizontal bar
    Dash,
}

/// What stands at the front of a pattern, and what follows it.
#[derive(Clone, Copy)]
pub enum Step<C> {
    /// the pattern has ended
    End,
    /// no text is matched from here on
    Never,
    /// any number of characters, none among them
    Run(C),
    /// one character
    Takes(Taker, C),
}
