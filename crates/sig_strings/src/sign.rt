/// What a text that is read begins with.
#[derive(Clone, Copy)]
pub enum Sign {
    /// the text has ended
    End,
    /// a star
    Star,
    /// a question mark
    Question,
    /// this character, plain or after a backslash
    Plain(char),
    /// a placeholder
    Named,
}
