/// How far a pattern was followed along a text before its next run.
pub enum Walk<'a, C> {
    /// the pattern and the text ended together
    Ends,
    /// the pattern doesn't match the text, however it would go on
    Misses,
    /// the pattern behind the run that was reached, and the text that is left there
    Reaches(C, &'a str),
}
