//! Characters as they are written in runs and phrases.

/// A character of a run or of a phrase: as it stands, or behind a backslash, which makes it plain.
#[derive(Clone, Copy, Debug, PartialEq, Eq)]
pub enum Written {
    Bare(char),
    Escaped(char),
}
