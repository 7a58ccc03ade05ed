//! The names of backends.

/// A backend by its name.
#[derive(Clone, Copy, Debug, PartialEq, Eq)]
pub enum BackendName {
    /// queries of SQLite
    Sqlite,
    /// queries of Lucene
    Lucene,
}
