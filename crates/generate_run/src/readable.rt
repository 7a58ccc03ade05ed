//! Backends whose queries are read back.

ghost use Rattle.generate_run.specs.Compared.{ReadsBack};
ghost use Rattle.query_lang.specs.Ended.{RefusedForPatterns};

use backend_core::Backend;
use query_lang::Language;

/// A backend with the language that reads its queries.
pub trait Readable: Backend {
    type Reader: Language;

    /// The text of a sound tree that isn't refused is one query within the limits, and it picks an event exactly where the tree holds;
    /// and a query within the limits is refused for its regular expressions alone.
    fn reads_back()
        ensures query { ReadsBack Self.missing Self.text Self.too_deep (Self.Reader.is_query) (Self.Reader.is_within) (Self.Reader.picks) }
        ensures patterns { RefusedForPatterns (Self.Reader.is_within) (Self.Reader.refuses) };
}
