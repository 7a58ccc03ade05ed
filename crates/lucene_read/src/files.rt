//! Queries in files.

ghost use Rattle.query_lang.specs.Ended.{SameWithLineFeed, RefusedForPatterns};

use crate::language::LuceneReader;
use query_lang::Language;

/// A line feed behind a query changes nothing, and a query within the limits is refused for its regular expressions alone.
pub fn line_feed_behind()
    ensures same { SameWithLineFeed ⟦<LuceneReader as Language>⟧.is_query ⟦<LuceneReader as Language>⟧.is_within }
    ensures patterns { RefusedForPatterns ⟦<LuceneReader as Language>⟧.is_within ⟦<LuceneReader as Language>⟧.refuses }
{
    lucene_lang::no_refused_query();
}
