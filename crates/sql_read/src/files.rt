//! Queries in files.

ghost use Rattle.query_lang.specs.Ended.{SameWithLineFeed, RefusedForPatterns};

use crate::language::SqlReader;
use query_lang::Language;

/// A line feed behind a query changes nothing, and a query within the limits is refused for its regular expressions alone.
pub fn line_feed_behind()
    ensures same { SameWithLineFeed ⟦<SqlReader as Language>⟧.is_query ⟦<SqlReader as Language>⟧.is_within }
    ensures patterns { RefusedForPatterns ⟦<SqlReader as Language>⟧.is_within ⟦<SqlReader as Language>⟧.refuses }
{
    sql_lang::no_refused_query();
}
