//! What follows from the definitions, for the proofs of callers.

ghost use Rattle.query_read.specs.Laws.{SomePlaces, EachAsked, NeverBoth, OneQuery, OneCause};

use query_lang::Language;

/// Whatever a builder refused, there are places that are refused for it; and, given such places, each file is asked as one query, or it
/// isn't asked for one cause.
pub fn asked_once<L: Language>()
    ensures places { SomePlaces }
    ensures each { EachAsked L.is_query L.is_within L.refuses }
    ensures never_both { NeverBoth L.is_query L.is_within L.refuses }
    ensures query { OneQuery L.is_query L.is_within L.refuses }
    ensures cause { OneCause L.is_query L.is_within L.refuses }
{
    L::law();
}
