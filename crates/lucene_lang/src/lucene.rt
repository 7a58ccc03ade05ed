//! The language of Lucene queries.

use query_lang::QueryLanguage;

/// Lucene's classic query syntax: queries of an index in which a field has a term for each of its values.
#[derive(Clone, Copy, Debug)]
pub struct Lucene;

impl QueryLanguage for Lucene {
    ghost use Rattle.lucene_lang.specs.Query.{Group};
    ghost use Rattle.lucene_lang.specs.Meaning.{LuceneSelects};
    ghost use Rattle.lucene_lang.specs.Reading.{Reads};
    ghost use Rattle.lucene_lang.specs.Queries.{IsWithin};

    ghost Plain = { Group };

    ghost is_query = { Reads };

    ghost is_within = { IsWithin };

    ghost picks = { LuceneSelects };

    fn law() {
        crate::laws::one_reading();
    }
}
