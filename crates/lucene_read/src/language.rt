//! The language of Lucene queries, with its reader.

ghost use Rattle.std.specs.Prelude.{◌≤◌, ◌+◌, [], false, length};
ghost use Rattle.lucene_lang.specs.Query as query;
ghost use Rattle.lucene_lang.specs.Meaning.{LuceneSelects};
ghost use Rattle.lucene_lang.specs.Reading.{Reads};
ghost use Rattle.lucene_lang.specs.View.{group_view};
ghost use Rattle.lucene_lang.specs.Queries.{IsWithin};
ghost use Rattle.lucene_read.specs.Answered.{IsRefused, IsAnswered};

use crate::asked_queries::Asking;
use crate::query::read_query;
use event_schema::{Event, Schema};
use lucene_lang::Group;
use query_lang::{Asker, Builder, Language};
use sig_base::{Fault, Limits};
use std::alloc::Global;

/// The query that bytes are, or their first refusal, with no regular expression.
#[tactic(auto, using(crate::proofs::Refusing::answered))]
fn read_bytes(alloc: Global, limits: &Limits, schema: &Schema, bytes: &[u8]) -> Result<Group, Fault>
    requires short { length bytes.now ≤ limits.now.query_bytes + 1 }
    ensures { IsAnswered limits.now schema.now bytes.now result }
{
    lucene_lang::no_refused_query();
    read_query(alloc, limits, schema, bytes)
}

/// Lucene's classic query syntax, with its reader: the queries of `Lucene`. It has no regular expressions, so no place is
/// refused for one, and asking a query of an event takes no memory.
#[derive(Clone, Copy, Debug)]
pub struct LuceneReader;

impl Language for LuceneReader {
    type Query = Group;

    ghost Plain = { query.Group };

    ghost plain = { group_view };

    ghost is_query = { Reads };

    ghost is_within = { IsWithin };

    ghost picks = { LuceneSelects };

    ghost takes_memory = { λ group. false };

    ghost patterns = { λ bytes. [] };

    ghost refuses = { IsRefused };

    fn read<B: Builder>(
        alloc: Global,
        limits: &Limits,
        schema: &Schema,
        bytes: &[u8],
        _builder: &mut B,
    ) -> Result<Group, Fault> {
        read_bytes(alloc, limits, schema, bytes)
    }

    fn selects(
        _alloc: Global,
        query: &mut Group,
        _schema: &Schema,
        event: &Event,
    ) -> Result<bool, Fault> {
        Ok(lucene_eval::selects(query, event))
    }

    fn with_selector<A: Asker>(
        alloc: Global,
        query: &Group,
        asker: &mut A,
    ) -> Result<A::Answer, Fault> {
        let mut asking = Asking { group: query };
        Ok(asker.ask(alloc, &mut asking))
    }

    fn law() {
        lucene_lang::one_reading();
        lucene_lang::one_refusal();
        lucene_lang::no_refused_query();
        lucene_lang::query_or_refusal();
    }
}
