//! The language of SQL queries, with its reader.

ghost use Rattle.sql_eval.specs.Searches.{takes_memory};
ghost use Rattle.sql_lang.specs.Expression as expression;
ghost use Rattle.sql_lang.specs.Reading.{Reads};
ghost use Rattle.sql_lang.specs.Regexps.{byte_regexps};
ghost use Rattle.sql_lang.specs.Queries.{IsWithin, Picks};
ghost use Rattle.sql_lang.specs.View.{expr_view};
ghost use Rattle.sql_read.specs.Answers.{IsRefused};

use crate::select::read_select;
use event_schema::{Event, Schema};
use query_lang::{Asker, Builder, Language};
use sig_base::{Fault, Limits};
use sql_lang::Select;
use std::alloc::Global;

/// SQL, as SQLite reads it, with its reader: the queries of `Sql`. Asking a query of an event takes memory where it has a regular
/// expression.
#[derive(Clone, Copy, Debug)]
pub struct SqlReader;

impl Language for SqlReader {
    type Query = Select;

    ghost Plain = { expression.Expr };

    ghost plain = { λ select. expr_view select.condition };

    ghost is_query = { Reads };

    ghost is_within = { IsWithin };

    ghost picks = { Picks };

    ghost takes_memory = { takes_memory };

    ghost patterns = { byte_regexps };

    ghost refuses = { IsRefused };

    fn read<B: Builder>(
        alloc: Global,
        limits: &Limits,
        schema: &Schema,
        bytes: &[u8],
        builder: &mut B,
    ) -> Result<Select, Fault> {
        read_select(alloc, limits, schema, bytes, builder)
    }

    fn selects(
        alloc: Global,
        query: &mut Select,
        _schema: &Schema,
        event: &Event,
    ) -> Result<bool, Fault> {
        sql_eval::selects(alloc, query, event)
    }

    fn with_selector<A: Asker>(
        alloc: Global,
        query: &Select,
        asker: &mut A,
    ) -> Result<A::Answer, Fault> {
        sql_eval::with_selector(alloc, query, asker)
    }

    fn law() {
        sql_lang::one_reading();
        sql_lang::one_refusal();
        sql_lang::query_or_refusal();
    }
}
