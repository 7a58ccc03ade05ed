//! SQLite's backend, but that asking one of its queries always wants memory; for tests.

ghost use Rattle.std.specs.Prelude.{true};
ghost use Rattle.sql_lang.specs.Expression as expression;
ghost use Rattle.sql_lang.specs.Reading.{Reads};
ghost use Rattle.sql_lang.specs.Regexps.{byte_regexps};
ghost use Rattle.sql_lang.specs.Queries.{IsWithin, Picks};
ghost use Rattle.sql_lang.specs.View.{expr_view};
ghost use Rattle.sql_read.specs.Answers.{IsRefused};
ghost use Rattle.sqlite_writer.specs.Lacking.{sqlite_lacks};
ghost use Rattle.sqlite_writer.specs.Queries.{query_bytes};
ghost use Rattle.sqlite_writer.specs.Refused.{deep_refusal};

use backend_core::{Backend, Lack, Lacking, Leaf, Tree};
use event_schema::{Event, Schema};
use generate_run::Readable;
use query_lang::{Asker, Builder, Language};
use sig_base::{Bytes, Fault, Limits, Place};
use sql_lang::{Select, Sql};
use sql_read::SqlReader;
use sqlite_writer::Sqlite;
use std::alloc::Global;

pub struct Wanting;

pub struct WantingReader;

impl Lacking for Wanting {
    ghost missing = { λ schema leaf. sqlite_lacks schema.fields leaf };

    fn lacks(&self, schema: &Schema, leaf: &Leaf) -> Option<Lack> {
        Sqlite.lacks(schema, leaf)
    }
}

impl Backend for Wanting {
    type Lang = Sql;

    ghost text = { query_bytes };

    ghost too_deep = { deep_refusal };

    fn write(
        &self,
        alloc: Global,
        limits: &Limits,
        schema: &Schema,
        tree: &Tree,
        place: Place,
    ) -> Result<Bytes, Fault> {
        Sqlite.write(alloc, limits, schema, tree, place)
    }

    fn law() {
        <Sqlite as Backend>::law();
    }
}

impl Language for WantingReader {
    type Query = Select;

    ghost Plain = { expression.Expr };

    ghost plain = { λ select. expr_view select.condition };

    ghost is_query = { Reads };

    ghost is_within = { IsWithin };

    ghost picks = { Picks };

    ghost takes_memory = { λ query. true };

    ghost patterns = { byte_regexps };

    ghost refuses = { IsRefused };

    fn read<B: Builder>(
        alloc: Global,
        limits: &Limits,
        schema: &Schema,
        bytes: &[u8],
        builder: &mut B,
    ) -> Result<Select, Fault> {
        SqlReader::read(alloc, limits, schema, bytes, builder)
    }

    fn selects(
        _alloc: Global,
        _query: &mut Select,
        _schema: &Schema,
        _event: &Event,
    ) -> Result<bool, Fault> {
        Err(Fault::Memory)
    }

    fn with_selector<A: Asker>(
        alloc: Global,
        query: &Select,
        asker: &mut A,
    ) -> Result<A::Answer, Fault> {
        SqlReader::with_selector(alloc, query, asker)
    }

    fn law() {
        SqlReader::law();
    }
}

impl Readable for Wanting {
    type Reader = WantingReader;

    fn reads_back() {
        <Wanting as Backend>::law();
        sql_read::line_feed_behind();
    }
}
