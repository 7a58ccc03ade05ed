//! SQLite as a backend.

use crate::laws::{schemas_are_found, tree_is_query};
use crate::writer::Sqlite;
use backend_core::{Backend, Tree};
use event_schema::Schema;
use sig_base::{Bytes, Fault, Limits, Place};
use sql_lang::Sql;
use std::alloc::Global;

impl Backend for Sqlite {
    ghost use Rattle.sqlite_writer.specs.Queries.{query_bytes};
    ghost use Rattle.sqlite_writer.specs.Refused.{deep_refusal};

    type Lang = Sql;

    ghost text = { query_bytes };

    ghost too_deep = { deep_refusal };

    fn write(
        &self,
        alloc: Global,
        limits: &Limits,
        schema: &Schema,
        tree: &Tree,
        place: Place,
    ) -> Result<Bytes, Fault> {
        self.text(alloc, limits, schema, tree, place)
    }

    fn law() {
        schemas_are_found();
        tree_is_query();
    }
}
