//! The queries that are read are those of `Sql`.

ghost use Rattle.std.specs.Prelude.{◌↔◌, List, ℕ};
ghost use Rattle.event_schema.specs.declared.schema.Schema.{Schema};
ghost use Rattle.event_schema.specs.declared.value.Value.{Value};
ghost use Rattle.sig_base.specs.declared.limits.Limits.{Limits};
ghost use Rattle.sql_lang.specs.Expression.{Expr};

use crate::language::SqlReader;
use query_lang::{Language, QueryLanguage};
use sql_lang::Sql;

/// `SqlReader` reads exactly the queries of `Sql`, under the same limits, and they pick the same events.
pub fn same_queries()
    ensures query { (schema : Schema) (bytes : List ℕ) (e : Expr) → ⟦<SqlReader as Language>⟧.is_query schema bytes e ↔ ⟦<Sql as QueryLanguage>⟧.is_query schema bytes e }
    ensures within { (limits : Limits) (schema : Schema) (bytes : List ℕ) (e : Expr) → ⟦<SqlReader as Language>⟧.is_within limits schema bytes e ↔ ⟦<Sql as QueryLanguage>⟧.is_within limits schema bytes e }
    ensures picks { (row : List (List Value)) (e : Expr) → ⟦<SqlReader as Language>⟧.picks e row ↔ ⟦<Sql as QueryLanguage>⟧.picks e row }
{}
