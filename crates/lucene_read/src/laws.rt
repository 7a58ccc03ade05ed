//! The queries that are read are those of `Lucene`.

ghost use Rattle.std.specs.Prelude.{◌≡◌, ◌↔◌, List, ℕ};
ghost use Rattle.event_schema.specs.declared.schema.Schema.{Schema};
ghost use Rattle.event_schema.specs.declared.value.Value.{Value};
ghost use Rattle.sig_base.specs.declared.limits.Limits.{Limits};
ghost use Rattle.lucene_lang.specs.Query as query;

use crate::language::LuceneReader;
use lucene_lang::Lucene;
use query_lang::{Language, QueryLanguage};

/// `LuceneReader` reads exactly the queries of `Lucene`, under the same limits, and they pick the same events.
pub fn same_queries()
    ensures query { (schema : Schema) (bytes : List ℕ) (g : query.Group) → ⟦<LuceneReader as Language>⟧.is_query schema bytes g ↔ ⟦<Lucene as QueryLanguage>⟧.is_query schema bytes g }
    ensures within { (limits : Limits) (schema : Schema) (bytes : List ℕ) (g : query.Group) → ⟦<LuceneReader as Language>⟧.is_within limits schema bytes g ↔ ⟦<Lucene as QueryLanguage>⟧.is_within limits schema bytes g }
    ensures picks { (row : List (List Value)) (g : query.Group) → ⟦<LuceneReader as Language>⟧.picks g row ↔ ⟦<Lucene as QueryLanguage>⟧.picks g row }
{}
