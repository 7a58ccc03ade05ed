//! Lucene as a backend.

use crate::laws::{schemas_are_indexed, tree_is_query};
use crate::writer::LuceneText;
use backend_core::{Backend, Tree};
use event_schema::Schema;
use lucene_lang::Lucene;
use sig_base::{Bytes, Fault, Limits, Place};
use std::alloc::Global;

impl Backend for LuceneText {
    ghost use Rattle.lucene_writer.specs.Queries.{query_bytes};
    ghost use Rattle.lucene_writer.specs.Refused.{deep_refusal};

    type Lang = Lucene;

    ghost text = { query_bytes };

    ghost too_deep = { deep_refusal };

    fn write(
        &self,
        alloc: Global,
        limits: &Limits,
        schema: &Schema,
        tree: &Tree,
        place: Place,
    ) -> Result<Bytes, Fault> {
        self.text(alloc, limits, schema, tree, place)
    }

    fn law() {
        schemas_are_indexed();
        tree_is_query();
    }
}
