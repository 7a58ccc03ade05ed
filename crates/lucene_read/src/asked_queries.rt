//! Queries that are asked of events.

use event_schema::{Event, Schema};
use lucene_eval::selects;
use lucene_lang::Group;
use query_lang::Selector;

/// A query that is asked of events; it takes no memory.
#[derive(Drop)]
pub struct Asking<'q> {
    pub group: &'q Group,
}

impl<'q> Selector for Asking<'q> {
    ghost use Rattle.std.specs.Prelude.{◌⊎◌, List};
    ghost use Rattle.event_schema.specs.declared.value.Value.{Value};
    ghost use Rattle.lucene_lang.specs.Query as query;
    ghost use Rattle.lucene_lang.specs.Meaning.{LuceneSelects};
    ghost use Rattle.lucene_lang.specs.View.{group_view};

    ghost Plain = { query.Group };

    ghost plain = { λ a. group_view a.group.now };

    ghost picks = { LuceneSelects };

    fn selects(&mut self, _schema: &Schema, event: &Event) -> bool {
        selects(self.group, event)
    }

    fn law()
        ensures { (group : query.Group) (row : List (List Value)) → LuceneSelects group row ⊎ (LuceneSelects group row → ⊥) }
    {}
}
