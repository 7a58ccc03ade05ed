//! A tree's query, written, read back and asked of events.

ghost use Rattle.std.specs.Prelude.{◌≡◌};
ghost use Rattle.backend_core.specs.Holds.{TreeHolds};
ghost use Rattle.backend_core.specs.Schemas.{IsNamed};
ghost use Rattle.backend_core.specs.Sound.{IsSound};
ghost use Rattle.backend_core.specs.View.{tree_view};
ghost use Rattle.backend_core.specs.Writing.{write_refusal};
ghost use Rattle.generate_run.specs.Compared.{Answers, Flags, PicksAs};
ghost use Rattle.event_schema.specs.Events.{IsEvent};
ghost use Rattle.event_schema.specs.Lists.{EachOf};

use crate::readable::Readable;
use crate::selection::select_all;
use backend_core::{Backend, Tree};
use event_schema::{Event, Schema};
use query_lang::{Builder, Language};
use sig_base::{Fault, Limits, Place};
use std::alloc::Global;

/// The query of a sound tree, written and read back: it picks each event of the schema exactly where the tree holds.
fn read_back<K: Readable, B: Builder>(
    alloc: Global,
    backend: &K,
    limits: &Limits,
    schema: &Schema,
    tree: &Tree,
    place: Place,
    builder: &mut B,
) -> Result<<K::Reader as Language>::Query, Fault>
    requires named { IsNamed schema.now }
    requires sound { IsSound schema.now.fields (tree_view tree.now) }
    ensures { Answers (write_refusal K.missing K.text K.too_deep limits.now schema.now (tree_view tree.now) place)
        (K.Reader.refuses limits.now schema.now (K.text schema.now (tree_view tree.now))) (K.Reader.patterns (K.text schema.now (tree_view tree.now)))
        (λ query. PicksAs schema.now (tree_view tree.now) (K.Reader.picks (K.Reader.plain query))) (B.refused builder.old) (B.refused builder.new) result }
{
    K::reads_back();
    let text = match backend.write(alloc, limits, schema, tree, place) {
        Ok(text) => text,
        Err(fault) => return Err(fault),
    };
    K::Reader::read(alloc, limits, schema, text.as_slice(), builder)
}

/// The query of a sound tree is written, read back and asked of events of the schema. Answers for each event, in order, whether the
/// query selects it, which is whether the tree holds of it. It's refused as the backend refuses the tree, and 47 or 48 as the
/// language refuses the query.
pub fn compare<K: Readable, B: Builder>(
    alloc: Global,
    backend: &K,
    limits: &Limits,
    schema: &Schema,
    tree: &Tree,
    place: Place,
    events: &[Event],
    builder: &mut B,
) -> Result<Vec<bool>, Fault>
where
    <K::Reader as Language>::Query: Drop,
    requires named { IsNamed schema.now }
    requires sound { IsSound schema.now.fields (tree_view tree.now) }
    requires events { EachOf (λ event. IsEvent schema.now.fields event.values) events.now }
    ensures { Answers (write_refusal K.missing K.text K.too_deep limits.now schema.now (tree_view tree.now) place)
        (K.Reader.refuses limits.now schema.now (K.text schema.now (tree_view tree.now))) (K.Reader.patterns (K.text schema.now (tree_view tree.now)))
        (λ flags. Flags (λ row. TreeHolds row (tree_view tree.now)) events.now flags.items) (B.refused builder.old) (B.refused builder.new) result }
{
    let mut query = match read_back(alloc, backend, limits, schema, tree, place, builder) {
        Ok(query) => query,
        Err(fault) => return Err(fault),
    };
    select_all::<K::Reader>(alloc, &mut query, schema, events)
}
