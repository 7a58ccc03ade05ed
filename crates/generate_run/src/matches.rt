//! Events that a rule matches, and those that its queries select.

ghost use Rattle.std.specs.Prelude.{◌≡◌, ◌↔◌, None, IfOk, IfErr, List};
ghost use Rattle.backend_core.specs.Holds.{TreeHolds};
ghost use Rattle.backend_core.specs.Schemas.{IsNamed};
ghost use Rattle.backend_core.specs.Sound.{IsSound};
ghost use Rattle.backend_core.specs.View.{tree_view};
ghost use Rattle.backend_core.specs.Writing.{write_refusal};
ghost use Rattle.generate_run.specs.Compared.{Flags};
ghost use Rattle.detection_eval.specs.Ready.{JudgesFor};
ghost use Rattle.event_schema.specs.Events.{IsEvent};
ghost use Rattle.event_schema.specs.Lists.{EachOf};
ghost use Rattle.event_schema.specs.declared.schema.Field.{Field};
ghost use Rattle.rule_model.specs.Matching.{Matches};
ghost use Rattle.rule_model.specs.Plain.{PlainRule};
ghost use Rattle.generate_run.specs.Rules.{start};

use crate::builder::NoList;
use crate::comparisons::compare;
use crate::readable::Readable;
use backend_core::{Backend, Tree};
use detection_eval::Judge;
use event_schema::{Event, Schema};
use query_lang::Language;
use sig_base::{Fault, Limits, Place};
use std::alloc::Global;

/// For each event, in order, whether the rule matches it; only want of memory is answered.
pub fn select_by_rule(
    alloc: Global,
    judge: &mut Judge<'_>,
    events: &[Event],
) -> Result<Vec<bool>, Fault>
    ensures flags { (fields : List Field) (rule : PlainRule) → JudgesFor fields rule judge.old
        → IfOk result (λ flags. Flags (λ row. Matches fields row rule) events.now flags.items) }
    ensures same { (fields : List Field) (rule : PlainRule) → JudgesFor fields rule judge.old → JudgesFor fields rule judge.new }
    ensures err { IfErr result (λ e. e ≡ Fault.Memory) }
{
    let mut flags = Vec::with_capacity(alloc, events.len())?;
    for event in events {
        let flag = judge.matches(event);
        flags.push(flag)?;
    }
    Ok(flags)
}

/// For each event of the schema, in order, whether the query of a sound tree selects it, where the backend refuses nothing of the tree: the
/// query is written, read back and asked. Only want of memory is answered.
pub fn select_by_query<K: Readable>(
    alloc: Global,
    backend: &K,
    limits: &Limits,
    schema: &Schema,
    tree: &Tree,
    events: &[Event],
) -> Result<Vec<bool>, Fault>
where
    <K::Reader as Language>::Query: Drop,
    requires named { IsNamed schema.now }
    requires sound { IsSound schema.now.fields (tree_view tree.now) }
    requires written { write_refusal K.missing K.text K.too_deep limits.now schema.now (tree_view tree.now) start ≡ None }
    requires events { EachOf (λ event. IsEvent schema.now.fields event.values) events.now }
    ensures flags { IfOk result (λ flags. Flags (λ row. TreeHolds row (tree_view tree.now)) events.now flags.items) }
    ensures err { IfErr result (λ e. e ≡ Fault.Memory) }
{
    let mut builder = NoList;
    compare(
        alloc,
        backend,
        limits,
        schema,
        tree,
        Place::START,
        events,
        &mut builder,
    )
}
