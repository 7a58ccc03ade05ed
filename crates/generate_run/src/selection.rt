//! A query asked of many events.

ghost use Rattle.std.specs.Prelude.{◌≡◌, IfOk, IfErr};
ghost use Rattle.event_schema.specs.Events.{IsEvent};
ghost use Rattle.event_schema.specs.Lists.{EachOf};
ghost use Rattle.generate_run.specs.Compared.{Flags};

use event_schema::{Event, Schema};
use query_lang::Language;
use sig_base::Fault;
use std::alloc::Global;

/// For each event, in order, whether the query selects it; only want of memory is answered.
pub fn select_all<L: Language>(
    alloc: Global,
    query: &mut L::Query,
    schema: &Schema,
    events: &[Event],
) -> Result<Vec<bool>, Fault>
    requires { EachOf (λ event. IsEvent schema.now.fields event.values) events.now }
    ensures flags { IfOk result (λ flags. Flags (L.picks (L.plain query.old)) events.now flags.items) }
    ensures err { IfErr result (λ e. e ≡ Fault.Memory) }
{
    let mut flags = Vec::with_capacity(alloc, events.len())?;
    for event in events {
        flags.push(L::selects(alloc, query, schema, event)?)?;
    }
    Ok(flags)
}
