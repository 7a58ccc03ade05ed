//! Events that are followed by an engine that is lent.

ghost use Rattle.std.specs.Prelude.{IfOk, List};
ghost use Rattle.correlation_windows.specs.History.{Taken};
ghost use Rattle.correlation_windows.specs.Kept.{StandsFor};
ghost use Rattle.sigma_serve.specs.Sourced.{IsFound};

use correlation_engine::Engine;
use correlation_files::{Bindings, Found, read_rules};
use event_read::read_schema;
use event_schema::Schema;
use query_lang::CrateBuilder;
use sig_base::{Bytes, Limits, Text};
use sigma_serve::{Status, follow};
use std::alloc::Global;
use std::process::Abort;
use std::test::Fail;
use system_io::{MemorySink, MemorySource};

const SCHEMA: &str =
    "{\"fields\":[{\"name\":\"Code\",\"kind\":\"whole\"},{\"name\":\"User\",\"kind\":\"text\"}],\"time\":{\"at\":[\"t\"],\"form\":\"seconds\"}}";

const BOTH: &str =
    "title: T\nname: logon\nlogsource:\n  product: windows\ndetection:\n  sel:\n    Code: 1\n  condition: sel\n---\ntitle: Burst\ncorrelation:\n  type: event_count\n  rules: [logon]\n  group-by: [User]\n  timespan: 60s\n  condition:\n    gte: 3\n";

const EVENTS: &str =
    "{\"Code\":1,\"User\":\"a\",\"t\":0}\n{\"Code\":1,\"User\":\"a\",\"t\":10}\n{\"Code\":1,\"User\":\"a\",\"t\":60}\n{\"Code\":1,\"User\":\"a\",\"t\":60}\n{\"Code\":1,\"User\":\"a\",\"t\":61}\n{\"Code\":1,\"User\":\"a\",\"t\":59}\n";

const REPORTS: &str =
    "{\"correlation\":\"Burst\",\"line\":4,\"from\":2,\"count\":3,\"group\":[\"a\"]}\n{\"correlation\":\"Burst\",\"line\":5,\"from\":2,\"count\":4,\"group\":[\"a\"]}\n";

const EARLY: &str = "events:6: 145 OutOfOrder 59000000000 61000000000\n";

/// The rules and correlations of a file, of which nothing is refused.
fn found_in(rt: &impl Abort, alloc: Global, schema: &Schema, rules: &str) -> Result<Found, Fail>
    ensures { IfOk result (λ found. IsFound schema.now found) }
{
    let mut builder = CrateBuilder::new(alloc, Vec::new(alloc));
    let name = Text::copy(alloc, "c.yml")?;
    let limits = Limits::standard();
    let mut found = Found::new(alloc);
    let refusals = read_rules(
        alloc,
        &limits,
        &[],
        schema,
        &name,
        rules.as_bytes(),
        &mut found,
        &mut builder,
    )?;
    assert!(rt; refusals.as_slice().is_empty());
    Ok(found)
}

fn events(alloc: Global) -> Result<MemorySource, Fail> {
    let bytes = Bytes::copy(alloc, EVENTS.as_bytes())?;
    Ok(MemorySource::new(bytes, 4096, Vec::new(alloc)))
}

fn sink(alloc: Global) -> Result<MemorySink, Fail> {
    Ok(MemorySink::new(alloc, 4096, 4096, Vec::new(alloc))?)
}

/// How following the events ended, and whether the reports were written and the event that came too early was told.
fn followed(
    alloc: Global,
    schema: &Schema,
    found: &Found,
    names: &[Text],
    engine: &mut Engine,
) -> Result<(Status, bool, bool), Fail>
    requires found { IsFound schema.now found.now }
    requires stands { (history : List Taken) × StandsFor engine.old history }
{
    let mut events = events(alloc)?;
    let mut out = sink(alloc)?;
    let mut err = sink(alloc)?;
    let status = follow(
        alloc,
        &Limits::standard(),
        schema,
        found.rules.as_slice(),
        found.ready.as_slice(),
        names,
        engine,
        &mut events,
        &mut out,
        &mut err,
    );
    let reported = out.taken() == REPORTS.as_bytes();
    let told = err.taken() == EARLY.as_bytes();
    Ok((status, reported, told))
}

/// The engine that is lent holds the four matches that the timespan reaches back from the last event that was taken.
#[test]
fn follows_events_by_an_engine(rt: HostRuntime) -> Result<(), Fail> {
    let alloc = rt.alloc();
    let schema = read_schema(alloc, &Limits::standard(), SCHEMA.as_bytes())?;
    let found = found_in(&rt, alloc, &schema, BOTH)?;
    let bindings = found.bind(alloc, &schema)?;
    let Bindings {
        bounds,
        names,
        unbound,
    } = bindings;
    assert!(rt; unbound.is_empty());
    let mut engine = Engine::make(alloc, bounds)?;
    let followed = followed(alloc, &schema, &found, names.as_slice(), &mut engine)?;
    assert_eq!(rt; followed, (Status::Found, true, true));
    assert_eq!(rt; engine.held(), 4);
    Ok(())
}
