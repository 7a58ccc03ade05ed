ghost use Rattle.event_schema.specs.Occurrence.{IsMoment};

use crate::engine::{engine, event, within_a_minute};
use crate::telling::assert_told;
use correlation_engine::{Arrival, Engine};
use std::alloc::Global;
use std::fmt::Write;
use std::test::Fail;

const MINUTE: u64 = 60_000_000_000;

fn moment_of(nanoseconds: u64) -> i128
    ensures { IsMoment result }
{
    nanoseconds as i128
}

/// Takes an event of a user, and writes how many matches are held behind it.
fn take(
    alloc: Global,
    engine: &mut Engine,
    shown: &mut String,
    moment: u64,
    user: &str,
) -> Result<(), Fail> {
    let event = event(alloc, user)?;
    let arrival = Arrival {
        line: 1,
        moment: moment_of(moment),
        hits: &[true],
        event: &event,
    };
    match engine.take(&arrival) {
        Ok(_) => write!(shown, "{} ", engine.held())?,
        Err(_) => write!(shown, "! ")?,
    }
    Ok(())
}

/// How many matches are held behind each of these events.
fn held_behind(alloc: Global, events: &[(u64, &str)]) -> Result<String, Fail> {
    let bound = within_a_minute(alloc)?;
    let mut engine = engine(alloc, bound)?;
    let mut shown = String::new(alloc);
    for (moment, user) in events {
        take(alloc, &mut engine, &mut shown, *moment, user)?;
    }
    Ok(shown)
}

#[test]
fn older_matches_of_every_group_go(rt: HostRuntime) -> Result<(), Fail> {
    let events = [
        (0, "a"),
        (1, "b"),
        (2, "A"),
        (2, "b"),
        (MINUTE + 1, "c"),
        (MINUTE + 2, "b"),
    ];
    assert_told(&rt, held_behind(rt.alloc(), &events), "1 2 3 4 3 2 ")
}
