ghost use Rattle.std.specs.Prelude.{◌≡◌, IfOk};
ghost use Rattle.event_schema.specs.Occurrence.{IsMoment};
ghost use Rattle.correlation_engine.specs.Limits.{IsWithinLimits};

use crate::telling::assert_told;
use correlation_engine::{Arrival, Engine, TakeFault};
use correlation_windows::{Bound, CorrelationKind, Op, Report};
use event_schema::{Event, FieldValues, Value};
use sig_base::{Sequence, Text};
use std::alloc::Global;
use std::fmt::Write;
use std::test::Fail;

fn number(alloc: Global, number: u32) -> Result<Sequence<u32>, Fail> {
    let mut all = Sequence::new(alloc);
    all.push(number)?;
    Ok(all)
}

/// At least three events within a minute that one rule matches, grouped by the only field.
pub fn within_a_minute(alloc: Global) -> Result<Bound, Fail>
    ensures { IfOk result IsWithinLimits }
{
    let mut rules = Sequence::new(alloc);
    rules.push(0)?;
    let mut groups = Sequence::new(alloc);
    groups.push(number(alloc, 0)?)?;
    let mut condition = Sequence::new(alloc);
    condition.push((Op::Gte, 3))?;
    Ok(Bound {
        kind: CorrelationKind::EventCount,
        rules,
        groups,
        span: 60_000_000_000,
        condition,
        counted: None,
    })
}

/// The engine of one correlation.
pub fn engine(alloc: Global, bound: Bound) -> Result<Engine, Fail>
    requires { IsWithinLimits bound }
{
    let mut bounds = Vec::new(alloc);
    bounds.push(bound)?;
    Ok(Engine::make(alloc, bounds)?)
}

fn moment_of(second: u8) -> i128
    ensures { IsMoment result }
{
    second as i128 * 1_000_000_000
}

pub fn event(alloc: Global, user: &str) -> Result<Event, Fail> {
    let mut values = Vec::new(alloc);
    values.push(FieldValues::one(Value::Text(Text::copy(alloc, user)?)))?;
    Ok(Event::new(values, None))
}

/// The reports of an event, each with its line, the line of its window's first match, its count and its group.
fn write_all(shown: &mut String, reports: &[Report]) -> Result<(), Fail> {
    for report in reports {
        write!(shown, "{} {} {}", report.line, report.from, report.count)?;
        for text in report.group.as_slice() {
            write!(shown, " {}", text.as_str())?;
        }
        write!(shown, ";")?;
    }
    Ok(())
}

/// Takes an event of the user `a` at this second, and writes its reports or why it isn't taken.
fn take(
    alloc: Global,
    engine: &mut Engine,
    shown: &mut String,
    line: u32,
    second: u8,
    hits: &[bool],
) -> Result<(), Fail> {
    let event = event(alloc, "a")?;
    let arrival = Arrival {
        line,
        moment: moment_of(second),
        hits,
        event: &event,
    };
    match engine.take(&arrival) {
        Ok(reports) => write_all(shown, &reports),
        Err(TakeFault::OutOfOrder { moment, last }) => {
            write!(shown, "{moment} before {last};")?;
            Ok(())
        }
        Err(TakeFault::Memory) => Ok(()),
    }
}

/// Takes the events of a burst, the last of which comes too early.
fn take_burst(alloc: Global, engine: &mut Engine, shown: &mut String) -> Result<(), Fail> {
    for (line, second) in [(1, 0), (2, 10), (3, 60), (4, 60), (5, 61), (6, 59)] {
        take(alloc, engine, shown, line, second, &[true])?;
    }
    Ok(())
}

/// What a burst gives and how many matches are held behind it, and then how many are behind an event that no rule matches.
fn burst(alloc: Global, engine: &mut Engine) -> Result<String, Fail> {
    let mut shown = String::new(alloc);
    take_burst(alloc, engine, &mut shown)?;
    write!(shown, " {} held;", engine.held())?;
    take(alloc, engine, &mut shown, 7, 200, &[false])?;
    write!(shown, " {} held", engine.held())?;
    Ok(shown)
}

fn burst_of_one_rule(alloc: Global) -> Result<String, Fail> {
    let bound = within_a_minute(alloc)?;
    let mut engine = engine(alloc, bound)?;
    burst(alloc, &mut engine)
}

#[test]
fn a_burst_is_reported_and_then_forgotten(rt: HostRuntime) -> Result<(), Fail> {
    assert_told(
        &rt,
        burst_of_one_rule(rt.alloc()),
        "4 2 3 a;5 2 4 a;59000000000 before 61000000000; 4 held; 0 held",
    )
}
