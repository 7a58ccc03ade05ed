//! Correlations: an engine of one correlation takes events, ten milliseconds apart. Written is how
//! many reports there were, and how many matches are held at the end.
//!
//! The words `EVENTS GROUPS SECONDS` are an `event_count` of ten or more over so many events of
//! random groups, with a timespan of so many seconds. As in
//! `time out/bench correlation 1000000 100000 3600`.
//!
//! The words `TYPE SHAPE EVENTS` are a correlation's type, what its windows are like, and how many
//! events come. As in `time out/bench load temporal window 200000`. The shapes are
//!
//! - `none`: no event matches a rule,
//! - `group`: one group, with a timespan of an hour,
//! - `groups`: as many random groups as a fourth word says, with a timespan of an hour,
//! - `window`: one group, with all of its matches in one window and without reports,
//! - `sliding`: one group, with a tenth of its matches in a window.
//!
//! The types that count list one rule, which each event matches, and report six or more. The others
//! list three rules, of which each event matches the next in turn. In `window` the former report
//! nothing, and the third rule of the latter is never matched. A counted text is that of one event,
//! in `sliding` that of two.

ghost use Rattle.std.specs.Prelude.{◌≡◌, ◌≤◌, ◌≤ℤ◌, ◌^◌, pos, length, IfOk};
ghost use Rattle.event_schema.specs.Occurrence.{IsMoment};
ghost use Rattle.correlation_engine.specs.Limits.{IsWithinLimits};

use crate::{no_memory, small_number, unknown};
use correlation_engine::{Arrival, Engine, TakeFault};
use correlation_windows::{Bound, CorrelationKind, Op};
use event_schema::{Event, FieldValues, Value};
use rand_core::utils::NextWord;
use rand_pcg::Pcg32;
use sig_base::{Fault, Sequence};
use std::alloc::Global;
use std::env::Args;
use std::io;

/// What the windows of a load are like.
#[derive(Clone, Copy)]
enum Shape {
    NoMatch,
    Group,
    Groups,
    Window,
    Sliding,
}

/// A correlation and its events: how many of its rules they match in turn, how many groups there
/// are, the timespan in nanoseconds, what the counts report at least, and whether two events each
/// have one text.
#[derive(Clone, Copy)]
struct Plan {
    kind: CorrelationKind,
    met: u32,
    groups: u32,
    span: u64,
    least: u64,
    pairs: bool,
}

/// How many reports there were, and how many matches are held at the end.
#[derive(Drop)]
struct Load {
    reports: u64,
    held: u64,
}

/// So many nanoseconds, at least one.
fn span(nanoseconds: u64) -> i128
    ensures positive { pos 1 ≤ℤ result }
    ensures short { result ≤ℤ pos (2 ^ 100) }
{
    if nanoseconds == 0 {
        return 1;
    }
    nanoseconds as i128
}

/// One rule where something is counted, and three where rules are to be met.
fn rules(alloc: Global, kind: CorrelationKind) -> Result<Sequence<u32>, Fault>
    ensures { IfOk result (λ all. length all ≤ 64) }
{
    let mut all = Sequence::new(alloc);
    all.push(0)?;
    match kind {
        CorrelationKind::EventCount | CorrelationKind::ValueCount => Ok(all),
        CorrelationKind::Temporal | CorrelationKind::TemporalOrdered => {
            all.push(1)?;
            all.push(2)?;
            Ok(all)
        }
    }
}

/// For each of so many rules the first field.
fn groups(alloc: Global, rules: usize) -> Result<Sequence<Sequence<u32>>, Fault> {
    let mut all = Sequence::new(alloc);
    for _ in 0..rules {
        let mut group = Sequence::new(alloc);
        group.push(0)?;
        all.push(group)?;
    }
    Ok(all)
}

/// The second field, where texts are counted.
fn counted(kind: CorrelationKind) -> Option<u32> {
    match kind {
        CorrelationKind::ValueCount => Some(1),
        _ => None,
    }
}

fn bound(alloc: Global, plan: &Plan) -> Result<Bound, Fault>
    ensures { IfOk result IsWithinLimits }
{
    let rules = rules(alloc, plan.kind)?;
    let groups = groups(alloc, rules.as_slice().len())?;
    let mut condition = Sequence::new(alloc);
    condition.push((Op::Gte, plan.least))?;
    Ok(Bound {
        kind: plan.kind,
        rules,
        groups,
        span: span(plan.span),
        condition,
        counted: counted(plan.kind),
    })
}

fn engine(alloc: Global, plan: &Plan) -> Result<Engine, Fault> {
    let mut bounds = Vec::new(alloc);
    bounds.push(bound(alloc, plan)?)?;
    Engine::make(alloc, bounds)
}

/// Ten milliseconds from event to event.
fn moment(line: u32) -> i128
    ensures { IsMoment result }
{
    line as i128 * 10_000_000
}

/// Which of three rules an event matches, where so many are matched in turn.
fn hits(met: u32, line: u32) -> [bool; 3] {
    let turn = match met {
        0 => 3,
        _ => line % met,
    };
    [turn == 0, turn == 1, turn == 2]
}

/// The number that is counted as a text.
fn text(pairs: bool, line: u32) -> u32 {
    if pairs {
        return line / 2;
    }
    line
}

fn event(alloc: Global, group: u32, text: u32) -> Result<Event, Fault> {
    let mut values = Vec::new(alloc);
    values.push(FieldValues::one(Value::Whole(group as i64)))?;
    values.push(FieldValues::one(Value::Whole(text as i64)))?;
    Ok(Event::new(values, None))
}

fn take(
    alloc: Global,
    engine: &mut Engine,
    plan: &Plan,
    line: u32,
    group: u32,
) -> Result<u64, Fault> {
    let event = event(alloc, group, text(plan.pairs, line))?;
    let hits = hits(plan.met, line);
    let arrival = Arrival {
        line,
        moment: moment(line),
        hits: &hits,
        event: &event,
    };
    match engine.take(&arrival) {
        Ok(reports) => Ok(reports.len() as u64),
        Err(TakeFault::OutOfOrder { .. }) => Ok(0),
        Err(TakeFault::Memory) => Err(Fault::Memory),
    }
}

/// A random one of so many groups.
fn group(rng: &mut Pcg32, groups: u32) -> u32 {
    match groups {
        0 => 0,
        _ => rng.next_word() % groups,
    }
}

/// Takes so many events.
fn run(alloc: Global, plan: &Plan, events: u32) -> Result<Load, Fault> {
    let mut engine = engine(alloc, plan)?;
    let mut rng = Pcg32::new(1, 1);
    let mut reports: u64 = 0;
    for line in 0..events {
        let group = group(&mut rng, plan.groups);
        reports = reports.saturating_add(take(alloc, &mut engine, plan, line, group)?);
    }
    let held = engine.held();
    Ok(Load { reports, held })
}

fn told_of(alloc: Global, plan: &Plan, events: u32) -> io::Result<String> {
    match run(alloc, plan, events) {
        Ok(found) => Ok(format!(in alloc;
            "{} reports, {} matches held",
            found.reports, found.held
        )?),
        Err(_) => Err(no_memory()),
    }
}

pub(crate) fn line(alloc: Global, events: u32, groups: u32, seconds: u32) -> io::Result<String> {
    let plan = Plan {
        kind: CorrelationKind::EventCount,
        met: 1,
        groups,
        span: seconds.max(1) as u64 * 1_000_000_000,
        least: 10,
        pairs: false,
    };
    told_of(alloc, &plan, events)
}

pub(crate) fn told(alloc: Global, words: &mut Args) -> io::Result<String> {
    let (Some(events), Some(groups), Some(seconds)) = (
        small_number(words.next()),
        small_number(words.next()),
        small_number(words.next()),
    ) else {
        return Err(unknown());
    };
    line(alloc, events, groups, seconds)
}

/// How many of the rules are met in turn.
fn met(kind: CorrelationKind, shape: Shape) -> u32 {
    match (kind, shape) {
        (_, Shape::NoMatch) => 0,
        (CorrelationKind::EventCount | CorrelationKind::ValueCount, _) => 1,
        (_, Shape::Window) => 2,
        _ => 3,
    }
}

/// The timespan in nanoseconds, where so many events come.
fn nanoseconds(shape: Shape, events: u32) -> u64 {
    match shape {
        Shape::NoMatch | Shape::Window => events as u64 * 10_000_000,
        Shape::Group | Shape::Groups => 3_600_000_000_000,
        Shape::Sliding => events as u64 * 1_000_000,
    }
}

/// The number from which on the counts report.
fn least(shape: Shape) -> u64 {
    match shape {
        Shape::Window => u64::MAX,
        _ => 6,
    }
}

fn shape_line(
    alloc: Global,
    kind: CorrelationKind,
    shape: Shape,
    events: u32,
    groups: u32,
) -> io::Result<String> {
    let plan = Plan {
        kind,
        met: met(kind, shape),
        groups,
        span: nanoseconds(shape, events),
        least: least(shape),
        pairs: matches!(shape, Shape::Sliding),
    };
    told_of(alloc, &plan, events)
}

/// A line of each type, of a window that slides over a hundred events.
pub(crate) fn sliding(alloc: Global) -> io::Result<String> {
    let shape = Shape::Sliding;
    let events = shape_line(alloc, CorrelationKind::EventCount, shape, 100, 1)?;
    let values = shape_line(alloc, CorrelationKind::ValueCount, shape, 100, 1)?;
    let temporal = shape_line(alloc, CorrelationKind::Temporal, shape, 100, 1)?;
    let ordered = shape_line(alloc, CorrelationKind::TemporalOrdered, shape, 100, 1)?;
    Ok(format!(in alloc;
        "{}\n{}\n{}\n{}",
        events.as_str(),
        values.as_str(),
        temporal.as_str(),
        ordered.as_str()
    )?)
}

fn kind_of(word: Option<String>) -> Option<CorrelationKind> {
    match word?.as_str() {
        "event_count" => Some(CorrelationKind::EventCount),
        "value_count" => Some(CorrelationKind::ValueCount),
        "temporal" => Some(CorrelationKind::Temporal),
        "temporal_ordered" => Some(CorrelationKind::TemporalOrdered),
        _ => None,
    }
}

fn shape_of(word: Option<String>) -> Option<Shape> {
    match word?.as_str() {
        "none" => Some(Shape::NoMatch),
        "group" => Some(Shape::Group),
        "groups" => Some(Shape::Groups),
        "window" => Some(Shape::Window),
        "sliding" => Some(Shape::Sliding),
        _ => None,
    }
}

pub(crate) fn told_by_shape(alloc: Global, words: &mut Args) -> io::Result<String> {
    let (Some(kind), Some(shape), Some(events)) = (
        kind_of(words.next()),
        shape_of(words.next()),
        small_number(words.next()),
    ) else {
        return Err(unknown());
    };
    let groups = match shape {
        Shape::Groups => small_number(words.next()),
        _ => Some(1),
    };
    match groups {
        Some(groups) => shape_line(alloc, kind, shape, events, groups),
        None => Err(unknown()),
    }
}
