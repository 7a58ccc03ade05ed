//! Random correlations and random events.

ghost use Rattle.std.specs.Prelude.{◌≡◌, ◌<◌, ◌≤◌, ◌≤ℤ◌, pos, ◌^◌, length, IfOk};
ghost use Rattle.correlation_engine.specs.Limits.{IsWithinLimits};

use crate::random::below;
use correlation_windows::{Bound, CorrelationKind, Op};
use event_schema::{Event, FieldValues, Value};
use rand_pcg::Pcg32;
use sig_base::{Fault, Sequence, Text};
use std::alloc::Global;

/// How many rules there are, and how many fields an event has.
pub(crate) const RULES: u32 = 3;

pub(crate) const FIELDS: u32 = 3;

/// An event as a reader of words would write it down: a field's value is a digit, and -1 where it has none.
#[derive(Drop)]
pub(crate) struct Happening {
    pub line: u32,
    pub moment: i128,
    pub hits: Vec<bool>,
    pub values: Vec<i64>,
}

fn kind(rng: &mut Pcg32) -> CorrelationKind {
    match below(rng, 4) {
        0 => CorrelationKind::EventCount,
        1 => CorrelationKind::ValueCount,
        2 => CorrelationKind::Temporal,
        _ => CorrelationKind::TemporalOrdered,
    }
}

fn comparison(rng: &mut Pcg32) -> Op {
    match below(rng, 8) {
        0 => Op::Lt,
        1 => Op::Lte,
        2 => Op::Gt,
        3 => Op::Eq,
        _ => Op::Gte,
    }
}

/// One test or two.
fn condition(alloc: Global, rng: &mut Pcg32) -> Result<Sequence<(Op, u64)>, Fault> {
    let mut tests = Sequence::new(alloc);
    for _ in 0..1 + below(rng, 2) {
        let op = comparison(rng);
        tests.push((op, below(rng, 5) as u64))?;
    }
    Ok(tests)
}

/// So many numbers below this one.
fn numbers(alloc: Global, rng: &mut Pcg32, count: u32, bound: u32) -> Result<Sequence<u32>, Fault>
    requires { 0 < bound }
    ensures { IfOk result (λ all. length all ≡ count) }
{
    let mut all = Sequence::new(alloc);
    for number in 0..count {
        all.push(below(rng, bound))?;
    }
    Ok(all)
}

/// As many groups as rules, all of as many fields.
fn groups(alloc: Global, rng: &mut Pcg32, rules: u32) -> Result<Sequence<Sequence<u32>>, Fault> {
    let mut all = Sequence::new(alloc);
    let count = below(rng, 3);
    for _ in 0..rules {
        all.push(numbers(alloc, rng, count, FIELDS)?)?;
    }
    Ok(all)
}

/// From 1 to 8 nanoseconds, or so many seconds.
fn span(rng: &mut Pcg32) -> i128
    ensures positive { pos 1 ≤ℤ result }
    ensures short { result ≤ℤ pos (2 ^ 100) }
{
    let number = below(rng, 8) as i128 + 1;
    if below(rng, 2) == 0 {
        return number;
    }
    number * 1_000_000_000
}

/// A correlation of one to four texts in its list, of which some may stand for one rule.
pub(crate) fn correlation(alloc: Global, rng: &mut Pcg32) -> Result<Bound, Fault>
    ensures { IfOk result IsWithinLimits }
{
    let kind = kind(rng);
    let count = 1 + below(rng, 4);
    let rules = numbers(alloc, rng, count, RULES)?;
    let groups = groups(alloc, rng, count)?;
    let condition = condition(alloc, rng)?;
    let span = span(rng);
    let counted = match kind {
        CorrelationKind::ValueCount => Some(below(rng, FIELDS)),
        _ => None,
    };
    Ok(Bound {
        kind,
        rules,
        groups,
        span,
        condition,
        counted,
    })
}

/// How much later the next event is: mostly not at all, one nanosecond, a timespan or one nanosecond beside it; seldom it's
/// earlier.
fn step(rng: &mut Pcg32, span: i128) -> i128 {
    match below(rng, 16) {
        0 => -1,
        1 => span.saturating_neg(),
        2 => span,
        3 => span.saturating_add(1),
        4 => span.saturating_sub(1),
        5 => span / 2,
        6 => 0,
        7 => 1,
        8 => span / 3,
        9 => span / 5,
        10 => 1_000_000_000,
        _ => 0,
    }
}

/// The next event behind a moment.
pub(crate) fn random_event(
    alloc: Global,
    rng: &mut Pcg32,
    line: u32,
    last: i128,
    span: i128,
) -> Result<Happening, Fault> {
    let moment = last.saturating_add(step(rng, span));
    let mut hits = Vec::new(alloc);
    for _ in 0..RULES {
        hits.push(below(rng, 2) == 0)?;
    }
    let mut values = Vec::new(alloc);
    for _ in 0..FIELDS {
        values.push(below(rng, 9) as i64 % 4 - 1)?;
    }
    Ok(Happening {
        line,
        moment,
        hits,
        values,
    })
}

/// The text of a digit.
pub(crate) fn digit(number: i64) -> &'static str {
    match number {
        0 => "0",
        1 => "1",
        2 => "2",
        _ => "-",
    }
}

/// A field's value: a number in every third field, else a text, sometimes before another one.
fn value(alloc: Global, field: usize, number: i64) -> Result<FieldValues, Fault> {
    if number < 0 {
        return Ok(FieldValues::none());
    }
    if field % 3 == 2 {
        return Ok(FieldValues::one(Value::Whole(number)));
    }
    let text = Value::Text(Text::copy(alloc, digit(number))?);
    if field % 3 == 1 {
        return Ok(FieldValues::one(text));
    }
    let mut values = Vec::new(alloc);
    values.push(text)?;
    values.push(Value::Whole(7))?;
    Ok(FieldValues::from_vec(values))
}

pub(crate) fn event_of(alloc: Global, happening: &Happening) -> Result<Event, Fault> {
    let mut values = Vec::new(alloc);
    for (field, number) in happening.values.iter().enumerate() {
        values.push(value(alloc, field, *number)?)?;
    }
    Ok(Event::new(values, None))
}
