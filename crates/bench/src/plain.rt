//! Windows by their words alone: over all events that were taken, each time anew.

use crate::histories::Happening;
use correlation_windows::{Bound, CorrelationKind, Op};
use sig_base::Fault;
use std::alloc::Global;

/// An event together with a listed rule that it matches.
#[derive(Drop)]
struct Meeting {
    line: u32,
    moment: i128,
    place: usize,
    group: Vec<i64>,
    counted: i64,
}

/// What has to be reported of a match.
#[derive(Drop)]
pub(crate) struct Told {
    pub correlation: usize,
    pub line: u32,
    pub from: u32,
    pub count: u64,
    pub group: Vec<i64>,
}

fn value_at(happening: &Happening, field: u32) -> i64 {
    match happening.values.get(field as usize) {
        Some(value) => *value,
        None => -1,
    }
}

/// The values of these fields, up to one that has none.
fn values_at(alloc: Global, happening: &Happening, fields: &[u32]) -> Result<Vec<i64>, Fault> {
    let mut values = Vec::new(alloc);
    for field in fields {
        let value = value_at(happening, *field);
        if value < 0 {
            return Ok(values);
        }
        values.push(value)?;
    }
    Ok(values)
}

fn is_hit(happening: &Happening, rule: u32) -> bool {
    match happening.hits.get(rule as usize) {
        Some(hit) => *hit,
        None => false,
    }
}

fn counted_at(bound: &Bound, happening: &Happening) -> i64 {
    match bound.counted {
        Some(field) => value_at(happening, field),
        None => -1,
    }
}

/// Adds the match of an event with the rule at this place, if it has one and a value in each field of the group.
fn add_meeting(
    alloc: Global,
    bound: &Bound,
    happening: &Happening,
    place: usize,
    rule: u32,
    all: &mut Vec<Meeting>,
) -> Result<(), Fault> {
    let Some(fields) = bound.groups.as_slice().get(place) else {
        return Ok(());
    };
    let group = values_at(alloc, happening, fields.as_slice())?;
    if !is_hit(happening, rule) || group.len() < fields.as_slice().len() {
        return Ok(());
    }
    all.push(Meeting {
        line: happening.line,
        moment: happening.moment,
        place,
        group,
        counted: counted_at(bound, happening),
    })?;
    Ok(())
}

fn add_meetings(
    alloc: Global,
    bound: &Bound,
    happening: &Happening,
    all: &mut Vec<Meeting>,
) -> Result<(), Fault> {
    for (place, rule) in bound.rules.as_slice().iter().enumerate() {
        add_meeting(alloc, bound, happening, place, *rule, all)?;
    }
    Ok(())
}

fn meetings(alloc: Global, bound: &Bound, events: &[Happening]) -> Result<Vec<Meeting>, Fault> {
    let mut all = Vec::new(alloc);
    for happening in events {
        add_meetings(alloc, bound, happening, &mut all)?;
    }
    Ok(all)
}

fn reaches(span: i128, this: &Meeting, other: &Meeting) -> bool {
    this.moment.saturating_sub(span) < other.moment
        && other.moment <= this.moment
        && this.group.as_slice() == other.group.as_slice()
}

fn window_of<'m>(
    alloc: Global,
    span: i128,
    up_to: &'m [Meeting],
    this: &Meeting,
) -> Result<Vec<&'m Meeting>, Fault> {
    let mut window = Vec::new(alloc);
    for other in up_to {
        if reaches(span, this, other) {
            window.push(other)?;
        }
    }
    Ok(window)
}

/// Whether a value was counted in one of these already.
fn is_counted(window: &[&Meeting], value: i64) -> bool {
    for found in window {
        if found.counted == value {
            return true;
        }
    }
    false
}

fn different(window: &[&Meeting]) -> u64 {
    let mut count: u64 = 0;
    for (place, found) in window.iter().enumerate() {
        if found.counted >= 0 && !is_counted(window.split_at(place).0, found.counted) {
            count = count.saturating_add(1);
        }
    }
    count
}

fn holds(op: Op, number: u64, bound: u64) -> bool {
    match op {
        Op::Lt => number < bound,
        Op::Lte => number <= bound,
        Op::Gt => number > bound,
        Op::Gte => number >= bound,
        Op::Eq => number == bound,
    }
}

fn all_hold(tests: &[(Op, u64)], number: u64) -> bool {
    for test in tests {
        if !holds(test.0, number, test.1) {
            return false;
        }
    }
    true
}

fn is_met(window: &[&Meeting], place: usize) -> bool {
    for found in window {
        if found.place == place {
            return true;
        }
    }
    false
}

fn are_met(window: &[&Meeting], rules: usize) -> bool {
    for place in 0..rules {
        if !is_met(window, place) {
            return false;
        }
    }
    true
}

/// For each match whether it's one with the first rule.
fn begins(alloc: Global, window: &[&Meeting]) -> Result<Vec<bool>, Fault> {
    let mut all = Vec::new(alloc);
    for found in window {
        all.push(found.place == 0)?;
    }
    Ok(all)
}

/// For each match whether it's one with the rule at this place, and some match before it is marked.
fn goes_on(
    alloc: Global,
    window: &[&Meeting],
    place: usize,
    marked: &[bool],
) -> Result<Vec<bool>, Fault> {
    let mut all = Vec::new(alloc);
    let mut before = false;
    for (at, found) in window.iter().enumerate() {
        all.push(found.place == place && before)?;
        before = before | is_marked(marked, at);
    }
    Ok(all)
}

fn is_marked(marked: &[bool], at: usize) -> bool {
    match marked.get(at) {
        Some(mark) => *mark,
        None => false,
    }
}

/// Whether some matches meet the rules in their order, the window's last match the last rule.
fn are_met_in_order(alloc: Global, window: &[&Meeting], rules: usize) -> Result<bool, Fault> {
    let mut marked = begins(alloc, window)?;
    for place in 1..rules {
        marked = goes_on(alloc, window, place, marked.as_slice())?;
    }
    match marked.last() {
        Some(mark) => Ok(*mark),
        None => Ok(false),
    }
}

fn number_in(bound: &Bound, window: &[&Meeting]) -> u64 {
    match bound.kind {
        CorrelationKind::ValueCount => different(window),
        _ => window.len() as u64,
    }
}

fn fires(alloc: Global, bound: &Bound, window: &[&Meeting], number: u64) -> Result<bool, Fault> {
    let rules = bound.rules.as_slice().len();
    match bound.kind {
        CorrelationKind::Temporal => Ok(are_met(window, rules)),
        CorrelationKind::TemporalOrdered => are_met_in_order(alloc, window, rules),
        _ => Ok(all_hold(bound.condition.as_slice(), number)),
    }
}

fn first_line(window: &[&Meeting]) -> u32 {
    match window.first() {
        Some(found) => found.line,
        None => 0,
    }
}

/// Adds what has to be reported of a match, which stands last of these.
fn add_told(
    alloc: Global,
    correlation: usize,
    bound: &Bound,
    up_to: &[Meeting],
    this: &Meeting,
    all: &mut Vec<Told>,
) -> Result<(), Fault> {
    let window = window_of(alloc, bound.span, up_to, this)?;
    let count = number_in(bound, &window);
    if !fires(alloc, bound, &window, count)? {
        return Ok(());
    }
    all.push(Told {
        correlation,
        line: this.line,
        from: first_line(&window),
        count,
        group: Vec::from_slice(alloc, this.group.as_slice())?,
    })?;
    Ok(())
}

fn add_all_told(
    alloc: Global,
    correlation: usize,
    bound: &Bound,
    events: &[Happening],
    next: &Happening,
    all: &mut Vec<Told>,
) -> Result<(), Fault> {
    let mut found = meetings(alloc, bound, events)?;
    let before = found.len();
    add_meetings(alloc, bound, next, &mut found)?;
    for at in before..found.len() {
        add_told(
            alloc,
            correlation,
            bound,
            found.as_slice().split_at(at + 1).0,
            &found[at],
            all,
        )?;
    }
    Ok(())
}

/// What has to be reported of the next event behind these.
pub(crate) fn all_told(
    alloc: Global,
    bounds: &[Bound],
    events: &[Happening],
    next: &Happening,
) -> Result<Vec<Told>, Fault> {
    let mut all = Vec::new(alloc);
    for (number, bound) in bounds.iter().enumerate() {
        add_all_told(alloc, number, bound, events, next, &mut all)?;
    }
    Ok(all)
}

fn count_recent(found: &[Meeting], after: i128) -> u64 {
    let mut count: u64 = 0;
    for meeting in found {
        if meeting.moment > after {
            count = count.saturating_add(1);
        }
    }
    count
}

/// How many matches of these events are later than a timespan before the last one, for all correlations together.
pub(crate) fn held(
    alloc: Global,
    bounds: &[Bound],
    events: &[Happening],
    last: i128,
) -> Result<u64, Fault> {
    let mut count: u64 = 0;
    for bound in bounds {
        let found = meetings(alloc, bound, events)?;
        let recent = count_recent(found.as_slice(), last.saturating_sub(bound.span));
        count = count.saturating_add(recent);
    }
    Ok(count)
}
