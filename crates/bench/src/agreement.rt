//! The engine's answers beside those of plain windows. The word `HISTORIES` is how many random histories of events there are, with
//! correlations of all four types; each answer is compared with that of plain windows over all events before, which share no code with the
//! engine.

ghost use Rattle.std.specs.Prelude.{◌≡◌, ◌<◌, ◌≤◌, length, IfOk};
ghost use Rattle.std.specs.List.{AllByRecursion};
ghost use Rattle.event_schema.specs.Occurrence.{IsMoment};
ghost use Rattle.correlation_engine.specs.Limits.{IsWithinLimits};

use crate::histories::{Happening, correlation, digit, event_of, random_event};
use crate::plain::{self, Told};
use crate::random::below;
use crate::{no_memory, small_number, unknown};
use correlation_engine::{Arrival, Engine, TakeFault};
use correlation_windows::{Bound, Report};
use rand_pcg::Pcg32;
use sig_base::{Fault, Text};
use std::alloc::Global;
use std::env::Args;
use std::io;

/// What came of the histories.
#[derive(Drop)]
struct Found {
    agreed: u32,
    events: u64,
    refused: u64,
    reports: u64,
}

/// What the engine answers to an event.
#[derive(Drop)]
enum Answer {
    Reports(Vec<Report>),
    Early { moment: i128, last: i128 },
}

/// An engine, its correlations, and the events that it took.
#[derive(Drop)]
struct Trial {
    engine: Engine,
    bounds: Vec<Bound>,
    events: Vec<Happening>,
    last: Option<i128>,
}

/// The greatest distance of a moment from 1970.
const FAR: i128 = 1 << 90;

fn within(moment: i128) -> i128
    ensures { IsMoment result }
{
    if moment > FAR {
        return FAR;
    }
    if moment < -FAR {
        return -FAR;
    }
    moment
}

fn correlations(alloc: Global, rng: &mut Pcg32, count: u32) -> Result<Vec<Bound>, Fault>
    ensures limits { IfOk result (λ bounds. AllByRecursion IsWithinLimits bounds.items) }
    ensures count { IfOk result (λ bounds. length bounds.items ≡ count) }
{
    let mut bounds = Vec::new(alloc);
    for number in 0..count {
        let bound = correlation(alloc, rng)?;
        bounds.push(bound)?;
    }
    Ok(bounds)
}

/// The engine of one to three correlations, which are made twice from one seed.
fn start(alloc: Global, seed: u64, rng: &mut Pcg32) -> Result<Trial, Fault> {
    let count = 1 + below(rng, 3);
    let mut again = Pcg32::new(seed, 2);
    let bounds = correlations(alloc, &mut again, count)?;
    let mut again = Pcg32::new(seed, 2);
    let engine = Engine::make(alloc, correlations(alloc, &mut again, count)?)?;
    Ok(Trial {
        engine,
        bounds,
        events: Vec::new(alloc),
        last: None,
    })
}

fn ask(alloc: Global, engine: &mut Engine, next: &Happening) -> Result<Answer, Fault> {
    let event = event_of(alloc, next)?;
    let arrival = Arrival {
        line: next.line,
        moment: within(next.moment),
        hits: next.hits.as_slice(),
        event: &event,
    };
    match engine.take(&arrival) {
        Ok(reports) => Ok(Answer::Reports(reports)),
        Err(TakeFault::OutOfOrder { moment, last }) => Ok(Answer::Early { moment, last }),
        Err(TakeFault::Memory) => Err(Fault::Memory),
    }
}

fn same_group(texts: &[Text], group: &[i64]) -> bool {
    if texts.len() != group.len() {
        return false;
    }
    for (place, text) in texts.iter().enumerate() {
        if let Some(number) = group.get(place) {
            if text.as_str() != digit(*number) {
                return false;
            }
        }
    }
    true
}

fn is_same(report: &Report, told: &Told) -> bool {
    report.correlation as usize == told.correlation
        && report.line == told.line
        && report.from == told.from
        && report.count == told.count
        && same_group(report.group.as_slice(), told.group.as_slice())
}

fn are_same(reports: &[Report], told: &[Told]) -> bool {
    if reports.len() != told.len() {
        return false;
    }
    for (place, report) in reports.iter().enumerate() {
        if let Some(told) = told.get(place) {
            if !is_same(report, told) {
                return false;
            }
        }
    }
    true
}

/// Whether an event has to be refused.
fn is_early(last: Option<i128>, moment: i128) -> bool {
    match last {
        Some(last) => moment < last,
        None => false,
    }
}

/// Whether these are the right moments of an event that is refused.
fn is_told(trial: &Trial, next: &Happening, moment: i128, last: i128) -> bool {
    match trial.last {
        Some(before) => moment == next.moment && last == before,
        None => false,
    }
}

/// Whether as many matches are held as there have to be.
fn holds_right(alloc: Global, trial: &Trial) -> Result<bool, Fault> {
    let Some(last) = trial.last else {
        return Ok(trial.engine.held() == 0);
    };
    let held = plain::held(
        alloc,
        trial.bounds.as_slice(),
        trial.events.as_slice(),
        last,
    )?;
    Ok(trial.engine.held() == held)
}

/// Whether the engine answers an event as plain windows do.
fn agrees(
    alloc: Global,
    trial: &mut Trial,
    next: &Happening,
    found: &mut Found,
) -> Result<bool, Fault> {
    match ask(alloc, &mut trial.engine, next)? {
        Answer::Reports(reports) => {
            found.events = found.events.saturating_add(1);
            found.reports = found.reports.saturating_add(reports.len() as u64);
            let told = plain::all_told(
                alloc,
                trial.bounds.as_slice(),
                trial.events.as_slice(),
                next,
            )?;
            Ok(!is_early(trial.last, next.moment) && are_same(&reports, &told))
        }
        Answer::Early { moment, last } => {
            found.refused = found.refused.saturating_add(1);
            Ok(is_early(trial.last, next.moment) && is_told(trial, next, moment, last))
        }
    }
}

/// Goes on by an event, if it isn't refused.
fn note(trial: &mut Trial, next: Happening) -> Result<(), Fault> {
    if is_early(trial.last, next.moment) {
        return Ok(());
    }
    trial.last = Some(next.moment);
    trial.events.push(next)?;
    Ok(())
}

/// The timespan of one of the correlations.
fn span_of(bounds: &[Bound], number: u32) -> i128 {
    match bounds.get(number as usize) {
        Some(bound) => bound.span,
        None => 1,
    }
}

fn last_of(trial: &Trial) -> i128 {
    match trial.last {
        Some(last) => last,
        None => -3,
    }
}

/// Whether the engine answers the next random event as plain windows do, and holds as many matches.
fn goes_on(
    alloc: Global,
    trial: &mut Trial,
    rng: &mut Pcg32,
    line: u32,
    found: &mut Found,
) -> Result<bool, Fault> {
    let span = span_of(trial.bounds.as_slice(), below(rng, 3));
    let next = random_event(alloc, rng, line, last_of(trial), span)?;
    let same = agrees(alloc, trial, &next, found)?;
    note(trial, next)?;
    Ok(same & holds_right(alloc, trial)?)
}

fn compare(alloc: Global, seed: u64, found: &mut Found) -> Result<bool, Fault> {
    let mut rng = Pcg32::new(seed, 1);
    let mut trial = start(alloc, seed, &mut rng)?;
    let mut same = true;
    let lines = 8 + below(&mut rng, 40);
    for line in 0..lines {
        same = same & goes_on(alloc, &mut trial, &mut rng, line + 1, found)?;
    }
    Ok(same)
}

/// Compares so many histories.
fn compare_all(alloc: Global, histories: u32) -> Result<Found, Fault> {
    let mut found = Found {
        agreed: 0,
        events: 0,
        refused: 0,
        reports: 0,
    };
    for seed in 0..histories {
        if compare(alloc, seed as u64, &mut found)? {
            found.agreed = found.agreed.saturating_add(1);
        }
    }
    Ok(found)
}

pub(crate) fn line(alloc: Global, histories: u32) -> io::Result<String> {
    match compare_all(alloc, histories) {
        Ok(found) => Ok(format!(in alloc;
            "{} of {histories} histories agree, {} events, {} refused, {} reports",
            found.agreed, found.events, found.refused, found.reports
        )?),
        Err(_) => Err(no_memory()),
    }
}

pub(crate) fn told(alloc: Global, words: &mut Args) -> io::Result<String> {
    match small_number(words.next()) {
        Some(histories) => line(alloc, histories),
        None => Err(unknown()),
    }
}
