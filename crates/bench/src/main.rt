//! Shows how long parts of the program take, with a clock around it. The first word is the part, `matching`, `sql`, `lucene`, `events`,
//! `correlation` or `load`, or `agree`, which compares the engine of correlations with plain windows; what the words behind it are tells the
//! part's module. The word `small` makes a small run of each; the words behind it are those of `events`.
#![tactic(auto)]

use sig_base::{Fault, Source};
use std::alloc::Global;
use std::env::Args;
use std::{env, io};
use system_io::InputSource;

mod agreement;
mod events;
mod histories;
mod load;
mod lucene;
mod patterns;
mod plain;
mod random;
mod sql;

/// The error for words that ask for nothing.
fn unknown() -> io::Error {
    io::Error::from(io::ErrorKind::InvalidInput)
}

fn no_memory() -> io::Error {
    io::Error::from(io::ErrorKind::OutOfMemory)
}

/// The number that a word is, if it's one.
fn number(word: Option<String>) -> Option<usize> {
    word?.as_str().parse::<usize>().ok()
}

/// The number below 2^32 that a word is, if it's one.
fn small_number(word: Option<String>) -> Option<u32> {
    word?.as_str().parse::<u32>().ok()
}

/// Where a query is refused and the number of the code, or that memory was wanted or the query is too long.
fn shown(alloc: Global, fault: &Fault) -> io::Result<String> {
    match fault {
        Fault::Memory => Ok(String::from_str(
            alloc,
            "no memory, or more bytes than a query may have",
        )?),
        Fault::Refused(refusal) => {
            let code = refusal.code.number();
            let place = refusal.place;
            Ok(format!(in alloc; "{}:{}: {code}", place.line, place.column)?)
        }
    }
}

/// A line of each part at a small size, and of the comparison; events by the words and of the source.
fn small<S: Source>(alloc: Global, words: &mut Args, source: &mut S) -> io::Result<String> {
    let matching = patterns::line(alloc, true, 40, 600)?;
    let sql = sql::line(alloc, "SELECT*FROM\"t\"WHERE", "(", 1000, "1", ")")?;
    let lucene = lucene::line(alloc, "(", 1001, 3)?;
    let events = events::told(alloc, words, source)?;
    let correlation = load::line(alloc, 1000, 3, 60)?;
    let sliding = load::sliding(alloc)?;
    let agreement = agreement::line(alloc, 2000)?;
    Ok(format!(in alloc;
        "{}\n{}\n{}\n{}\n{}\n{}\n{}",
        matching.as_str(),
        sql.as_str(),
        lucene.as_str(),
        events.as_str(),
        correlation.as_str(),
        sliding.as_str(),
        agreement.as_str()
    )?)
}

fn told<S: Source>(alloc: Global, words: &mut Args, source: &mut S) -> io::Result<String> {
    let Some(part) = words.next() else {
        return Err(unknown());
    };
    match part.as_str() {
        "small" => small(alloc, words, source),
        "matching" => patterns::told(alloc, words),
        "sql" => sql::told(alloc, words),
        "lucene" => lucene::told(alloc, words),
        "events" => events::told(alloc, words, source),
        "correlation" => load::told(alloc, words),
        "load" => load::told_by_shape(alloc, words),
        "agree" => agreement::told(alloc, words),
        _ => Err(unknown()),
    }
}

fn main(rt: HostRuntime) -> io::Result<()> {
    let mut words = env::args(&rt)?;
    let _program = words.next();
    let line = told(rt.alloc(), &mut words, &mut InputSource::new(rt.reader()))?;
    println!(rt; "{}", line.as_str())
}
