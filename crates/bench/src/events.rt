//! Events: the word `lines` reads the lines of standard input, `json` reads each as a JSON value too, and `events` reads each as an event
//! of a small schema, which finds its values in nested objects after the word `nested`. Written is how many lines there were and how many
//! were read so. `bench/events.py` runs it beside other readers.

use crate::unknown;
use event_lines::LineReader;
use event_read::{read_event, read_schema};
use event_schema::Schema;
use serde_json::Value;
use sig_base::{Fault, Limits, LineFault, LineStep, Source};
use std::alloc::Global;
use std::env::Args;
use std::io;

/// Five texts, two numbers and the time.
const SCHEMA: &str =
    r#"{"fields": [{"name": "Image", "kind": "text"}, {"name": "CommandLine", "kind": "text"},
    {"name": "User", "kind": "text"}, {"name": "ParentImage", "kind": "text"},
    {"name": "Hashes", "kind": "text", "many": true}, {"name": "EventID", "kind": "whole"},
    {"name": "ProcessId", "kind": "whole"}], "time": {"at": ["UtcTime"], "form": "text"}}"#;

/// The same of events whose values stand in objects of objects.
const NESTED: &str =
    r#"{"fields": [{"name": "Image", "kind": "text", "at": ["process", "executable"]}, {"name": "Arguments", "kind": "text", "many": true, "at": ["process", "args"]},
    {"name": "User", "kind": "text", "at": ["winlog", "user", "name"]}, {"name": "ParentImage", "kind": "text", "at": ["process", "parent", "executable"]},
    {"name": "Address", "kind": "address", "many": true, "at": ["host", "ip"]}, {"name": "Sequence", "kind": "whole", "at": ["event", "sequence"]},
    {"name": "ProcessId", "kind": "whole", "at": ["process", "pid"]}], "time": {"at": ["event", "created"], "form": "text"}}"#;

#[derive(Clone, Copy)]
enum Mode {
    Lines,
    Json,
    Events,
}

/// What comes of the lines: how many there are, and how many were read.
#[derive(Drop)]
struct Counts {
    lines: u64,
    read: u64,
}

fn is_read(alloc: Global, mode: Mode, schema: &Schema, number: u32, line: &[u8]) -> bool {
    match mode {
        Mode::Lines => true,
        Mode::Json => Value::from_slice(alloc, line).is_ok(),
        Mode::Events => read_event(alloc, schema, number, line).is_ok(),
    }
}

/// Reads the lines of a source to its end.
fn read_all<S: Source>(
    alloc: Global,
    mode: Mode,
    schema: &Schema,
    source: &mut S,
) -> Result<Counts, LineFault> {
    let Ok(mut reader) = LineReader::new(alloc, &Limits::standard()) else {
        return Err(LineFault::Memory);
    };
    let mut counts = Counts { lines: 0, read: 0 };
    for _line in 0..u32::MAX {
        match reader.next_line(source)? {
            LineStep::Line { number, bytes } => {
                counts.lines = counts.lines.saturating_add(1);
                if is_read(alloc, mode, schema, number, bytes.as_slice()) {
                    counts.read = counts.read.saturating_add(1);
                }
            }
            LineStep::TooLong { .. } => counts.lines = counts.lines.saturating_add(1),
            LineStep::TooMuch { .. } | LineStep::End => return Ok(counts),
        }
    }
    Ok(counts)
}

fn mode_of(word: Option<String>) -> Mode {
    match word {
        Some(word) => match word.as_str() {
            "json" => Mode::Json,
            "events" => Mode::Events,
            _ => Mode::Lines,
        },
        None => Mode::Lines,
    }
}

/// The schema of nested events where the word says so.
fn schema(alloc: Global, word: Option<String>) -> Result<Schema, Fault> {
    let text = match word {
        Some(_) => NESTED,
        None => SCHEMA,
    };
    read_schema(alloc, &Limits::standard(), text.as_bytes())
}

/// What is told of a source, once it's read to its end.
fn line<S: Source>(
    alloc: Global,
    mode: Mode,
    schema: &Schema,
    source: &mut S,
) -> io::Result<String> {
    match read_all(alloc, mode, schema, source) {
        Ok(counts) => Ok(format!(in alloc; "{} lines, {} read", counts.lines, counts.read)?),
        Err(_) => Err(io::Error::from(io::ErrorKind::Other)),
    }
}

pub(crate) fn told<S: Source>(
    alloc: Global,
    words: &mut Args,
    source: &mut S,
) -> io::Result<String> {
    let mode = mode_of(words.next());
    match schema(alloc, words.next()) {
        Ok(schema) => line(alloc, mode, &schema, source),
        Err(_) => Err(unknown()),
    }
}
