//! Lines of small inputs, followed over one source after another and sinks in memory.

ghost use Rattle.std.specs.Prelude.{◌≡◌, ◌⊎◌, ℕ, Option, slice_get};
ghost use Rattle.answer_writer.specs.EventLines.{line_refused};
ghost use Rattle.answer_writer.specs.Lines.{ended};
ghost use Rattle.answer_writer.specs.Parts.{no_share, text_share};

use super::ends::{ending, shown};
use super::signs::{columns, written};
use crate::telling::assert_told;
use answer_writer::{Lent, LineFollower, Outside, Stop, follow_lines, put_line, tell_line_refusal};
use sig_base::{Bytes, Code, Limits};
use std::alloc::Global;
use std::test::Fail;
use system_io::{MemoryShelf, MemorySink, MemorySource};

/// Selects the lines that begin otherwise than the last one that was selected, and refuses those that begin with `!`.
#[derive(Drop)]
struct Turns {
    last: Option<u8>,
}

impl LineFollower for Turns {
    ghost History = { Option ℕ };

    ghost follows = { λ t history number line share after.
        ((share ≡ text_share (ended line)) × (after ≡ slice_get line 0))
        ⊎ (((share ≡ line_refused number 25) × (after ≡ history)) ⊎ ((share ≡ no_share) × (after ≡ history))) };

    ghost stands = { λ t history. t.last ≡ history };

    ghost keeps = { λ t. Unit {0} };

    ghost Fixed = { Unit {0} };

    ghost fixed = { λ t. tt };

    fn answer<W: Outside>(
        &mut self,
        alloc: Global,
        number: u32,
        line: Bytes,
        outside: &mut W,
    ) -> Result<bool, Stop> {
        let first = first_of(line.as_slice());
        if first == Some(b'!') {
            return tell_line_refusal(alloc, number, Code::EVENT_JSON, outside);
        }
        if first == self.last {
            return Ok(false);
        }
        self.last = first;
        put_line(line.into_vec(), outside)
    }

    fn each_line(&self) {}
}

/// A number that stands in a row.
fn number(text: &str) -> Result<u64, Fail> {
    match text.parse::<u64>() {
        Ok(number) => Ok(number),
        Err(_) => Err(Fail::new("no number")),
    }
}

fn sink_of(alloc: Global) -> Result<MemorySink, Fail> {
    Ok(MemorySink::new(alloc, 4096, 4096, Vec::new(alloc))?)
}

fn first_of(line: &[u8]) -> Option<u8>
    ensures { result ≡ slice_get line.now 0 }
{
    line.first().copied()
}

/// How following ended, what stands on the output and what on the error output, with `|` between.
fn told(
    alloc: Global,
    limits: &Limits,
    command: &mut Turns,
    text: &str,
    read: usize,
    unread: u64,
) -> Result<String, Fail> {
    let mut failing = Vec::new(alloc);
    failing.push(unread)?;
    let mut shelf = MemoryShelf::new(alloc, Vec::new(alloc), Vec::new(alloc));
    let mut events = MemorySource::new(Bytes::copy(alloc, text.as_bytes())?, read.max(1), failing);
    let mut out = sink_of(alloc)?;
    let mut err = sink_of(alloc)?;
    let mut outside = Lent {
        shelf: &mut shelf,
        events: &mut events,
        out: &mut out,
        err: &mut err,
    };
    let result = follow_lines(alloc, limits, command, &mut outside);
    shown(alloc, ending(result), out.taken(), err.taken())
}

/// What is told of a row's events, which are written with signs.
fn row_told(
    alloc: Global,
    limits: &Limits,
    command: &mut Turns,
    events: &str,
    read: u64,
    unread: u64,
) -> Result<String, Fail> {
    let events = written(alloc, events)?;
    told(
        alloc,
        limits,
        command,
        events.as_str(),
        read as usize,
        unread,
    )
}

/// The first row, `bytes of a read~which read fails~events~what is told`, that is told otherwise. The command keeps its history from row to
/// row.
fn wrong_row(alloc: Global, limits: &Limits, table: &str) -> Result<String, Fail> {
    let mut command = Turns { last: None };
    for row in table.lines() {
        let Some((read, unread, rest)) = columns(row) else {
            return Ok(format!(in alloc; "no row: {row}")?);
        };
        let Some((events, want)) = rest.split_once('~') else {
            return Ok(format!(in alloc; "no row: {row}")?);
        };
        let read = number(read)?;
        let unread = number(unread)?;
        let want = written(alloc, want)?;
        let got = row_told(alloc, limits, &mut command, events, read, unread)?;
        if got.as_str() != want.as_str() {
            return Ok(String::from_str(alloc, row)?);
        }
    }
    Ok(String::new(alloc))
}

/// The command keeps its history from one source of events to the next.
const IN_TURN: &str = "3~0~+a¶-b¶~done|+a¶-b¶|
3~0~-c¶+d¶~done|+d¶|
3~2~-e¶+f¶~unread|-e¶|sigma: cannot read events¶
3~0~-g¶+h¶~done|+h¶|
3~0~!x¶+k¶-m¶~found|-m¶|events:1: 25 EventJson¶";

#[test]
fn the_history_stays(rt: HostRuntime) -> Result<(), Fail> {
    assert_told(&rt, wrong_row(rt.alloc(), &Limits::standard(), IN_TURN), "")
}
