//! Answering the lines of the events, one by one.

ghost use Rattle.std.specs.Prelude.{◌≡◌, ◌||◌, [], true, IfOk, string_bytes};
ghost use Rattle.answer_writer.specs.EventLines.{ByLine, EachLine, AnswersWithin, LineGives, StepGives, EventLines, is_blank, is_end, line_diagnostic, line_refused, refused_as};
ghost use Rattle.answer_writer.specs.Input.{Events};
ghost use Rattle.answer_writer.specs.Lines.{ended};
ghost use Rattle.answer_writer.specs.Stands.{Ends, Writes, ToldUnread};
ghost use Rattle.sig_base.specs.Codes.{code_name};

use crate::output::tell_diagnostic;
use crate::outside::Outside;
use crate::stop::Stop;
use event_lines::LineReader;
use sig_base::{Bytes, Code, Limits, LineFault, LineStep};
use std::alloc::{AllocError, Global};

/// A command that answers the lines of the events, one by one.
pub trait LineCommand {
    ghost gives: { Self → ByLine };

    /// What the command keeps from line to line, and its answers rest on.
    ghost keeps: { Self → Type 0 };

    /// Answers a line that isn't blank, of this number, and tells whether it is refused. What lines are answered stays as it is.
    fn answer<W: Outside>(
        &mut self,
        alloc: Global,
        number: u32,
        line: Bytes,
        outside: &mut W,
    ) -> Result<bool, Stop>
        requires { keeps self.old }
        ensures writes { Writes (gives self.old number line) result (W.state outside.old) (W.state outside.new) }
        ensures same { AnswersWithin (gives self.new) (gives self.old) }
        ensures keeps { keeps self.new };

    /// Each line has an answer.
    fn each_line(&self)
        ensures { EachLine (gives self.now) };
}

/// Answers the lines of the events in their order, each wholly before the next is read; tells whether something was refused.
pub fn answer_lines<C: LineCommand, W: Outside>(
    alloc: Global,
    limits: &Limits,
    command: &mut C,
    outside: &mut W,
) -> Result<bool, Stop>
    requires { C.keeps command.old }
    ensures { Ends (record { names = []; events = true }) (EventLines (C.gives command.old) limits.now) result (W.state outside.old) (W.state outside.new) }
{
    command.each_line();
    let Ok(mut reader) = LineReader::new(alloc, limits) else {
        return Err(Stop::Memory);
    };
    let mut refused = false;
    'lines: loop {
        let step = match outside.next_line(&mut reader) {
            Ok(step) => step,
            Err(LineFault::Read) => return Err(tell_unread_events(outside)),
            Err(LineFault::Memory) => return Err(Stop::Memory),
        };
        if ends_events(&step) {
            return Ok(refused);
        }
        match answer_step(alloc, command, step, outside) {
            Ok(found) => refused = either(refused, found),
            Err(stop) => return Err(stop),
        }
    }
}

/// Writes the diagnostic about events that can't be read.
pub(crate) fn tell_unread_events<W: Outside>(outside: &mut W) -> Stop
    ensures told { ToldUnread Events result (W.state outside.old) (W.state outside.new) }
    ensures inputs { (W.state outside.new).inputs ≡ (W.state outside.old).inputs }
    ensures kept { (W.state outside.new).references ≡ (W.state outside.old).references }
{
    match outside.tell(b"sigma: cannot read events\n") {
        Ok(()) => Stop::Unread,
        Err(_) => Stop::Unwritten,
    }
}

pub(crate) fn ends_events(step: &LineStep) -> bool
    ensures { result ≡ is_end step.now }
{
    matches!(step, LineStep::End)
}

/// Whether either of both holds.
pub fn either(first: bool, second: bool) -> bool
    ensures { result ≡ (first || second) }
{
    first || second
}

/// Answers a step through the events.
fn answer_step<C: LineCommand, W: Outside>(
    alloc: Global,
    command: &mut C,
    step: LineStep,
    outside: &mut W,
) -> Result<bool, Stop>
    requires { C.keeps command.old }
    ensures writes { Writes (StepGives (C.gives command.old) step) result (W.state outside.old) (W.state outside.new) }
    ensures same { AnswersWithin (C.gives command.new) (C.gives command.old) }
    ensures keeps { C.keeps command.new }
{
    match step {
        LineStep::Line { number, bytes } => answer_line(alloc, command, number, bytes, outside),
        LineStep::TooLong { number } => {
            tell_line_refusal(alloc, number, Code::LINE_TOO_LONG, outside)
        }
        LineStep::TooMuch { number } => tell_line_refusal(alloc, number, Code::TOO_MUCH, outside),
        LineStep::End => Ok(false),
    }
}

/// Answers a line, unless it is blank.
fn answer_line<C: LineCommand, W: Outside>(
    alloc: Global,
    command: &mut C,
    number: u32,
    line: Bytes,
    outside: &mut W,
) -> Result<bool, Stop>
    requires { C.keeps command.old }
    ensures writes { Writes (LineGives (C.gives command.old) number line) result (W.state outside.old) (W.state outside.new) }
    ensures same { AnswersWithin (C.gives command.new) (C.gives command.old) }
    ensures keeps { C.keeps command.new }
{
    if is_blank_line(line.as_slice()) {
        return Ok(false);
    }
    command.answer(alloc, number, line, outside)
}

pub(crate) fn is_blank_line(line: &[u8]) -> bool
    ensures { result ≡ is_blank line.now }
{
    line.iter()
        .all(|byte| *byte == b' ' || *byte == b'\t' || *byte == b'\r')
}

/// Writes the diagnostic about a line of the events that is refused, and tells that it is.
pub fn tell_line_refusal<W: Outside>(
    alloc: Global,
    number: u32,
    code: Code,
    outside: &mut W,
) -> Result<bool, Stop>
    ensures { Writes (λ share. share ≡ line_refused number code) result (W.state outside.old) (W.state outside.new) }
{
    match line_refusal_text(alloc, number, code) {
        Ok(line) => tell_diagnostic(line.as_bytes(), outside),
        Err(_) => Err(Stop::Memory),
    }
}

/// The diagnostic about a line of the events that is refused, with its line feed.
fn line_refusal_text(alloc: Global, number: u32, code: Code) -> Result<String, AllocError>
    ensures { IfOk result (λ line. string_bytes line ≡ ended (line_diagnostic number code)) }
{
    line_text(alloc, number, code.number(), code.name())
}

fn line_text(alloc: Global, line: u32, number: u16, cause: &str) -> Result<String, AllocError>
    ensures { IfOk result (λ text. string_bytes text ≡ ended (refused_as line number cause.now)) }
{
    format!(in alloc; "events:{line}: {number} {cause}\n")
}
