//! Answering the lines of the events, one by one, by what the lines before them were.

ghost use Rattle.std.specs.Prelude.{◌≡◌, [], true, OnOk};
ghost use Rattle.answer_writer.specs.FollowedLines.{ByHistory, EachFollows, FollowsWithin, StepFollows, UnlessBlankFollows, FollowedLines};
ghost use Rattle.answer_writer.specs.EventLines.{is_blank};
ghost use Rattle.answer_writer.specs.Stands.{Ends, Writes};

use crate::events::{either, ends_events, is_blank_line, tell_line_refusal, tell_unread_events};
use crate::outside::Outside;
use crate::stop::Stop;
use event_lines::LineReader;
use sig_base::{Bytes, Code, Limits, LineFault, LineStep};
use std::alloc::Global;

/// A command that answers the lines of the events, one by one, by what the lines before them were.
pub trait LineFollower {
    /// What the lines so far were.
    ghost History: { Type 0 };

    /// What a line is answered behind a history, and the history behind it.
    ghost follows: { Self → ByHistory History };

    /// The command stands for this history.
    ghost stands: { Self → History → Type 0 };

    /// What the command keeps from line to line, and its answers rest on.
    ghost keeps: { Self → Type 0 };

    /// What stays of the command, whatever lines it answers.
    ghost Fixed: { Type 0 };

    ghost fixed: { Self → Fixed };

    /// Answers a line that isn't blank, of this number, and tells whether it is refused. What lines are answered stays as it is.
    fn answer<W: Outside>(
        &mut self,
        alloc: Global,
        number: u32,
        line: Bytes,
        outside: &mut W,
    ) -> Result<bool, Stop>
        requires { keeps self.old }
        ensures writes { (history : History) → stands self.old history
            → Writes (λ share. (after : History) × follows self.old history number line share after × OnOk result (stands self.new after)) result (W.state outside.old) (W.state outside.new) }
        ensures same { FollowsWithin (follows self.new) (follows self.old) }
        ensures fixed { fixed self.new ≡ fixed self.old }
        ensures keeps { keeps self.new };

    /// Behind each history each line has an answer, and a history behind it.
    fn each_line(&self)
        ensures { EachFollows (follows self.now) };
}

/// Answers the lines of the events in their order, each wholly before the next is read; tells whether something was refused. After
/// `Ok` the command stands for the history behind all of them.
pub fn follow_lines<C: LineFollower, W: Outside>(
    alloc: Global,
    limits: &Limits,
    command: &mut C,
    outside: &mut W,
) -> Result<bool, Stop>
    requires { C.keeps command.old }
    ensures ends { (start : C.History) → C.stands command.old start
        → Ends (record { names = []; events = true }) (λ world parts. (after : C.History) × FollowedLines (C.follows command.old) limits.now start world parts after × OnOk result (C.stands command.new after))
        result (W.state outside.old) (W.state outside.new) }
    ensures same { FollowsWithin (C.follows command.new) (C.follows command.old) }
    ensures fixed { C.fixed command.new ≡ C.fixed command.old }
    ensures keeps { C.keeps command.new }
{
    command.each_line();
    let Ok(mut reader) = LineReader::new(alloc, limits) else {
        return Err(Stop::Memory);
    };
    let mut refused = false;
    'lines: loop {
        let step = match outside.next_line(&mut reader) {
            Ok(step) => step,
            Err(LineFault::Read) => return Err(tell_unread_events(outside)),
            Err(LineFault::Memory) => return Err(Stop::Memory),
        };
        if ends_events(&step) {
            return Ok(refused);
        }
        match follow_step(alloc, command, step, outside) {
            Ok(found) => refused = either(refused, found),
            Err(stop) => return Err(stop),
        }
    }
}

/// Answers a step through the events.
fn follow_step<C: LineFollower, W: Outside>(
    alloc: Global,
    command: &mut C,
    step: LineStep,
    outside: &mut W,
) -> Result<bool, Stop>
    requires { C.keeps command.old }
    ensures writes { (history : C.History) → C.stands command.old history
        → Writes (λ share. (after : C.History) × StepFollows (C.follows command.old) history step share after × OnOk result (C.stands command.new after)) result (W.state outside.old) (W.state outside.new) }
    ensures same { FollowsWithin (C.follows command.new) (C.follows command.old) }
    ensures fixed { C.fixed command.new ≡ C.fixed command.old }
    ensures keeps { C.keeps command.new }
{
    match step {
        LineStep::Line { number, bytes } => follow_line(alloc, command, number, bytes, outside),
        LineStep::TooLong { number } => {
            tell_line_refusal(alloc, number, Code::LINE_TOO_LONG, outside)
        }
        LineStep::TooMuch { number } => tell_line_refusal(alloc, number, Code::TOO_MUCH, outside),
        LineStep::End => Ok(false),
    }
}

/// Answers a line, unless it is blank.
fn follow_line<C: LineFollower, W: Outside>(
    alloc: Global,
    command: &mut C,
    number: u32,
    line: Bytes,
    outside: &mut W,
) -> Result<bool, Stop>
    requires { C.keeps command.old }
    ensures writes { (history : C.History) → C.stands command.old history
        → Writes (λ share. (after : C.History) × UnlessBlankFollows (is_blank line) (C.follows command.old history number line) history share after × OnOk result (C.stands command.new after)) result (W.state outside.old) (W.state outside.new) }
    ensures same { FollowsWithin (C.follows command.new) (C.follows command.old) }
    ensures fixed { C.fixed command.new ≡ C.fixed command.old }
    ensures keeps { C.keeps command.new }
{
    if is_blank_line(line.as_slice()) {
        return Ok(false);
    }
    command.answer(alloc, number, line, outside)
}
