//! Lines of a source.

ghost use Rattle.std.specs.Prelude.{◌≡◌, ◌≤◌, ◌<◌, ◌+◌, [], false, true, length, take, ◌++◌, IfOk, IfErr, OnErr, OnOk, is_some, vec_len, ◌==◌, ◌∷◌, ◌^◌, drop, List, ℕ, Ok};
ghost use Rattle.std.specs.List.{position};
ghost use Rattle.std.specs.Io.KnownBytes.{Keeps, IsAtEnd};
ghost use Rattle.sig_base.specs.Causes.{HasCause};
ghost use Rattle.event_lines.specs.Lines.{line_step, lines_of};
ghost use Rattle.event_lines.specs.Reading.{coming, has_feed, IsNext, IsPassed, IsOver, IsLine, HasLineCause};
ghost use Rattle.event_lines.specs.Steps.{TakesPiece, Moves, end_step};

use crate::buffer::Buffer;
use crate::piece::Piece;
use sig_base::{Bytes, Failed, Fault, Limits, LineFault, LineStep, Source};
use std::alloc::{AllocError, Global};
use std::marker::Model;

/// Gives the lines of a source, within limits. After an answer that ends it, it reads nothing more.
#[derive(Drop)]
pub struct LineReader {
    alloc: Global,
    buffer: Buffer,
    line_bytes: usize,
    room: usize,
    number: u32,
    ended: bool,
}

impl Model for LineReader {
    ghost use Rattle.std.specs.Prelude.{◌≤◌, ◌+◌, ◌^◌};
    ghost use Rattle.event_lines.specs.Reading.{Reading};

    ghost Value = { Reading };

    ghost view = { λ r. record { ahead = r.buffer; room = r.room; number = r.number; line_bytes = r.line_bytes; ended = r.ended } };

    ghost invariant = { λ r. (r.number + r.room ≤ 2 ^ 28 + 1) × (r.line_bytes ≤ 65536) };
}

/// Adds a piece to a line, of which no more is kept than shows that it's too long.
fn keep(line: &mut Vec<u8>, piece: &[u8], most: usize) -> Result<(), AllocError>
    requires most { most ≤ 65536 }
    requires kept { vec_len line.now ≤ most + 1 }
    ensures { OnOk result (line.new.items ≡ take (most + 1) (line.old.items ++ piece.now)) }
{
    let count = piece.len().min(most + 1 - line.len());
    line.extend_from_slice(piece.split_at(count).0)
}

fn first_feed(bytes: &[u8]) -> Option<usize>
    ensures { result ≡ position (λ b. b == 10) bytes.now }
{
    bytes.iter().position(|b| *b == b'\n')
}

/// Where the first line feed stands, or how many bytes there are.
fn feed_at(bytes: &[u8]) -> usize
    ensures within { result ≤ length bytes.now }
    ensures front { has_feed (take result bytes.now) ≡ false }
    ensures feed { result < length bytes.now → bytes.now ≡ take result bytes.now ++ 10 ∷ drop (result + 1) bytes.now }
{
    match first_feed(bytes) {
        Some(at) => at,
        None => bytes.len(),
    }
}

impl LineReader {
    /// A reader at a source's first line; only want of memory is answered.
    pub fn new(alloc: Global, limits: &Limits) -> Result<LineReader, Fault>
        ensures ok { IfOk result (λ r. r ≡ record { ahead = []; room = limits.now.events_bytes; number = 1; line_bytes = limits.now.line_bytes; ended = false }) }
        ensures lines { IfOk result (λ r. (left : List ℕ) → coming r left ≡ lines_of limits.now left) }
        ensures err { IfErr result (λ e. e ≡ Fault.Memory) }
    {
        Ok(LineReader {
            alloc,
            buffer: Buffer::new(alloc)?,
            line_bytes: limits.line_bytes,
            room: limits.events_bytes,
            number: 1,
            ended: false,
        })
    }

    /// Sees that bytes are ahead, unless the source is at its end.
    fn fill<S: Source>(&mut self, source: &mut S) -> Result<bool, Failed>
        ensures bytes { OnOk result (Moves (S.left source.old) (S.left source.new) self.old.ahead self.new.ahead) }
        ensures some { IfOk result (λ some. some ≡ true → 0 < length self.new.ahead) }
        ensures end { IfOk result (λ some. some ≡ false → (self.new.ahead ≡ []) × IsAtEnd (S.left source.new)) }
        ensures failed { OnErr result (Keeps (S.left source.old) (S.left source.new) × (self.old.ahead ≡ []) × (self.new.ahead ≡ [])) }
        ensures same { self.new ≡ record self.old { ahead = self.new.ahead } }
        ensures told { is_some (S.left source.new) ≡ is_some (S.left source.old) }
        ensures cause { HasCause (S.faults source.old) (S.faults source.new) result }
    {
        if !self.buffer.is_empty() {
            return Ok(true);
        }
        self.buffer.fill(source)
    }

    /// Takes a piece of the line from the bytes ahead.
    fn take_piece(&mut self, line: &mut Vec<u8>) -> Result<Piece, AllocError>
        requires some { 0 < length self.now.ahead }
        requires kept { vec_len line.now ≤ self.now.line_bytes + 1 }
        ensures taken { IfOk result (TakesPiece self.old self.new line.old.items line.new.items) }
        ensures same { (self.new.number ≡ self.old.number) × (self.new.line_bytes ≡ self.old.line_bytes) × (self.new.ended ≡ self.old.ended) }
    {
        let ahead = self.buffer.ahead();
        let within = ahead.split_at(ahead.len().min(self.room)).0;
        let count = feed_at(within);
        if count < within.len() {
            keep(line, within.split_at(count).0, self.line_bytes)?;
            self.buffer.pass(count + 1);
            self.room -= count + 1;
            return Ok(Piece::Feed);
        }
        if count < ahead.len() {
            return Ok(Piece::Over);
        }
        keep(line, within, self.line_bytes)?;
        self.buffer.pass(count);
        self.room -= count;
        Ok(Piece::More)
    }

    /// The answer for the line that was gathered, whose line feed was passed.
    fn tell(&mut self, line: Vec<u8>) -> LineStep
        requires kept { vec_len line ≤ self.now.line_bytes + 1 }
        requires room { self.now.number + self.now.room ≤ 2 ^ 28 }
        ensures told { (front : List ℕ) → line.items ≡ take (self.old.line_bytes + 1) front → result ≡ line_step self.old.line_bytes self.old.number front }
        ensures next { self.new ≡ record self.old { number = self.old.number + 1 } }
    {
        let number = self.number;
        self.number += 1;
        if line.len() > self.line_bytes {
            return LineStep::TooLong { number };
        }
        LineStep::Line {
            number,
            bytes: Bytes::from_vec(line),
        }
    }

    /// Ends the reader.
    fn end(&mut self)
        ensures { self.new ≡ record self.old { ended = true } }
    {
        self.ended = true;
    }

    fn tell_too_much(&mut self) -> LineStep
        ensures told { result ≡ LineStep.TooMuch self.old.number }
        ensures ended { self.new.ended ≡ true }
    {
        self.ended = true;
        LineStep::TooMuch {
            number: self.number,
        }
    }

    /// The answer for what was gathered behind the last line feed.
    fn tell_last(&mut self, line: Vec<u8>) -> LineStep
        requires kept { vec_len line ≤ self.now.line_bytes + 1 }
        requires room { 0 < vec_len line → self.now.number + self.now.room ≤ 2 ^ 28 }
        ensures told { (front : List ℕ) → line.items ≡ take (self.old.line_bytes + 1) front → result ≡ end_step self.old.line_bytes self.old.number front }
        ensures ended { self.new.ended ≡ true }
        ensures room { self.new.room ≡ self.old.room }
        ensures some { IsLine (Ok result) → 0 < vec_len line }
    {
        self.ended = true;
        if line.is_empty() {
            return LineStep::End;
        }
        self.tell(line)
    }

    /// The next line. `TooMuch`, `End` and faults end the reader, which then answers `End` and reads nothing.
    pub fn next_line<S: Source>(&mut self, source: &mut S) -> Result<LineStep, LineFault>
        ensures next { IsNext self.old (S.left source.old) self.new (S.left source.new) result }
        ensures passed { IsPassed self.old (S.left source.old) self.new (S.left source.new) result }
        ensures told { is_some (S.left source.new) ≡ is_some (S.left source.old) }
        ensures cause { HasLineCause (S.faults source.old) (S.faults source.new) result }
        ensures over { IsOver result → self.new.ended ≡ true }
        ensures shorter { IsLine result → self.new.room < self.old.room }
        ensures ended { self.old.ended ≡ true → (result ≡ Ok LineStep.End) × (self.new ≡ self.old) × (source.new ≡ source.old) }
    {
        if self.ended {
            return Ok(LineStep::End);
        }
        let mut line = Vec::new(self.alloc);
        'pieces: loop {
            match self.fill(source) {
                Ok(true) => {}
                Ok(false) => return Ok(self.tell_last(line)),
                Err(_) => {
                    self.end();
                    return Err(LineFault::Read);
                }
            }
            match self.take_piece(&mut line) {
                Ok(Piece::More) => {}
                Ok(Piece::Feed) => return Ok(self.tell(line)),
                Ok(Piece::Over) => return Ok(self.tell_too_much()),
                Err(_) => {
                    self.end();
                    return Err(LineFault::Memory);
                }
            }
        }
    }
}
