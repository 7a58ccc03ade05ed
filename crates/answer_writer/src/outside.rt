//! The shelf, the events and the two streams as one.

ghost use Rattle.std.specs.Prelude.{◌≡◌, ◌<◌, OnOk, OnErr, IfOk, Ok, true, is_some};
ghost use Rattle.std.specs.Io.KnownBytes.{Appends};
ghost use Rattle.sig_base.specs.Causes.{HasCause, AppendsFront};
ghost use Rattle.sig_base.specs.Files.{IsFront};
ghost use Rattle.sig_base.specs.Shelves.{NamesFollow};
ghost use Rattle.event_lines.specs.Reading.{IsNext, IsPassed, IsOver, IsLine, HasLineCause};
ghost use Rattle.answer_writer.specs.State.{State};

use event_lines::LineReader;
use sig_base::{
    Bytes, Failed, LineFault, LineStep, Shelf, ShelfFault, Sink, Source, Text, put_all,
};
use std::alloc::Global;

/// What a command reads and writes.
pub trait Outside {
    ghost state: { Self → State };

    /// The first bytes of a file, at most so many.
    fn read_file(&mut self, alloc: Global, name: &Text, at_most: usize) -> Result<Bytes, ShelfFault>
        ensures front { IfOk result (λ bytes. IsFront (state self.old).inputs.files name.now at_most bytes) }
        ensures files { (state self.new).inputs.files ≡ (state self.old).inputs.files }
        ensures names { NamesFollow (state self.old).inputs.failed (state self.new).inputs.failed name.now result }
        ensures left { (state self.new).inputs.left ≡ (state self.old).inputs.left }
        ensures faults { (state self.new).inputs.faults ≡ (state self.old).inputs.faults }
        ensures streams { (state self.new).streams ≡ (state self.old).streams }
        ensures kept { (state self.new).references ≡ (state self.old).references };

    /// The next line of the events, by a reader of them.
    fn next_line(&mut self, reader: &mut LineReader) -> Result<LineStep, LineFault>
        ensures next { IsNext reader.old (state self.old).inputs.left reader.new (state self.new).inputs.left result }
        ensures passed { IsPassed reader.old (state self.old).inputs.left reader.new (state self.new).inputs.left result }
        ensures told { is_some (state self.new).inputs.left ≡ is_some (state self.old).inputs.left }
        ensures cause { HasLineCause (state self.old).inputs.faults (state self.new).inputs.faults result }
        ensures over { IsOver result → reader.new.ended ≡ true }
        ensures shorter { IsLine result → reader.new.room < reader.old.room }
        ensures ended { reader.old.ended ≡ true → (result ≡ Ok LineStep.End) × (reader.new ≡ reader.old) × (state self.new ≡ state self.old) }
        ensures files { (state self.new).inputs.files ≡ (state self.old).inputs.files }
        ensures failed { (state self.new).inputs.failed ≡ (state self.old).inputs.failed }
        ensures streams { (state self.new).streams ≡ (state self.old).streams }
        ensures kept { (state self.new).references ≡ (state self.old).references };

    /// Appends bytes to the output.
    fn put(&mut self, bytes: &[u8]) -> Result<(), Failed>
        ensures ok { OnOk result (Appends (state self.old).streams.out (state self.new).streams.out bytes.now) }
        ensures failed { OnErr result (AppendsFront (state self.old).streams.out (state self.new).streams.out bytes.now) }
        ensures cause { HasCause (state self.old).streams.out_faults (state self.new).streams.out_faults result }
        ensures err { (state self.new).streams.err ≡ (state self.old).streams.err }
        ensures err_faults { (state self.new).streams.err_faults ≡ (state self.old).streams.err_faults }
        ensures inputs { (state self.new).inputs ≡ (state self.old).inputs }
        ensures kept { (state self.new).references ≡ (state self.old).references };

    /// Appends bytes to the error output.
    fn tell(&mut self, bytes: &[u8]) -> Result<(), Failed>
        ensures ok { OnOk result (Appends (state self.old).streams.err (state self.new).streams.err bytes.now) }
        ensures failed { OnErr result (AppendsFront (state self.old).streams.err (state self.new).streams.err bytes.now) }
        ensures cause { HasCause (state self.old).streams.err_faults (state self.new).streams.err_faults result }
        ensures out { (state self.new).streams.out ≡ (state self.old).streams.out }
        ensures out_faults { (state self.new).streams.out_faults ≡ (state self.old).streams.out_faults }
        ensures inputs { (state self.new).inputs ≡ (state self.old).inputs }
        ensures kept { (state self.new).references ≡ (state self.old).references };
}

/// A shelf, a source of events and two sinks, lent for one run.
#[derive(Drop)]
pub struct Lent<'f, 's, 'o, 'e, F, S, O, E> {
    pub shelf: &'f mut F,
    pub events: &'s mut S,
    pub out: &'o mut O,
    pub err: &'e mut E,
}

impl<F: Shelf, S: Source, O: Sink, E: Sink> Outside for Lent<'_, '_, '_, '_, F, S, O, E> {
    ghost state = { λ l. record {
      inputs = record { files = F.files l.shelf.now; failed = F.failed l.shelf.now; left = S.left l.events.now; faults = S.faults l.events.now };
      streams = record { out = O.taken l.out.now; err = E.taken l.err.now; out_faults = O.faults l.out.now; err_faults = E.faults l.err.now };
      references = record { shelf = l.shelf.ghost_name; events = l.events.ghost_name; out = l.out.ghost_name; err = l.err.ghost_name };
    } };

    fn read_file(
        &mut self,
        alloc: Global,
        name: &Text,
        at_most: usize,
    ) -> Result<Bytes, ShelfFault> {
        self.shelf.read(alloc, name.as_str(), at_most)
    }

    fn next_line(&mut self, reader: &mut LineReader) -> Result<LineStep, LineFault> {
        reader.next_line(self.events)
    }

    fn put(&mut self, bytes: &[u8]) -> Result<(), Failed> {
        put_all(self.out, bytes)
    }

    fn tell(&mut self, bytes: &[u8]) -> Result<(), Failed> {
        put_all(self.err, bytes)
    }
}
