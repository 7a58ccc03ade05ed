//! A shelf in memory.

ghost use Rattle.std.specs.Prelude.{◌≡◌, [], take, Some, IsErr, IfOk, IfErr, MatchResult, true, false};
ghost use Rattle.std.specs.Option.{option_copied};
ghost use Rattle.std.specs.Str.{chars};
ghost use Rattle.sig_base.specs.Files.{IsFront, file_at};
ghost use Rattle.system_io.specs.Memory.{ShelfState, shelf_fails, next};
ghost use Rattle.sig_base.specs.Shelves.{NamesFollow};

use sig_base::{Bytes, Shelf, ShelfFault, Text};
use std::alloc::Global;
use std::marker::Model;

/// Files in memory. A read fails where its ordinal, from 1, stands in `failing`, and where the file isn't there.
#[derive(Drop)]
pub struct MemoryShelf {
    files: Vec<(Text, Bytes)>,
    failing: Vec<u64>,
    calls: u64,
    failed: Vec<Text>,
}

impl Model for MemoryShelf {
    ghost use Rattle.system_io.specs.Memory.{ShelfState};

    ghost Value = { ShelfState };

    ghost view = { λ s. record { files = s.files.items; failing = s.failing.items; calls = s.calls; failed = s.failed.items } };
}

impl MemoryShelf {
    /// Takes no memory; the list of names grows by `alloc`.
    pub fn new(alloc: Global, files: Vec<(Text, Bytes)>, failing: Vec<u64>) -> MemoryShelf
        ensures { result ≡ record { files = files.items; failing = failing.items; calls = 0; failed = [] } }
    {
        MemoryShelf {
            files,
            failing,
            calls: 0,
            failed: Vec::new(alloc),
        }
    }

    /// Keeps the name of a file that can't be read, or finds no memory for it.
    fn fail(&mut self, alloc: Global, name: &str) -> Result<Bytes, ShelfFault>
        ensures err { IsErr result }
        ensures names { NamesFollow self.old.failed self.new.failed (chars name.now) result }
        ensures others { self.new ≡ record self.old { failed = self.new.failed } }
    {
        match Text::copy(alloc, name) {
            Ok(text) => match self.failed.push(text) {
                Ok(()) => Err(ShelfFault::Failed),
                Err(_) => Err(ShelfFault::Memory),
            },
            Err(_) => Err(ShelfFault::Memory),
        }
    }
}

fn find<'a>(files: &'a [(Text, Bytes)], name: &str) -> Option<&'a Bytes>
    ensures { option_copied result ≡ file_at files.now (chars name.now) }
{
    for file in files {
        if file.0.is(name) {
            return Some(&file.1);
        }
    }
    None
}

impl Shelf for MemoryShelf {
    ghost files = { λ s. Some s.files };

    ghost failed = { λ s. s.failed };

    fn read(&mut self, alloc: Global, name: &str, at_most: usize) -> Result<Bytes, ShelfFault>
        ensures front { IfOk result (λ bytes. IsFront (Some self.old.files) (chars name.now) at_most bytes) }
        ensures files { Some self.new.files ≡ Some self.old.files }
        ensures names { NamesFollow self.old.failed self.new.failed (chars name.now) result }
        ensures exact { MatchResult result
            (λ _. shelf_fails self.old (chars name.now) ≡ false)
            (λ e. e ≡ ShelfFault.Failed → shelf_fails self.old (chars name.now) ≡ true) }
        ensures calls { self.new.calls ≡ next self.old.calls }
        ensures failing { self.new.failing ≡ self.old.failing }
    {
        self.calls = self.calls.saturating_add(1);
        if self.failing.contains(&self.calls) {
            return self.fail(alloc, name);
        }
        match find(self.files.as_slice(), name) {
            Some(bytes) => front(alloc, bytes.as_slice(), at_most),
            None => self.fail(alloc, name),
        }
    }
}

fn front(alloc: Global, bytes: &[u8], at_most: usize) -> Result<Bytes, ShelfFault>
    ensures ok { IfOk result (λ front. front ≡ take at_most bytes.now) }
    ensures err { IfErr result (λ e. e ≡ ShelfFault.Memory) }
{
    let length = at_most.min(bytes.len());
    match Bytes::copy(alloc, bytes.split_at(length).0) {
        Ok(front) => Ok(front),
        Err(_) => Err(ShelfFault::Memory),
    }
}
