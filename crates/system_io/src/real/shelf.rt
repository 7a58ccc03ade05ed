//! A shelf of real files.

ghost use Rattle.std.specs.Prelude.{◌≡◌, ◌≤◌, IsErr, IfOk, None, length};
ghost use Rattle.std.specs.Str.{chars};
ghost use Rattle.sig_base.specs.Files.{IsFront};
ghost use Rattle.sig_base.specs.Shelves.{NamesFollow};

use crate::real::pieces::read_piece;
use sig_base::{Bytes, Shelf, ShelfFault, Text};
use std::alloc::Global;
use std::fs;
use std::io::Read;
use std::rt::Files;

/// The files of the system, by paths. It tells no contents.
#[derive(Drop)]
pub struct FileShelf<'a, R> {
    rt: &'a R,
    failed: Vec<Text>,
}

impl<'a, R: Files> FileShelf<'a, R> {
    /// Takes no memory; the list of names grows by `alloc`.
    pub fn new(alloc: Global, rt: &'a R) -> FileShelf<'a, R> {
        FileShelf {
            rt,
            failed: Vec::new(alloc),
        }
    }

    fn fail(&mut self, alloc: Global, name: &str) -> Result<Bytes, ShelfFault>
        ensures err { IsErr result }
        ensures names { NamesFollow self.old.failed.items self.new.failed.items (chars name.now) result }
    {
        match Text::copy(alloc, name) {
            Ok(text) => match self.failed.push(text) {
                Ok(()) => Err(ShelfFault::Failed),
                Err(_) => Err(ShelfFault::Memory),
            },
            Err(_) => Err(ShelfFault::Memory),
        }
    }
}

impl<R: Files> Shelf for FileShelf<'_, R> {
    ghost files = { λ _. None };

    ghost failed = { λ s. s.failed.items };

    fn read(&mut self, alloc: Global, name: &str, at_most: usize) -> Result<Bytes, ShelfFault> {
        match read_file(alloc, self.rt, name, at_most) {
            Ok(bytes) => Ok(bytes),
            Err(ShelfFault::Memory) => Err(ShelfFault::Memory),
            Err(ShelfFault::Failed) => self.fail(alloc, name),
        }
    }
}

fn read_file<R: Files>(
    alloc: Global,
    rt: &R,
    name: &str,
    at_most: usize,
) -> Result<Bytes, ShelfFault>
    ensures { IfOk result (λ bytes. length bytes ≤ at_most) }
{
    match fs::open(rt, name) {
        Ok(mut file) => read_front(alloc, &mut file, at_most),
        Err(_) => Err(ShelfFault::Failed),
    }
}

fn read_front<F: Read>(alloc: Global, file: &mut F, at_most: usize) -> Result<Bytes, ShelfFault>
    ensures { IfOk result (λ bytes. length bytes ≤ at_most) }
{
    let mut bytes = Vec::new(alloc);
    let mut buf = [0u8; 8192];
    for _turn in 0..u64::MAX {
        let wanted = buf.len().min(at_most - bytes.len());
        match read_piece(file, buf.split_at_mut(wanted).0) {
            Some(0) => return Ok(Bytes::from_vec(bytes)),
            Some(count) => {
                if bytes.extend_from_slice(buf.split_at(count).0).is_err() {
                    return Err(ShelfFault::Memory);
                }
            }
            None => return Err(ShelfFault::Failed),
        }
    }
    Err(ShelfFault::Failed)
}
