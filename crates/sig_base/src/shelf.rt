//! Files by their names.

ghost use Rattle.std.specs.Prelude.{◌≡◌, List, ℕ, Option, IfOk};
ghost use Rattle.std.specs.Str.{chars};
ghost use Rattle.sig_base.specs.Files.{IsFront};
ghost use Rattle.sig_base.specs.Shelves.{NamesFollow};

use crate::bytes::Bytes;
use crate::faults::ShelfFault;
use std::alloc::Global;

/// Gives files. Contracts see its files, where it tells them, and the names whose reading failed, whose number is
/// its count of faults.
pub trait Shelf {
    ghost files: { Self → Option (List (List ℕ × List ℕ)) };

    ghost failed: { Self → List (List ℕ) };

    /// The first `at_most` bytes of the file, or all of it where it is shorter. A missing file is a fault.
    fn read(&mut self, alloc: Global, name: &str, at_most: usize) -> Result<Bytes, ShelfFault>
        ensures front { IfOk result (λ bytes. IsFront (files self.old) (chars name.now) at_most bytes) }
        ensures files { files self.new ≡ files self.old }
        ensures names { NamesFollow (failed self.old) (failed self.new) (chars name.now) result };
}
