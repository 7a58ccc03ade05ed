//! What a call that reads answers where it can't go on.

ghost use Rattle.std.specs.Prelude.{◌≡◌};
ghost use Rattle.sig_base.specs.declared.refusal.Fault.TheVariants.{Memory};

use crate::code::Code;
use crate::text::Text;
use std::alloc::{AllocError, AllocFailed};

/// A place in a file: lines and columns count from 1, and columns count characters.
#[derive(Clone, Copy, Debug, PartialEq, Eq)]
pub struct Place {
    pub line: u32,
    pub column: u32,
}

impl Place {
    /// The place of a file's first character, at which what concerns the whole file is refused.
    pub const START: Place = Place { line: 1, column: 1 };
}

/// What a refusal tells besides its code and its place.
#[derive(Drop, Debug)]
pub enum Detail {
    None,
    Text(Text),
    Numbers(i128, i128),
}

/// Why the input isn't taken, and where.
#[derive(Drop, Debug)]
pub struct Refusal {
    pub code: Code,
    pub place: Place,
    pub detail: Detail,
}

/// Why a call that reads has no answer: memory is missing, or its input is refused.
#[derive(Drop, Debug)]
pub enum Fault {
    Memory,
    Refused(Refusal),
}

impl From<AllocError> for Fault {
    ghost from_gives = { λ _ e. e ≡ Memory };

    fn from(_error: AllocError) -> Fault {
        Fault::Memory
    }
}

impl<T: Drop> From<AllocFailed<T>> for Fault {
    ghost from_gives = { λ _ e. e ≡ Memory };

    fn from(_failed: AllocFailed<T>) -> Fault {
        Fault::Memory
    }
}
