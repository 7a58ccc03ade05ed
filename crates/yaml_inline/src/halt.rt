//! Why a reading has no answer.

ghost use Rattle.std.specs.Prelude.{◌≡◌};
ghost use Rattle.yaml_inline.specs.declared.halt.Halt.TheVariants.{Memory};

use sig_base::{Code, Place};
use std::alloc::{AllocError, AllocFailed};

/// A bracket or a quote that is open where its line ends, and the character that closes it.
#[derive(Drop, Debug)]
pub struct Opening {
    pub place: Place,
    pub closing: char,
}

/// Memory is missing; the reading stops at a place for a code; or on this line something does not
/// close. Then the openings stand there, outermost first.
#[derive(Drop, Debug)]
pub enum Halt {
    Memory,
    Refused(Code, Place),
    Unclosed(u32, Vec<Opening>),
}

impl From<AllocError> for Halt {
    ghost from_gives = { λ _ e. e ≡ Memory };

    fn from(_error: AllocError) -> Halt {
        Halt::Memory
    }
}

impl<T: Drop> From<AllocFailed<T>> for Halt {
    ghost from_gives = { λ _ e. e ≡ Memory };

    fn from(_failed: AllocFailed<T>) -> Halt {
        Halt::Memory
    }
}
