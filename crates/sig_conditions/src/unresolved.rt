//! Why a condition has no formula.

ghost use Rattle.std.specs.Prelude.{◌≡◌};

use sig_base::Text;
use std::alloc::{AllocError, AllocFailed};

/// The first name or selector without a detection, or want of memory.
#[derive(Drop)]
pub enum Unresolved {
    /// Memory ran out.
    Memory,
    /// No detection has this name.
    Unknown(Text),
    /// A selector takes no detection.
    Nothing,
}

impl From<AllocError> for Unresolved {
    ghost use Rattle.sig_conditions.specs.declared.unresolved.Unresolved.TheVariants.{Memory};

    ghost from_gives = { λ _ e. e ≡ Memory };

    fn from(_error: AllocError) -> Unresolved {
        Unresolved::Memory
    }
}

impl<T: Drop> From<AllocFailed<T>> for Unresolved {
    ghost use Rattle.sig_conditions.specs.declared.unresolved.Unresolved.TheVariants.{Memory};

    ghost from_gives = { λ _ e. e ≡ Memory };

    fn from(_error: AllocFailed<T>) -> Unresolved {
        Unresolved::Memory
    }
}
