ghost use Rattle.std.specs.Prelude.{◌≡◌};

use crate::name::HoleName;
use std::alloc::AllocError;

/// What stands at one place of a pattern.
#[derive(Drop, Debug)]
pub enum Part {
    /// this character
    Char(char),
    /// any one character
    One,
    /// any number of characters, none among them
    Run,
    /// one of `-`, `/`, U+2013, U+2014 and U+2015
    Dash,
    /// a placeholder of this name, which fits no text before it is replaced
    Hole(HoleName),
}

const _: () = prove!(size_of::<Part>() <= 16);

impl Clone for Part {
    ghost is_clone = { λ part copy. copy ≡ part };

    fn clone(&self) -> Result<Part, AllocError> {
        match self {
            Part::Char(c) => Ok(Part::Char(*c)),
            Part::One => Ok(Part::One),
            Part::Run => Ok(Part::Run),
            Part::Dash => Ok(Part::Dash),
            Part::Hole(name) => {
                let name = name.copy()?;
                Ok(Part::Hole(name))
            }
        }
    }
}
