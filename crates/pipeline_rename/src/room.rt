//! Room for names and tests, of which there is as much as a rule may grow.

ghost use Rattle.std.specs.Prelude.{◌≡◌, ◌+◌, IfOk, IfErr};
ghost use Rattle.sig_base.specs.Judged.{refusal};
ghost use Rattle.pipeline_rename.specs.Made.{IsFull};

use sig_base::{Code, Fault, Place, refused};

/// How many names and how many tests there is room for.
#[derive(Drop)]
pub struct Room {
    pub names: usize,
    pub tests: usize,
}

/// Code 99 at the place.
pub fn grown(place: Place) -> Fault
    ensures { result ≡ Fault.Refused (refusal 99 place) }
{
    refused(Code::GROWN, place)
}

/// What is left of the room; code 99 where there is less.
pub fn pay(place: Place, room: usize, size: usize) -> Result<usize, Fault>
    ensures paid { IfOk result (λ left. left + size ≡ room) }
    ensures full { IfErr result (IsFull place room size) }
{
    if room < size {
        return Err(grown(place));
    }
    Ok(room - size)
}
