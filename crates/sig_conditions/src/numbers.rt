//! Numbers of a rule's detections.

ghost use Rattle.std.specs.Prelude.{◌≡◌, IfOk};

use sig_base::Sequence;
use std::alloc::{AllocError, Global};

/// Numbers of detections in order, from 0, which contracts see as a list.
pub type DetectionNumbers = Sequence<u32>;

/// The same numbers, in one piece of memory.
pub fn copy_numbers(
    alloc: Global,
    numbers: &DetectionNumbers,
) -> Result<DetectionNumbers, AllocError>
    ensures { IfOk result (λ copy. copy ≡ numbers.now) }
{
    let mut items = Vec::with_capacity(alloc, numbers.as_slice().len())?;
    items.extend_from_slice(numbers.as_slice())?;
    Ok(DetectionNumbers::from_vec(items))
}
