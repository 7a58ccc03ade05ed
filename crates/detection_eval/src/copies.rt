//! Copies that a rule that is made ready owns.

ghost use Rattle.std.specs.Prelude.{◌≡◌, IfOk};

use std::alloc::{AllocError, Global};

/// The same numbers, in one piece of memory.
pub fn copy_numbers(alloc: Global, numbers: &[u32]) -> Result<Vec<u32>, AllocError>
    ensures { IfOk result (λ copy. copy.items ≡ numbers.now) }
{
    let mut copy = Vec::with_capacity(alloc, numbers.len())?;
    copy.extend_from_slice(numbers)?;
    Ok(copy)
}
