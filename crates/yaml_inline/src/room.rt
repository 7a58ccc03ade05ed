//! Lists that take little more memory than their items.

ghost use Rattle.std.specs.Prelude.{◌≡◌, ◌++◌, ◌∷◌, [], OnOk};

use std::alloc::AllocError;

/// Adds an item, with memory for as many more as the list has. Most lists of a document are short,
/// and `push` alone would begin with memory for four items.
pub fn push_fitting<T: Drop>(items: &mut Vec<T>, item: T) -> Result<(), AllocError>
    ensures { OnOk result (items.new.items ≡ items.old.items ++ item ∷ []) }
{
    let len = items.len();
    if len == items.capacity() {
        items.reserve_exact(len.max(1))?;
    }
    items.push(item)?;
    Ok(())
}
