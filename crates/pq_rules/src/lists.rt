//! Lists whose calls answer `Memory` where an allocation fails.
ghost use Rattle.std.specs.Prelude.{◌≡◌, ◌++◌, ◌∷◌, [], IfOk, OnErr};

use crate::turn::Memory;

/// Adds `item` at the end of `items`. If the allocation fails, it answers `Memory`, drops `item`
/// and leaves `items` as it was.
pub fn push<T: Drop>(items: &mut Vec<T>, item: T) -> Result<(), Memory>
    // `added`, `refused`: The item is added at the end of the list. After an allocation failure the
    // list is as it was.
    ensures added { IfOk result (λ _. items.new.items ≡ items.old.items ++ item ∷ []) }
    ensures refused { OnErr result (items.new.items ≡ items.old.items) }
{
    items.push(item)?;
    Ok(())
}
