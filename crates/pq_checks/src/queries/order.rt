//! A list put in order, each element once.
ghost use Rattle.std.specs.Prelude.{◌≡◌, IfOk};
ghost use Rattle.std.specs.declared.cmp.Ordering.TheVariants.{Equal};
ghost use Rattle.pq_checks.specs.InOrder.{in_order};

use crate::Memory;

/// Puts `items` in order, each once, in N log N time for N items.
pub(crate) fn put_in_order<T: Ord + Drop>(items: &mut Vec<T>) -> Result<(), Memory>
    requires exact { (x y : T) → T.cmp x y ≡ Equal → x ≡ y }
    ensures ordered { IfOk result (λ _. items.new.items ≡ in_order T.cmp items.old.items) }
{
    items.sort()?;
    items.dedup();
    Ok(())
}
