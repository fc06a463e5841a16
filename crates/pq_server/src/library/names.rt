//! Names in byte order.
ghost use Rattle.std.specs.Prelude.{IfOk};
ghost use Rattle.std.specs.List.Sorted.{IsPermutation, IsSorted};
ghost use Rattle.std.specs.String.{string_cmp};

use std::alloc::AllocError;

/// The names in byte order.
pub(crate) fn in_order(names: Vec<String>) -> Result<Vec<String>, AllocError>
    ensures sorted { IfOk result (λ sorted. IsSorted string_cmp sorted.items) }
    ensures same { IfOk result (λ sorted. IsPermutation names.items sorted.items) }
{
    let mut names = names;
    names.sort()?;
    Ok(names)
}
