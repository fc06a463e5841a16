//! Ranges of ordered values, and which values they cover.
//!
//! The ranges are sorted by their first values, and each last value is raised to the greatest so
//! far. A value is then covered exactly if the last range that begins at or before it reaches it,
//! so a look-up is one binary search. Ranges may overlap.
ghost use Rattle.std.specs.Prelude.{◌≡◌, IfOk};
ghost use Rattle.pq_checks.specs.aux.Cover.{is_covered, higher, raised, Climbs};

use crate::Memory;
use std::alloc::Global;

/// The greater of `one` and `other`.
fn higher<T: Ord + Copy>(one: T, other: T) -> T
    ensures { result ≡ higher T.cmp one other }
{
    if one.cmp(&other).is_le() { other } else { one }
}

/// The ranges `ranges`, each with its last value raised to the greatest of those up to it.
#[tactic(auto, unfolding(crate::specs::aux::Cover::raised, crate::specs::aux::Cover::raise))]
fn raised<T: Ord + Copy + Drop>(alloc: Global, ranges: &[(T, T)]) -> Result<Vec<(T, T)>, Memory>
    ensures raised { IfOk result (λ rs. rs.items ≡ raised T.cmp ranges.now) }
{
    let mut stairs = Vec::new(alloc);
    let Some((first, others)) = ranges.split_first() else {
        return Ok(stairs);
    };
    stairs.push(*first)?;
    let mut top = first.1;
    'others: for range in others {
        top = higher(top, range.1);
        stairs.push((range.0, top))?;
    }
    Ok(stairs)
}

/// Ranges that cover the values that `ranges` cover, and of which neither the first values nor the
/// last ones fall.
pub(crate) fn stairs<T: Ord + Copy + Drop>(
    alloc: Global,
    ranges: Vec<(T, T)>,
) -> Result<Vec<(T, T)>, Memory>
    ensures climbs { IfOk result (λ rs. Climbs T.cmp rs.items) }
    ensures same { IfOk result
        (λ rs. (x : T) → is_covered T.cmp rs.items x ≡ is_covered T.cmp ranges.items x) }
{
    let mut ranges = ranges;
    ranges.sort()?;
    raised(alloc, ranges.as_slice())
}

/// Whether `value` lies within one of the ranges `stairs`, in logarithmic time.
pub(crate) fn is_covered<T: Ord + Copy>(stairs: &[(T, T)], value: T) -> bool
    requires { Climbs T.cmp stairs.now }
    ensures { result ≡ is_covered T.cmp stairs.now value }
{
    let mut low = 0;
    let mut high = stairs.len();
    'halves: while low < high {
        let middle = low + (high - low) / 2;
        if stairs[middle].0.cmp(&value).is_le() {
            low = middle + 1;
        } else {
            high = middle;
        }
    }
    low > 0 && value.cmp(&stairs[low - 1].1).is_le()
}
