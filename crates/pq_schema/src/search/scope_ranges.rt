//! The packages inside each of the scopes from a package outwards.
//!
//! They are found once for a file: those of a scope among those of the scope around it, by the part
//! that follows. So whether a name in a scope is a package is seen without the name of the scope. For
//! a short package nothing is kept.
ghost use Rattle.std.specs.Prelude.{◌≡◌, ℕ, List, IfOk, IfSome, drop, take};
ghost use Rattle.pq_schema.specs.declared.scope.scope.FileDefs.{FileDefs};
ghost use Rattle.pq_schema.specs.aux.PackageRange.{AreRanges, IsRange};

use crate::scope::files::Files;
use crate::scope::package_range::PackageRange;
use pq_names::Memory;
use std::alloc::Global;

/// A number of bytes, and the packages that begin with these bytes of a package.
pub(crate) type ScopeRange<'a> = (usize, PackageRange<'a>);

/// The most bytes of a package whose scopes are spelled.
const SHORT: usize = 256;

/// The bytes of `lead` from `start` to `end`.
fn part_of(lead: &str, start: usize, end: usize) -> Option<&str>
    ensures part { IfSome result (λ p. p.now ≡ drop start (take end lead.now)) }
{
    let (before, _) = lead.split_at_checked(end)?;
    let (_, part) = before.split_at_checked(start)?;
    Some(part)
}

/// The packages inside each scope of the package that has `lead` before its names.
pub(crate) fn ranges_of<'a>(
    alloc: Global,
    files: &'a Files,
    lead: &str,
) -> Result<Vec<ScopeRange<'a>>, Memory>
    ensures ranges { IfOk result (λ v. AreRanges files.now lead.now v.items) }
{
    let mut ranges = Vec::new(alloc);
    if lead.len() <= SHORT {
        return Ok(ranges);
    }
    let bytes = lead.as_bytes();
    let mut range = files.packages_in("");
    let mut start = 0;
    'bytes: for at in 0..bytes.len() {
        if bytes[at] != b'.' {
            continue;
        }
        let part = match part_of(lead, start, at) {
            Some(part) => part,
            None => return Ok(ranges),
        };
        range = range.inside(part);
        start = at + 1;
        ranges.push((start, range))?;
    }
    Ok(ranges)
}

/// Where `ranges` may have the packages that begin with the first `start` bytes.
fn place_of(ranges: &[ScopeRange<'_>], start: usize) -> usize {
    ranges.partition_point(|entry: &ScopeRange<'_>| -> bool { entry.0 < start })
}

/// The packages that begin with the first `start` bytes of a package, if `ranges` has them.
pub(crate) fn range_at<'a>(ranges: &[ScopeRange<'a>], start: usize) -> Option<PackageRange<'a>>
    ensures range { IfSome result (λ r. (files : List FileDefs) (lead : List ℕ) → AreRanges files lead ranges.now
        → IsRange files (take start lead) r) }
{
    match ranges.get(place_of(ranges, start)) {
        Some(entry) => {
            if entry.0 == start {
                Some(entry.1)
            } else {
                None
            }
        }
        None => None,
    }
}
