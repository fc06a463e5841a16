//! The packages inside a scope.
//!
//! A name in a scope is a package only if a package begins with the scope. Those that do are
//! neighbours in the index of packages. They are found once for a scope, among those inside the scope
//! around it. So whether a name in a scope is a package is seen by the bytes after the scope alone,
//! however long the name of the scope is.
ghost use Rattle.std.specs.Prelude.{◌≡◌, ◌++◌, ◌+◌, ◌<◌, ◌≤◌, ℕ, List, [], drop, length, true};
ghost use Rattle.std.specs.Cmp.Lexicographic.{slice_cmp};
ghost use Rattle.std.specs.Ordering.{is_lt, nat_cmp};
ghost use Rattle.pq_schema.specs.declared.scope.scope.FileDefs.{FileDefs};
ghost use Rattle.pq_schema.specs.Resolution.{is_package};
ghost use Rattle.pq_schema.specs.aux.Grouping.{IsIndex};
ghost use Rattle.pq_schema.specs.aux.InPackage.{dotted};
ghost use Rattle.pq_schema.specs.aux.PackageRange.{IsFirstFrom, IsRange, begins_after};

use crate::scope::by_package::{Entry, is_before, is_inside};

/// The packages that begin with what is before a name in a scope.
#[derive(Clone, Copy)]
pub(crate) struct PackageRange<'a> {
    /// The packages, sorted, each with a dot after it.
    pub(crate) entries: &'a [Entry],
    /// The number of bytes before a name in the scope, if there are such packages.
    pub(crate) count: usize,
}

/// The bytes of the package `entry` after the first `count`.
fn rest_of(entry: &Entry, count: usize) -> &[u8]
    ensures rest { result.now ≡ drop count entry.now.0 }
{
    match entry.0.as_str().as_bytes().get(count..) {
        Some(rest) => rest,
        None => &[],
    }
}

/// The number of bytes before a name in the scope `name` of a scope, where `count` are before `name`, if
/// the package `entry` is inside that scope.
fn count_inside(entry: &Entry, count: usize, name: &str) -> usize
    ensures count { begins_after count (dotted name.now) entry.now ≡ true → result ≡ count + (length name.now + 1) }
{
    let rest = rest_of(entry, count).len();
    let next = rest.saturating_sub(name.len() + 1);
    entry.0.as_str().len() - next
}

impl<'a> PackageRange<'a> {
    /// The packages `packages`, for full names.
    pub(crate) fn all(packages: &'a [Entry]) -> PackageRange<'a>
        ensures range { (files : List FileDefs) → IsIndex packages.now files → IsRange files [] result }
    {
        PackageRange {
            entries: packages,
            count: 0,
        }
    }

    /// The number of packages before the first that has `name` and a dot next, or comes after these.
    fn first_from(&self, name: &str) -> usize
        ensures within { result ≤ length self.now.entries.now }
        ensures first { (files : List FileDefs) (lead : List ℕ) → IsRange files lead self.now
            → IsFirstFrom self.now.entries.now (lead ++ dotted name.now) result }
    {
        let count = self.count;
        self.entries.partition_point(
            |entry: &Entry| -> bool
                ensures { result ≡ is_lt (slice_cmp nat_cmp (drop count entry.now.0) (dotted name.entry.now)) }
            { is_before(rest_of(entry, count), name.as_bytes()) },
        )
    }

    /// The packages inside the scope `name` of this scope.
    pub(crate) fn inside(&self, name: &str) -> PackageRange<'a>
        ensures range { (files : List FileDefs) (lead : List ℕ) → IsRange files lead self.now
            → IsRange files (lead ++ dotted name.now) result }
    {
        let first = self.first_from(name);
        let from = &self.entries[first..];
        let count = self.count;
        let number = from.partition_point(
            |entry: &Entry| -> bool
                ensures { result ≡ begins_after count (dotted name.entry.now) entry.now }
            { is_inside(rest_of(entry, count), name.as_bytes()) },
        );
        let entries = &from[..number];
        match entries.first() {
            Some(entry) => PackageRange {
                entries,
                count: count_inside(entry, count, name),
            },
            None => PackageRange { entries, count: 0 },
        }
    }

    /// Whether `name` in the scope is a package, or the part of one before a dot.
    pub(crate) fn has(&self, name: &str) -> bool
        ensures is { (files : List FileDefs) (lead : List ℕ) → IsRange files lead self.now
            → 0 < length (lead ++ name.now) → result ≡ is_package files (lead ++ name.now) }
    {
        match self.entries.get(self.first_from(name)) {
            Some(entry) => is_inside(rest_of(entry, self.count), name.as_bytes()),
            None => false,
        }
    }
}
