//! The packages that a search from a package outwards meets.
//!
//! A name is a package in a scope if a package of the files begins with the scope, the name and a
//! dot. So a package meets the search in each of its scopes that are scopes of the searching
//! package too, with the part of its name that follows the scope. All scopes but the last of these
//! are followed by the part that the searching package has there. A table has each such part once
//! for these scopes, and the part after the last scope of each package. It is sorted by part, then
//! by scope. Of one part the innermost scope counts, which a binary search finds.
//!
//! The table takes one walk over the bytes of each package, up to the part after the last scope
//! that it shares, and a sort of as many parts as there are packages and parts of the searching
//! package. Packages of one name are looked at once.
ghost use Rattle.std.specs.Prelude.{◌≡◌, ◌≢◌, ℕ, ◌<◌, ◌≤◌, ◌++◌, ◌∷◌, ◌+◌, ◌-◌, [], IfOk, IfSome, OnOk, List, false, true, find, get_or, length, option_map, bytes_eq, not, take};
ghost use Rattle.std.specs.Cmp.Lexicographic.{slice_cmp};
ghost use Rattle.std.specs.Cmp.Rules.{comparing};
ghost use Rattle.std.specs.Cmp.{partial_order_from_own_ties};
ghost use Rattle.std.specs.List.{Contains, slice_range};
ghost use Rattle.std.specs.Ordering.{as_partial_cmp, is_lt, nat_cmp};
ghost use Rattle.std.proofs.Common.{rules};
ghost use Rattle.std.specs.List.Sorted.{IsSorted};
ghost use Rattle.pq_schema.specs.Definitions.{qualified};
ghost use Rattle.pq_schema.specs.Resolution.{is_package, scopes};
ghost use Rattle.pq_schema.specs.aux.Along.{AllMeet, AreKept, HasMet, IsAlong, IsCovered, IsLastStart, IsPlain, IsSame, IsStart, MeetBeside, Meets};
ghost use Rattle.pq_schema.specs.aux.Fronts.{AreFronts};
ghost use Rattle.pq_schema.specs.aux.Grouping.{root_order};
ghost use Rattle.pq_schema.specs.aux.NameParts.{leading};
ghost use Rattle.pq_schema.specs.aux.PackageRange.{IsRange};

use crate::names::lead::lead_text;
use crate::scope::by_package::Entry;
use crate::scope::files::Files;
use crate::scope::fronts::{Common, fronts_of};
use crate::scope::package_range::PackageRange;
use crate::search::scope_ranges::{ScopeRange, range_at, ranges_of};
use pq_names::{Memory, Text};
use std::alloc::Global;
use std::cmp::Ordering;
use std::marker::Model;

/// A part of the name of a package. Contracts see its bytes.
#[derive(Drop)]
struct Part<'a> {
    bytes: &'a [u8],
}

impl<'a> Model for Part<'a> {
    ghost use Rattle.std.specs.Prelude.{List, ℕ};

    ghost Value = { List ℕ };

    ghost view = { λ p. p.bytes.now };
}

impl<'a> Part<'a> {
    /// Whether the part has the bytes `bytes`.
    fn is(&self, bytes: &[u8]) -> bool
        ensures is { result ≡ bytes_eq self.now bytes.now }
    {
        self.bytes == bytes
    }
}

impl<'a> PartialEq for Part<'a> {
    ghost eq = { bytes_eq };

    ghost laws = { Prim.search (comparing, rules) };

    fn eq(&self, other: &Part<'a>) -> bool {
        self.bytes == other.bytes
    }
}

impl<'a> Eq for Part<'a> {
    ghost laws = { Prim.search (comparing, rules) };
}

impl<'a> Ord for Part<'a> {
    ghost cmp = { slice_cmp nat_cmp };

    ghost total = { Prim.search (comparing, rules) };

    ghost matches_partial_cmp = { Prim.search (comparing, rules) };

    ghost matches_eq = { Prim.search (comparing, rules) };

    fn cmp(&self, other: &Part<'a>) -> Ordering {
        self.bytes.cmp(other.bytes)
    }
}

impl<'a> PartialOrd for Part<'a> {
    ghost partial_cmp = { as_partial_cmp (slice_cmp nat_cmp) };

    ghost laws = { partial_order_from_own_ties (Prim.search (comparing, rules)) (Prim.search (comparing, rules)) };

    fn partial_cmp(&self, other: &Part<'a>) -> Option<Ordering> {
        Some(self.cmp(other))
    }
}

/// A part, and the byte at which the names of its scope begin.
type Met<'a> = (Part<'a>, usize);

/// The byte of `root` at `at`, or the dot after it.
fn byte_or_dot(root: &[u8], at: usize) -> u8
    ensures is { result ≡ get_or root.now at 46 }
{
    match root.get(at) {
        Some(byte) => *byte,
        None => b'.',
    }
}

/// Where the names of the innermost scope begin that `entry` is in, of those from `root` outwards.
fn innermost_start(root: &[u8], entry: &[u8]) -> usize
    ensures start { IsStart root.now result }
    ensures same { IsSame root.now entry.now result }
    ensures last { (name : List ℕ) (start : ℕ) → IsStart root.now start
        → Meets root.now entry.now name start → start ≤ result }
{
    let mut start = 0;
    'bytes: for at in 0..entry.len() {
        let byte = entry[at];
        if at > root.len() || byte != byte_or_dot(root, at) {
            return start;
        }
        if at > 0 && byte == b'.' {
            start = at + 1;
        }
    }
    start
}

/// Adds the part of `entry` from `start` to `end`.
fn add_part<'a>(
    entry: &'a [u8],
    start: usize,
    end: usize,
    parts: &mut Vec<Met<'a>>,
) -> Result<(), Memory>
    requires { (start ≤ end) × (end ≤ length entry.now) }
    ensures part { OnOk result
        (parts.new.items ≡ parts.old.items ++ (slice_range entry.now start end, start) ∷ []) }
{
    let bytes = &entry[start..end];
    parts.push((Part { bytes }, start))?;
    Ok(())
}

/// Adds the parts of `entry` that begin where the names of a scope from `root` outwards do, from
/// `from` to `to`.
fn add_parts<'a>(
    root: &[u8],
    entry: &'a [u8],
    from: usize,
    to: usize,
    parts: &mut Vec<Met<'a>>,
) -> Result<(), Memory>
    requires start { IsStart root.now from }
    requires end { IsStart root.now to }
    requires up { from ≤ to }
    requires same { IsSame root.now entry.now to }
    ensures kept { OnOk result (AreKept parts.old.items parts.new.items) }
    ensures meet { OnOk result (MeetBeside parts.old.items parts.new.items root.now entry.now) }
    ensures met { OnOk result ((name : List ℕ) (start : ℕ) → from ≤ start → start ≤ to → IsPlain name
        → IsStart root.now start → Meets root.now entry.now name start → Contains parts.new.items (name, start)) }
{
    let mut start = from;
    'bytes: for at in from..entry.len() {
        if at == 0 || entry[at] != b'.' {
            continue;
        }
        add_part(entry, start, at, parts)?;
        if at >= to {
            return Ok(());
        }
        start = at + 1;
    }
    Ok(())
}

/// Adds what the package `entry` meets to `parts`, which has what a package that is in the scope
/// whose names begin at `covered` meets further out. The answer is the new `covered`.
fn add_package<'a>(
    root: &[u8],
    entry: &'a [u8],
    covered: usize,
    parts: &mut Vec<Met<'a>>,
) -> Result<usize, Memory>
    requires covered { IsCovered parts.old.items root.now covered }
    ensures kept { OnOk result (AreKept parts.old.items parts.new.items) }
    ensures meet { OnOk result (MeetBeside parts.old.items parts.new.items root.now entry.now) }
    ensures met { OnOk result (HasMet parts.new.items root.now entry.now) }
    ensures covered { IfOk result (λ n. IsCovered parts.new.items root.now n) }
{
    let start = innermost_start(root, entry);
    if covered < start {
        add_parts(root, entry, covered, start, parts)?;
        return Ok(start);
    }
    add_parts(root, entry, start, start, parts)?;
    Ok(covered)
}

/// Whether the package at `at` has the name of the one before it.
fn is_repeated(packages: &[Entry], at: usize) -> bool
    requires { at < length packages.now }
    ensures same { result ≡ true → (0 < at) × ((get_or packages.now at ([], 0)).0 ≡ (get_or packages.now (at - 1) ([], 0)).0) }
{
    at > 0 && packages[at].0 == packages[at - 1].0
}

/// What the packages `packages` meet in the scopes from `root` outwards, sorted.
fn parts_along<'a>(
    alloc: Global,
    packages: &'a [Entry],
    root: &[u8],
) -> Result<Vec<Met<'a>>, Memory>
    ensures sorted { IfOk result (λ v. IsSorted root_order v.items) }
    ensures meet { IfOk result (λ v. AllMeet v.items packages.now root.now) }
    ensures met { IfOk result (λ v. (k : ℕ) → k < length packages.now
        → HasMet v.items root.now (get_or packages.now k ([], 0)).0) }
{
    let mut parts = Vec::new(alloc);
    let mut covered = 0;
    'packages: for at in 0..packages.len() {
        if is_repeated(packages, at) {
            continue;
        }
        let entry = packages[at].0.as_str().as_bytes();
        covered = add_package(root, entry, covered, &mut parts)?;
    }
    parts.sort()?;
    Ok(parts)
}

/// The table of the packages that a search from the package `root` of `files` outwards meets.
fn table<'a>(alloc: Global, files: &'a Files, root: &str) -> Result<Vec<Met<'a>>, Memory>
    ensures along { IfOk result (λ v. IsAlong v.items files.now root.now) }
{
    let parts = parts_along(alloc, files.packages(), root.as_bytes())?;
    Ok(parts)
}

/// The number of `parts` that do not come after `name`.
fn count_to(parts: &[Met<'_>], name: &[u8]) -> usize
    requires { IsSorted root_order parts.now }
    ensures within { result ≤ length parts.now }
    ensures low { (k : ℕ) → k < result →
        is_lt (slice_cmp nat_cmp name.now (get_or parts.now k ([], 0)).0) ≡ false }
    ensures others { (k : ℕ) → result ≤ k → k < length parts.now →
        is_lt (slice_cmp nat_cmp name.now (get_or parts.now k ([], 0)).0) ≡ true }
{
    parts.partition_point(
        |met: &Met<'_>| -> bool
            ensures { result ≡ not (is_lt (slice_cmp nat_cmp name.entry.now met.now.0)) }
        { !name.cmp(met.0.bytes).is_lt() },
    )
}

/// Where the names of the innermost scope begin in which `parts` has `name`.
fn last_start(parts: &[Met<'_>], name: &[u8]) -> Option<usize>
    requires { IsSorted root_order parts.now }
    ensures last { IsLastStart parts.now name.now result }
{
    let count = count_to(parts, name);
    if count == 0 {
        return None;
    }
    let last = &parts[count - 1];
    if !last.0.is(name) {
        return None;
    }
    Some(last.1)
}

/// The packages that a search from the package `root` outwards meets. Contracts see the files and
/// the package.
#[derive(Drop)]
pub(crate) struct Along<'a> {
    files: &'a Files,
    root: &'a str,
    /// The parts that the packages of the files meet, sorted.
    parts: Vec<Met<'a>>,
    /// How far the package of each file goes along `lead`.
    fronts: Vec<Common>,
    /// What is before a simple name in `root`.
    lead: Text,
    /// The packages inside `root`.
    packages: PackageRange<'a>,
    /// The packages inside each scope of `root`.
    ranges: Vec<ScopeRange<'a>>,
}

impl<'a> Model for Along<'a> {
    ghost use Rattle.std.specs.Prelude.{◌≡◌, length};
    ghost use Rattle.pq_schema.specs.aux.Along.{Contents, IsAlong};
    ghost use Rattle.pq_schema.specs.aux.Fronts.{AreFronts};
    ghost use Rattle.pq_schema.specs.aux.NameParts.{leading};
    ghost use Rattle.pq_schema.specs.aux.PackageRange.{AreRanges, IsRange};

    ghost Value = { Contents };

    ghost view = { λ a. record { files = a.files.now; root = a.root.now } };

    ghost invariant = { λ a. IsAlong a.parts.items a.files.now a.root.now
        × AreFronts a.fronts.items a.files.now a.root.now
        × (a.lead ≡ leading a.root.now)
        × IsRange a.files.now (leading a.root.now) a.packages
        × AreRanges a.files.now (leading a.root.now) a.ranges.items };
}

impl<'a> Along<'a> {
    /// What a search from the package `root` of `files` outwards meets.
    pub(crate) fn new(alloc: Global, files: &'a Files, root: &'a str) -> Result<Along<'a>, Memory>
        ensures { IfOk result (λ a. a ≡ record { files = files.now; root = root.now }) }
    {
        let parts = table(alloc, files, root)?;
        let lead = lead_text(alloc, root)?;
        let fronts = fronts_of(alloc, files.as_slice(), lead.as_str(), root)?;
        let ranges = ranges_of(alloc, files, lead.as_str())?;
        Ok(Along {
            files,
            root,
            parts,
            fronts,
            lead,
            packages: files.packages_in(root),
            ranges,
        })
    }

    /// What is before a simple name in `root`.
    pub(crate) fn lead(&self) -> &Text
        ensures lead { result.now ≡ leading self.now.root }
    {
        &self.lead
    }

    /// The packages inside `root`.
    pub(crate) fn packages(&self) -> PackageRange<'a>
        ensures range { IsRange self.now.files (leading self.now.root) result }
    {
        self.packages
    }

    /// The packages that begin with the first `start` bytes of what is before a name in `root`, if they
    /// were looked for.
    pub(crate) fn packages_at(&self, start: usize) -> Option<PackageRange<'a>>
        ensures range { IfSome result (λ r. IsRange self.now.files (take start (leading self.now.root)) r) }
    {
        range_at(&self.ranges, start)
    }

    /// The number of bytes before a simple name in `root`.
    pub(crate) fn count(&self) -> usize
        ensures count { result ≡ length (leading self.now.root) }
    {
        self.lead.as_str().len()
    }

    /// How far the package of each file goes along what is before a simple name in `root`.
    pub(crate) fn fronts(&self) -> &[Common]
        ensures fronts { AreFronts result.now self.now.files self.now.root }
    {
        &self.fronts
    }

    /// The length of the innermost of the scopes from `root` outwards in which `name` is a package.
    pub(crate) fn innermost(&self, name: &str) -> Option<usize>
        requires some { 0 < length name.now }
        requires plain { (i : ℕ) → i < length name.now → get_or name.now i 0 ≢ 46 }
        ensures { result ≡ option_map length (find (λ s. is_package self.now.files (qualified s name.now)) (scopes self.now.root)) }
    {
        match last_start(&self.parts, name.as_bytes()) {
            Some(start) => Some(start.saturating_sub(1)),
            None => None,
        }
    }
}
