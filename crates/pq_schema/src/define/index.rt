//! The index of definitions by full name: their names in order, each with its place.
//!
//! It is sorted by name, then by place, so the first entry of a name is its first definition. A
//! binary search finds that entry, and one walk finds all names that are repeated. Names are
//! compared by their codes first (`coded`), and names with one code from their last bytes to their
//! first. So most names are told apart by one comparison of numbers, and names of one scope without
//! a look at the scope. The names come from strangers; neither cost grows faster than N log N
//! comparisons of names, whatever their codes.
//!
//! Equal names are the dearest to compare, since all their bytes are read. So the entries are sorted
//! by code alone before: copies of a name are then side by side, in order, and the sort by name,
//! which begins with what is in order, compares each with its neighbour alone. Where long names are
//! side by side with one code, copies are found first by their scopes (`copies`). These have no
//! entries, so no such name is compared with another of the same name.
ghost use Rattle.std.specs.Prelude.{◌≡◌, ℕ, ◌<◌, ◌≤◌, true, false, length, get_or, [], cond, find, bytes_eq, IfOk};
ghost use Rattle.std.specs.Option.{option_copied};
ghost use Rattle.std.specs.Ordering.{is_eq, is_lt};
ghost use Rattle.std.specs.List.Sorted.{IsSorted};
ghost use Rattle.pq_schema.specs.aux.Copies.{AreCopies, AreDefined, full_names};
ghost use Rattle.pq_schema.specs.aux.Fronts.{AreAlike, IsMet, IsSeen};
ghost use Rattle.pq_schema.specs.aux.Index.{AreEntries, IsIndexOf, entry_order, group_start};
ghost use Rattle.pq_schema.specs.aux.NameCodes.{code_of, code_order};
ghost use Rattle.pq_schema.specs.Repeated.{AreRepeated};

use crate::Memory;
use crate::define::copies::copies_in;
use crate::define::definitions::Definition;
use crate::names::coded::Coded;
use crate::names::spelled::Spelled;
use pq_syntax::Node;
use std::alloc::Global;
use std::cmp::Ordering;

/// Whether `flags` has `true` at `n`.
fn flag_at(flags: &[bool], n: usize) -> bool
    ensures flag { result ≡ get_or flags.now n false }
{
    match flags.get(n) {
        Some(flag) => *flag,
        None => false,
    }
}

/// The entries of `definitions` by their codes, without those that `copies` tells of. It counts the
/// definitions from 1.
fn entries_without(
    alloc: Global,
    definitions: &[Definition],
    copies: &[bool],
) -> Result<Vec<(Coded, usize)>, Memory>
    requires copies { AreCopies copies.now (full_names definitions.now) }
    ensures entries { IfOk result (λ v. AreEntries v.items definitions.now (length definitions.now)) }
{
    let mut index = Vec::with_capacity(alloc, definitions.len())?;
    'places: for place in 0..definitions.len() {
        if flag_at(copies, place + 1) {
            continue;
        }
        let name = definitions[place].full_name.copy()?;
        index.push((Coded::new(name), place))?;
    }
    index.sort_by_key(|entry: &(Coded, usize)| -> u64 { entry.0.code() })?;
    Ok(index)
}

/// Whether two neighbours of `index` have one code and long names, which are dear to compare.
fn is_dear(index: &[(Coded, usize)]) -> bool {
    'entries: for i in 1..index.len() {
        if index[i - 1].0.code() == index[i].0.code() && index[i].0.is_long() {
            return true;
        }
    }
    false
}

/// Entries of `definitions`, which have the statements `nodes`, by their codes. Each name has that
/// of its first definition.
fn entries_of(
    alloc: Global,
    nodes: &[Node],
    definitions: &[Definition],
) -> Result<Vec<(Coded, usize)>, Memory>
    requires defined { AreDefined definitions.now nodes.now }
    ensures entries { IfOk result (λ v. AreEntries v.items definitions.now (length definitions.now)) }
{
    let none = Vec::new(alloc);
    let index = entries_without(alloc, definitions, &none)?;
    if !is_dear(&index) {
        return Ok(index);
    }
    let copies = copies_in(alloc, nodes)?;
    entries_without(alloc, definitions, &copies)
}

/// The index of `definitions`, which have the statements `nodes`.
pub(crate) fn index_of(
    alloc: Global,
    nodes: &[Node],
    definitions: &[Definition],
) -> Result<Vec<(Coded, usize)>, Memory>
    requires defined { AreDefined definitions.now nodes.now }
    ensures { IfOk result (λ v. IsIndexOf v.items definitions.now) }
{
    let mut index = entries_of(alloc, nodes, definitions)?;
    index.sort()?;
    Ok(index)
}

/// The first of `definitions` with the full name `name`, whose code is `code`. The name and all of
/// theirs begin with the same `count` bytes.
pub(crate) fn first_named<'a>(
    index: &[(Coded, usize)],
    definitions: &'a [Definition],
    name: &Spelled<'_>,
    code: u64,
    count: usize,
) -> Option<&'a Definition>
    requires code { code ≡ code_of name.now }
    requires index { IsIndexOf index.now definitions.now }
    requires alike { AreAlike count name.now index.now }
    ensures { option_copied result ≡ find (λ d. bytes_eq d.full_name name.now) definitions.now }
{
    let (first, seen) = lower_bound(index, name, code, count);
    if first == index.len() {
        return None;
    }
    if seen != first {
        return None;
    }
    let place = index[first].1;
    let inside = place < definitions.len();
    prove!(inside);
    Some(&definitions[place])
}

/// `place` if the order is that of equal names, else `seen`.
fn seen_at(order: Ordering, place: usize, seen: usize) -> usize
    ensures is { result ≡ cond (is_eq order) place seen }
{
    if order.is_eq() { place } else { seen }
}

/// The number of entries whose name comes before `name`, and the place of an entry that has the name.
/// It is the first such entry, if there is one. The code of `name` is `code`. The name and all theirs
/// begin with the same `count` bytes.
///
/// The entry after those before `name` was compared with it, so no names are compared after the search.
fn lower_bound(
    index: &[(Coded, usize)],
    name: &Spelled<'_>,
    code: u64,
    count: usize,
) -> (usize, usize)
    requires code { code ≡ code_of name.now }
    requires sorted { IsSorted entry_order index.now }
    requires alike { AreAlike count name.now index.now }
    ensures within { result.0 ≤ length index.now }
    ensures less { (k : ℕ) → k < result.0 →
        is_lt (code_order (get_or index.now k ([], 0)).0 name.now) ≡ true }
    ensures others { (k : ℕ) → result.0 ≤ k → k < length index.now →
        is_lt (code_order (get_or index.now k ([], 0)).0 name.now) ≡ false }
    ensures seen { IsSeen index.now name.now result.1 }
    ensures met { IsMet index.now name.now result.0 result.1 }
{
    let mut low = 0;
    let mut high = index.len();
    let mut seen = index.len();
    'halves: while low < high {
        let middle = low + (high - low) / 2;
        let order = index[middle].0.compare_alike(code, name, count);
        if order.is_lt() {
            low = middle + 1;
        } else {
            high = middle;
            seen = seen_at(order, middle, seen);
        }
    }
    (low, seen)
}

/// The first entry with the name of the entry `i`, where `first` is that of the entry before it.
fn first_of(index: &[(Coded, usize)], first: usize, i: usize) -> usize
    requires within { (first ≤ i) × (i < length index.now) }
    ensures first { result ≡ group_start index.now first i }
{
    if index[first].0 == index[i].0 {
        first
    } else {
        i
    }
}

/// Of each of `definitions`, whether one before it has its full name. One that has no entry is such
/// a copy. Entries of one name are neighbours, so one walk over `index` finds the others.
pub(crate) fn repeated(
    alloc: Global,
    index: &[(Coded, usize)],
    definitions: &[Definition],
) -> Result<Vec<bool>, Memory>
    requires { IsIndexOf index.now definitions.now }
    ensures repeated { IfOk result (λ v. AreRepeated v.items definitions.now) }
{
    let mut repeated = vec![in alloc; true; definitions.len()]?;
    let mut first = 0;
    'entries: for i in 0..index.len() {
        first = first_of(index, first, i);
        let place = index[i].1;
        let inside = place < repeated.len();
        prove!(inside);
        repeated[place] = index[first].1 < place;
    }
    Ok(repeated)
}
