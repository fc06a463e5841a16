//! How far the packages of files go along that of the searching file.
//!
//! All names of a file begin with its package, which can be as long as the file. A name that goes some
//! way along the searching package is compared with those of a file after what the two packages have in
//! common. It is not looked up where the package of the file leaves that way.
ghost use Rattle.std.specs.Prelude.{◌≡◌, ◌<◌, ◌≤◌, false, get_or, length, true, IfOk};
ghost use Rattle.pq_schema.specs.aux.Fronts.{AreFronts, BothBegin, DiffersAt};
ghost use Rattle.pq_schema.specs.aux.NameParts.{leading};

use crate::names::name_order::lesser;
use crate::scope::scope::FileDefs;
use pq_names::Memory;
use std::alloc::Global;

/// A number of bytes that are the same at the beginning of two texts, and whether both go on after
/// these, each with another byte.
pub(crate) type Common = (usize, bool);

/// What `a` and `b` begin with in common.
fn common_bytes(a: &[u8], b: &[u8]) -> Common
    ensures both { BothBegin result.0 a.now b.now }
    ensures differ { result.1 ≡ true → DiffersAt result.0 a.now b.now }
{
    let most = lesser(a.len(), b.len());
    'bytes: for at in 0..most {
        if a[at] != b[at] {
            return (at, true);
        }
    }
    (most, false)
}

/// What `a` and `b` begin with in common. If `a` begins with `b`, both are compared many bytes at a time.
fn common(a: &str, b: &str) -> Common
    ensures both { BothBegin result.0 a.now b.now }
    ensures differ { result.1 ≡ true → DiffersAt result.0 a.now b.now }
{
    match a.strip_prefix(b) {
        Some(_) => (b.len(), false),
        None => common_bytes(a.as_bytes(), b.as_bytes()),
    }
}

/// What the package of each of `files` and `lead` begin with in common. `lead` is what is before a simple
/// name in the package `_root`.
pub(crate) fn fronts_of(
    alloc: Global,
    files: &[FileDefs],
    lead: &str,
    _root: &str,
) -> Result<Vec<Common>, Memory>
    requires lead { lead.now ≡ leading _root.now }
    ensures fronts { IfOk result (λ v. AreFronts v.items files.now _root.now) }
{
    let mut fronts = Vec::with_capacity(alloc, files.len())?;
    'files: for i in 0..files.len() {
        let package = files[i].defs.get().package_name();
        fronts.push(common(lead, package))?;
    }
    Ok(fronts)
}

/// The number of bytes that `fronts` has for the file at `place`, or 0, and `most` at most.
pub(crate) fn alike_at(fronts: &[Common], place: usize, most: usize) -> usize
    ensures count { result ≤ (get_or fronts.now place (0, false)).0 }
    ensures most { result ≤ most }
{
    match fronts.get(place) {
        Some(front) => lesser(front.0, most),
        None => 0,
    }
}

/// Whether `fronts` says of the file at `place` that its package has another byte before `start`.
pub(crate) fn is_apart_at(fronts: &[Common], place: usize, start: usize) -> bool
    ensures leaves { result ≡ true → (get_or fronts.now place (0, false)).1 ≡ true }
    ensures before { result ≡ true → (get_or fronts.now place (0, false)).0 < start }
{
    match fronts.get(place) {
        Some(front) => front.1 && front.0 < start,
        None => false,
    }
}
