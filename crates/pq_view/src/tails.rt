//! The root that a missing import shows: the folder below which the nearest file of that name lies.
//!
//! The paths are kept in the order of their bytes from the last to the first. So those that end with
//! a slash and a name lie next to each other. With N paths, of which M end so, a question takes
//! log N + M comparisons. All names together end no more paths than there are components in them, so
//! names that are chosen to be costly cost no more than their paths.
ghost use Rattle.std.specs.Prelude.{◌≡◌, ◌↔◌, ◌||◌, ℕ, List, None, bytes_eq, Contains, IfOk, OnOk, option_copied};
ghost use Rattle.std.specs.List.{list_any};
ghost use Rattle.pq_view.specs.Nearest.{IsRootOf, common_folder, is_no_step, is_plain};
ghost use Rattle.pq_view.specs.aux.Tails.{IsRoot, bound, chosen, ending, nearer, texts_of};

use crate::reversed::{Reversed, reversed_bytes};
use pq_names::{Memory, Text};
use std::alloc::Global;
use std::cmp::Ordering;
use std::collections::BTreeMap;
use std::marker::Model;

/// Paths that are searched by their last components.
///
/// Contracts see the list of them, in the order of the bytes from the last to the first.
#[derive(Drop)]
pub struct Tails {
    alloc: Global,
    paths: BTreeMap<Reversed, Text>,
}

impl Model for Tails {
    ghost use Rattle.std.specs.Prelude.{List, ℕ};
    ghost use Rattle.pq_view.specs.aux.Tails.{AreReversed, texts_of};

    ghost Value = { List (List ℕ) };

    ghost view = { λ t. texts_of t.paths.entries };

    ghost invariant = { λ t. AreReversed t.paths.entries };
}

/// Whether `part` leads from a folder to nothing in it.
fn is_no_step(part: &str) -> bool
    ensures { result ≡ is_no_step part.now }
{
    part == "" || part == "." || part == ".."
}

/// Whether each part of `name` between slashes leads to a file or folder.
pub(crate) fn is_plain(name: &str) -> bool
    ensures { result ≡ is_plain name.now }
{
    !name.split('/').any(|part| is_no_step(part))
}

/// The length in bytes of the longest folder in which the files at `a` and `b` lie, with the slash
/// at its end.
fn common_folder(a: &[u8], b: &[u8]) -> usize
    ensures { result ≡ common_folder a.now b.now }
{
    let mut common = 0;
    'bytes: for index in 0..a.len() {
        if index >= b.len() {
            return common;
        }
        if a[index] != b[index] {
            return common;
        }
        if a[index] == b'/' {
            common = index + 1;
        }
    }
    common
}

/// `path`, if it is nearer to `importer` than `best` is, else `best`.
fn nearer<'a>(importer: &str, best: Option<&'a Text>, path: &'a Text) -> Option<&'a Text>
    ensures { option_copied result ≡ nearer importer.now (option_copied best.entry) path.now }
{
    let Some(best) = best else {
        return Some(path);
    };
    let importer = importer.as_bytes();
    let far = common_folder(importer, best.as_str().as_bytes());
    let near = common_folder(importer, path.as_str().as_bytes());
    match far.cmp(&near).then_with(|| path.cmp(best)) {
        Ordering::Less => Some(path),
        _ => Some(best),
    }
}

/// The bytes of `name` from the last to the first, and `end`.
fn bound(alloc: Global, name: &str, end: u8) -> Result<Reversed, Memory>
    ensures bound { IfOk result (λ key. key ≡ bound name.now end) }
{
    let mut bytes = reversed_bytes(alloc, name)?;
    bytes.push(end)?;
    Ok(Reversed { bytes })
}

/// The path that is nearest to `importer` of those that end with a slash and `name`.
fn nearest<'a>(
    alloc: Global,
    paths: &'a BTreeMap<Reversed, Text>,
    importer: &str,
    name: &str,
) -> Result<Option<&'a Text>, Memory>
    ensures chosen { IfOk result (λ path. option_copied path
        ≡ chosen importer.now None (texts_of (ending paths.now name.now))) }
{
    let from = bound(alloc, name, b'/')?;
    let to = bound(alloc, name, b'/' + 1)?;
    let mut best = None;
    'paths: for (_, path) in paths.range(from..to) {
        best = nearer(importer, best, path);
    }
    Ok(best)
}

/// The folder below which the file at `path` has the name `name`.
fn root_below<'a>(path: &'a str, name: &str) -> Option<&'a str>
    ensures root { IsRoot path.now name.now (option_copied result) }
{
    match path.strip_suffix(name) {
        Some(front) => front.strip_suffix('/'),
        None => None,
    }
}

impl Tails {
    /// The paths `paths`, to be searched. They take their memory from `alloc`.
    ///
    /// With N paths it takes N log N comparisons. `Memory` comes if an allocation fails.
    pub fn of(alloc: Global, paths: &[Text]) -> Result<Tails, Memory>
        // A path is among them exactly if it is one of `paths`.
        ensures paths { IfOk result (λ tails. (path : List ℕ) → Contains tails path ↔ Contains paths.now path) }
    {
        let mut tails = Tails {
            alloc,
            paths: BTreeMap::new(alloc),
        };
        'paths: for path in paths {
            tails.add(path.copy()?)?;
        }
        Ok(tails)
    }

    /// Adds `path`.
    fn add(&mut self, path: Text) -> Result<(), Memory>
        ensures added { OnOk result ((q : List ℕ) → list_any (bytes_eq q) self.new ≡ (bytes_eq q path || list_any (bytes_eq q) self.old)) }
    {
        let bytes = reversed_bytes(self.alloc, path.as_str())?;
        self.paths.insert(Reversed { bytes }, path)?;
        Ok(())
    }

    /// The root that a missing import of `name` shows: the folder below which the file of that name
    /// lies that is nearest to the file at `importer`, or `None` if no path ends with a slash and
    /// `name`. The root of the file system is the empty text.
    ///
    /// The nearest is the one with the longest common folder, counted in bytes of whole components,
    /// and of those the least by bytes. A name with an empty part, `.` or `..` between slashes has
    /// no root, nor has a name that begins with a slash.
    ///
    /// With N paths, of which M end so, it takes log N + M comparisons. `Memory` comes if an
    /// allocation fails.
    pub fn root_of(&self, importer: &str, name: &str) -> Result<Option<Text>, Memory>
        // The file below the root is among the paths, and no other one of that name is nearer.
        // `None` comes exactly if the name is not plain, or no path ends so.
        ensures root { IfOk result (λ root. IsRootOf self.now importer.now name.now root) }
    {
        if !is_plain(name) {
            return Ok(None);
        }
        let Some(path) = nearest(self.alloc, &self.paths, importer, name)? else {
            return Ok(None);
        };
        match root_below(path.as_str(), name) {
            Some(root) => Ok(Some(Text::new(self.alloc, root)?)),
            None => Ok(None),
        }
    }
}
