//! What changed between two looks at the disk.
//!
//! A look sees of each file what the file system tells of it without its text. The paths to read
//! again after a look are those where it differs from the look before. A file that was changed
//! shortly before the look before is read again too, since a later change may leave the same times.
ghost use Rattle.std.specs.Prelude.{◌≡◌, ◌↔◌, ◌++◌, ℕ, List, length, bytes_eq, Contains, None, IsTrue, IfOk, OnOk, OnErr, option_copied, option_map};
ghost use Rattle.std.specs.List.{IsDistinct, filter};
ghost use Rattle.pq_view.specs.Looks.{is_fresh, is_news, is_same_stamp, look_at, paths_seen, with_look};
ghost use Rattle.pq_view.specs.aux.Known.{paths_of};
ghost use Rattle.pq_view.specs.aux.News.{is_gone, is_news_at};

use pq_names::{Memory, Text};
use std::alloc::Global;
use std::collections::BTreeMap;

/// How many seconds after a change a file is fresh: file systems with coarse clocks give two
/// changes within this time the same times.
const FRESH_SECONDS: i64 = 2;

/// What the file system tells of a file without its text.
#[derive(Clone, Copy, Debug, PartialEq, Eq)]
pub struct Stamp {
    /// The number of the device.
    pub device: u64,
    /// The number of the file on the device.
    pub inode: u64,
    /// The length of the text in bytes.
    pub size: u64,
    /// When the text was last changed, in seconds of the file system's clock.
    pub modified_seconds: i64,
    /// The nanoseconds of that time.
    pub modified_nanos: i64,
    /// When the entry was last changed, in seconds. No program can set this time back.
    pub changed_seconds: i64,
    /// The nanoseconds of that time.
    pub changed_nanos: i64,
}

/// What a look saw of a file.
#[derive(Clone, Copy)]
pub(crate) struct Look {
    stamp: Stamp,
    is_fresh: bool,
}

/// What one look at the disk saw: the files that were there.
///
/// Contracts see it by `look_at`, as a function from paths to looks.
#[derive(Drop)]
pub struct Looks {
    alloc: Global,
    files: BTreeMap<String, Look>,
}

/// Whether a file with `stamp` was changed shortly before the second `now`, or after it.
fn is_fresh(stamp: Stamp, now: i64) -> bool
    ensures fresh { result ≡ is_fresh stamp now }
{
    now.saturating_sub(FRESH_SECONDS) <= stamp.changed_seconds
}

/// Whether two stamps are the same.
fn is_same_stamp(a: &Stamp, b: &Stamp) -> bool
    ensures same { result ≡ is_same_stamp a.now b.now }
{
    a == b
}

/// Whether a file has to be read again after the later of two looks.
fn is_news(earlier: Option<&Look>, later: Option<&Look>) -> bool
    ensures news { result ≡ is_news (option_copied earlier.entry) (option_copied later.entry) }
{
    match (earlier, later) {
        (None, None) => false,
        (Some(a), Some(b)) => a.is_fresh || !is_same_stamp(&a.stamp, &b.stamp),
        _ => true,
    }
}

/// Whether the file at `path` has to be read again.
fn is_news_at(earlier: &BTreeMap<String, Look>, later: &BTreeMap<String, Look>, path: &str) -> bool
    ensures news { result ≡ is_news_at earlier.now later.now path.now }
{
    is_news(earlier.get(path), later.get(path))
}

/// Adds the paths of `later` to read again.
fn push_changed(
    alloc: Global,
    news: &mut Vec<Text>,
    earlier: &BTreeMap<String, Look>,
    later: &BTreeMap<String, Look>,
) -> Result<(), Memory>
    ensures added { OnOk result (news.new.items
        ≡ news.old.items ++ filter (is_news_at earlier.now later.now) (paths_of later.now)) }
    ensures once { OnOk result (IsDistinct bytes_eq (paths_of later.now)) }
{
    'paths: for path in later.keys() {
        let path = path.as_str();
        if is_news_at(earlier, later, path) {
            news.push(Text::new(alloc, path)?)?;
        }
    }
    Ok(())
}

/// Whether there is no file at `path`.
fn is_gone(later: &BTreeMap<String, Look>, path: &str) -> bool
    ensures gone { result ≡ is_gone later.now path.now }
{
    !later.contains_key(path)
}

/// Adds the paths of `earlier` that `later` has no more.
fn push_gone(
    alloc: Global,
    news: &mut Vec<Text>,
    earlier: &BTreeMap<String, Look>,
    later: &BTreeMap<String, Look>,
) -> Result<(), Memory>
    ensures added { OnOk result (news.new.items
        ≡ news.old.items ++ filter (is_gone later.now) (paths_of earlier.now)) }
    ensures once { OnOk result (IsDistinct bytes_eq (paths_of earlier.now)) }
{
    'paths: for path in earlier.keys() {
        let path = path.as_str();
        if is_gone(later, path) {
            news.push(Text::new(alloc, path)?)?;
        }
    }
    Ok(())
}

impl Looks {
    /// A look that saw nothing. It takes its memory from `alloc`.
    pub fn new(alloc: Global) -> Looks
        // There is no file.
        ensures empty { (path : List ℕ) → look_at result path ≡ None }
    {
        Looks {
            alloc,
            files: BTreeMap::new(alloc),
        }
    }

    /// How many files were seen.
    pub fn len(&self) -> usize
        // The number of the paths at which a file was seen.
        ensures len { result ≡ length (paths_seen self.now) }
    {
        self.files.len()
    }

    /// The file at `path` was there with `stamp`, at the second `now` of the file system's clock.
    ///
    /// With N files it takes log N comparisons. `Memory` comes if an allocation fails, and then all
    /// is as it was.
    pub fn see(&mut self, path: &str, stamp: Stamp, now: i64) -> Result<(), Memory>
        // The file has the stamp, and is fresh if it was changed shortly before. All others are as
        // before.
        ensures seen { OnOk result ((q : List ℕ) → look_at self.new q
            ≡ with_look path.now (record { stamp = stamp; is_fresh = is_fresh stamp now }) (look_at self.old) q) }
        // After an error all is as it was.
        ensures refused { OnErr result ((q : List ℕ) → look_at self.new q ≡ look_at self.old q) }
    {
        let key = String::from_str(self.alloc, path)?;
        let is_fresh = is_fresh(stamp, now);
        self.files.insert(key, Look { stamp, is_fresh })?;
        Ok(())
    }

    /// What the look saw of the file at `path`, or `None` if no file was there.
    pub fn stamp(&self, path: &str) -> Option<Stamp>
        // The stamp of what was seen at the path.
        ensures stamp { result ≡ option_map (λ look. look.stamp) (look_at self.now path.now) }
    {
        match self.files.get(path) {
            Some(look) => Some(look.stamp),
            None => None,
        }
    }

    /// Whether the file at `path` has to be read again after this look, where `earlier` is the look
    /// before.
    pub fn is_news(&self, earlier: &Looks, path: &str) -> bool
        // Whether the file is news.
        ensures news { result ≡ is_news (look_at earlier.now path.now) (look_at self.now path.now) }
    {
        is_news(earlier.files.get(path), self.files.get(path))
    }

    /// The paths to read again after this look, where `earlier` is the look before: of files that
    /// are new or gone, whose stamps differ, or that were fresh. The paths of this look come first,
    /// then those of files that are gone, both in byte order.
    ///
    /// With N files it takes N log N comparisons. `Memory` comes if an allocation fails.
    pub fn news(&self, earlier: &Looks) -> Result<Vec<Text>, Memory>
        // `news`, `once`: a path is among them exactly if its file is news, and comes once.
        ensures news { IfOk result (λ news. (path : List ℕ) → Contains news.items path
            ↔ IsTrue (is_news (look_at earlier.now path) (look_at self.now path))) }
        ensures once { IfOk result (λ news. IsDistinct bytes_eq news.items) }
    {
        let mut news = Vec::new(self.alloc);
        push_changed(self.alloc, &mut news, &earlier.files, &self.files)?;
        push_gone(self.alloc, &mut news, &earlier.files, &self.files)?;
        Ok(news)
    }
}
