//! The roots of a session: the folders from which imports are written, in order.
//!
//! First come those of the command line. Then come the folders of the editor, each after the folders that
//! its file of the tool `buf` names; then the roots that missing imports show, and the folders of
//! documents that lie below none of these. The last is the folder with the well-known types. Of equal
//! roots the first counts.
use crate::editor::disk::Disk;
use crate::library::joined;
use pq_session::Memory;
use pq_view::{BufFile, Text, named_folders, shown_path};
use std::alloc::Global;

/// The most bytes of a file of `buf` that is read.
const MOST_BYTES: u64 = 65_536;

/// The most roots that missing imports show, and the most that are folders of documents: each name is
/// looked for below each root.
const MOST_ADDED: usize = 64;

/// A folder, and how it is shown.
#[derive(Drop)]
pub(crate) struct Place {
    /// Its path with all links followed, without a slash at its end.
    pub(crate) root: Text,
    /// Its path as the editor or the command line writes it, without a slash at its end.
    pub(crate) face: Text,
}

impl Place {
    /// The same place.
    pub(crate) fn copy(&self) -> Result<Place, Memory> {
        Ok(Place {
            root: self.root.copy()?,
            face: self.face.copy()?,
        })
    }
}

/// A folder of the editor.
#[derive(Drop)]
struct Folder {
    place: Place,
    /// What its file of `buf` names.
    named: Vec<Place>,
}

/// The roots of a session.
#[derive(Drop)]
pub(crate) struct Roots {
    alloc: Global,
    /// Those of the command line.
    given: Vec<Place>,
    folders: Vec<Folder>,
    /// Those that missing imports show.
    found: Vec<Place>,
    /// The folders of documents.
    own: Vec<Place>,
    last: Option<Place>,
    /// Whether those of the command line and the last are all.
    is_only: bool,
}

/// Places in order, of equal roots the first.
#[derive(Drop)]
struct Order {
    roots: Vec<Text>,
    faces: Vec<Text>,
}

impl Order {
    /// No place.
    fn new(alloc: Global) -> Order {
        Order {
            roots: Vec::new(alloc),
            faces: Vec::new(alloc),
        }
    }

    /// Whether `root` is among them.
    fn has(&self, root: &str) -> bool {
        self.roots.iter().any(|it| it.as_str() == root)
    }

    /// Adds `place`, if its root is new.
    fn add(&mut self, place: &Place) -> Result<(), Memory> {
        if !self.has(place.root.as_str()) {
            self.roots.push(place.root.copy()?)?;
            self.faces.push(place.face.copy()?)?;
        }
        Ok(())
    }

    /// Adds `places` in their order.
    fn add_all(&mut self, places: &[Place]) -> Result<(), Memory> {
        for place in places {
            self.add(place)?;
        }
        Ok(())
    }
}

impl Roots {
    /// No roots. With `is_only` none but those of the command line and the last are added later.
    pub(crate) fn new(alloc: Global, is_only: bool) -> Roots {
        Roots {
            alloc,
            given: Vec::new(alloc),
            folders: Vec::new(alloc),
            found: Vec::new(alloc),
            own: Vec::new(alloc),
            last: None,
            is_only,
        }
    }

    /// Adds a root of the command line.
    pub(crate) fn add_given(&mut self, place: Place) -> Result<(), Memory> {
        self.given.push(place)?;
        Ok(())
    }

    /// Sets the last root.
    pub(crate) fn set_last(&mut self, place: Place) {
        self.last = Some(place);
    }

    /// Adds the folder of the editor at `place`, and before it `named`, what its file of `buf` names. A
    /// folder that is there stays as it is.
    pub(crate) fn add_folder(&mut self, place: Place, named: Vec<Place>) -> Result<(), Memory> {
        if self.is_only || self.has_folder(place.root.as_str()) {
            return Ok(());
        }
        self.folders.push(Folder { place, named })?;
        Ok(())
    }

    /// Takes out the folder of the editor whose path is `root`, and what its file of `buf` named.
    pub(crate) fn remove_folder(&mut self, root: &str) {
        let place = self
            .folders
            .iter()
            .position(|it| it.place.root.as_str() == root);
        if let Some(place) = place {
            self.folders.remove(place);
        }
    }

    /// Whether `root` is the path of a folder of the editor.
    fn has_folder(&self, root: &str) -> bool {
        self.folders.iter().any(|it| it.place.root.as_str() == root)
    }

    /// Adds the root `root` that a missing import shows. Returns whether it did: it is not among the roots,
    /// others than those of the command line may be added, and there is room.
    pub(crate) fn add_found(&mut self, root: Text) -> Result<bool, Memory> {
        if self.is_only || self.found.len() >= MOST_ADDED {
            return Ok(false);
        }
        let order = self.whole_order()?;
        if order.has(root.as_str()) {
            return Ok(false);
        }
        let face = shown_path(self.alloc, &order.roots, &order.faces, root.as_str())?;
        let face = Text::from_string(self.alloc, face)?;
        self.found.push(Place { root, face })?;
        Ok(true)
    }

    /// Adds the folder of the document at `path`, which the editor writes as `face`, if it lies below no
    /// root but the last, and there is room. Returns whether it did. The root of the file system is not added.
    pub(crate) fn add_own(&mut self, path: &str, face: &str) -> Result<bool, Memory> {
        let root = folder_of(path);
        let is_full = self.is_only || self.own.len() >= MOST_ADDED;
        if is_full || root.is_empty() || self.is_covered(path)? {
            return Ok(false);
        }
        self.own.push(Place {
            root: Text::new(self.alloc, root)?,
            face: Text::new(self.alloc, folder_of(face))?,
        })?;
        Ok(true)
    }

    /// Whether `path` lies below a root, but for the last.
    fn is_covered(&self, path: &str) -> Result<bool, Memory> {
        let order = self.order_before_last()?;
        Ok(order.roots.iter().any(|it| is_below(path, it.as_str())))
    }

    /// All roots in order: their paths, and how they are shown.
    pub(crate) fn order(&self) -> Result<(Vec<Text>, Vec<Text>), Memory> {
        let Order { roots, faces } = self.whole_order()?;
        Ok((roots, faces))
    }

    /// All roots in order.
    fn whole_order(&self) -> Result<Order, Memory> {
        let mut order = self.order_before_last()?;
        if let Some(last) = &self.last {
            order.add(last)?;
        }
        Ok(order)
    }

    /// The roots before the last in order.
    fn order_before_last(&self) -> Result<Order, Memory> {
        let mut order = Order::new(self.alloc);
        order.add_all(&self.given)?;
        for folder in &self.folders {
            order.add_all(&folder.named)?;
            order.add(&folder.place)?;
        }
        order.add_all(&self.found)?;
        order.add_all(&self.own)?;
        Ok(order)
    }

    /// The folders below which files are looked for: those of the command line, of the editor and of
    /// documents, each once.
    pub(crate) fn tops(&self) -> Result<Vec<Text>, Memory> {
        let mut order = Order::new(self.alloc);
        order.add_all(&self.given)?;
        for folder in &self.folders {
            order.add(&folder.place)?;
        }
        order.add_all(&self.own)?;
        let Order { roots, .. } = order;
        Ok(roots)
    }
}

/// The folder of the file at `path`.
fn folder_of(path: &str) -> &str {
    match path.rsplit_once('/') {
        Some((folder, _)) => folder,
        None => "",
    }
}

/// Whether `path` lies below the folder `root`.
fn is_below(path: &str, root: &str) -> bool {
    match path.strip_prefix(root) {
        Some(rest) => rest.starts_with('/'),
        None => false,
    }
}

/// The place of the folder that is written as `face`. What cannot be followed is taken as it is written.
/// The empty text is the root of the file system.
pub(crate) fn place_of<D: Disk>(disk: &D, alloc: Global, face: &str) -> Result<Place, Memory> {
    if face.is_empty() {
        return Ok(Place {
            root: Text::new(alloc, "")?,
            face: Text::new(alloc, "")?,
        });
    }
    let face = match disk.whole_path(face) {
        Some(path) => path,
        None => String::from_str(alloc, face)?,
    };
    let face = face.trim_end_matches('/');
    Ok(Place {
        root: followed(disk, alloc, face)?,
        face: Text::new(alloc, face)?,
    })
}

/// The folder `path` with all links followed, without a slash at its end. What cannot be followed is
/// taken as it is written.
fn followed<D: Disk>(disk: &D, alloc: Global, path: &str) -> Result<Text, Memory> {
    match disk.real_path(path) {
        Some(found) => Text::new(alloc, found.trim_end_matches('/')),
        None => Text::new(alloc, path),
    }
}

/// The folders that the file of `buf` at the top of `place` names as roots: its `buf.work.yaml`, else its
/// `buf.yaml`. A file that is long or cannot be read counts as absent.
pub(crate) fn named_by_buf<D: Disk>(
    disk: &D,
    alloc: Global,
    place: &Place,
) -> Result<Vec<Place>, Memory> {
    let mut named = Vec::new(alloc);
    for folder in buf_folders(disk, alloc, place.root.as_str())? {
        named.push(place_below(disk, alloc, place, folder.as_str())?)?;
    }
    Ok(named)
}

/// The folders that the file of `buf` in the folder `root` names, relative to it.
fn buf_folders<D: Disk>(disk: &D, alloc: Global, root: &str) -> Result<Vec<Text>, Memory> {
    if let Some(text) = buf_text(disk, alloc, root, "/buf.work.yaml")? {
        return named_folders(alloc, BufFile::Work, text.as_str());
    }
    match buf_text(disk, alloc, root, "/buf.yaml")? {
        Some(text) => named_folders(alloc, BufFile::Module, text.as_str()),
        None => Ok(Vec::new(alloc)),
    }
}

/// The text of the file `name`, which begins with a slash, in the folder `root`, if it can be read and is
/// not too long.
fn buf_text<D: Disk>(
    disk: &D,
    alloc: Global,
    root: &str,
    name: &str,
) -> Result<Option<String>, Memory> {
    let path = joined(alloc, root, name)?;
    let is_read = match disk.file_at(path.as_str()) {
        Some(stamp) => stamp.size <= MOST_BYTES,
        None => false,
    };
    if !is_read {
        return Ok(None);
    }
    match disk.text_at(path.as_str()) {
        Ok(text) => Ok(text),
        Err(failure) if failure.is_memory() => Err(Memory),
        Err(_) => Ok(None),
    }
}

/// The place of `folder`, which is relative to `place`. The empty text is `place` itself.
fn place_below<D: Disk>(
    disk: &D,
    alloc: Global,
    place: &Place,
    folder: &str,
) -> Result<Place, Memory> {
    if folder.is_empty() {
        return place.copy();
    }
    let root = below(alloc, place.root.as_str(), folder)?;
    let face = below(alloc, place.face.as_str(), folder)?;
    Ok(Place {
        root: followed(disk, alloc, root.as_str())?,
        face: Text::from_string(alloc, face)?,
    })
}

/// The path of `folder` below the folder `root`.
fn below(alloc: Global, root: &str, folder: &str) -> Result<String, Memory> {
    let path = joined(alloc, root, "/")?;
    joined(alloc, path.as_str(), folder)
}
