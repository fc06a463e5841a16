//! The folders that a `buf.work.yaml` or a `buf.yaml` names as roots of imports.
//!
//! The kit has no YAML library. This reads line by line just the forms in which these files are
//! written: a key at the start of a line, and below it a list of one item a line, or in square
//! brackets on the line of the key. Scalars are plain, or quoted with no escape in them. Anchors,
//! tags, block scalars, lists in lists and lists in brackets over several lines name nothing. That the folders are
//! those of the file is held by tests; that each lies below the file's own folder is proved.
ghost use Rattle.std.specs.Prelude.{◌≡◌, List, ℕ, true, IfOk, OnOk};
ghost use Rattle.std.specs.List.{All};
ghost use Rattle.pq_view.specs.Folders.{is_folder};

use crate::tails::is_plain;
use pq_names::{Memory, Text};
use std::alloc::Global;

/// Which file of the build tool is read.
#[derive(Clone, Copy, PartialEq, Eq)]
pub enum BufFile {
    /// `buf.work.yaml`, whose key `directories` lists folders.
    Work,
    /// `buf.yaml`, whose key `modules` lists items with a `path` each.
    Module,
}

/// Where the reading is: whether the list of the key is read, in which column its dashes stand, and
/// in which column the keys of its last item begin.
#[derive(Clone, Copy)]
struct Place {
    in_list: bool,
    dash: Option<usize>,
    keys: usize,
}

/// `text` before a comment.
fn before_comment(text: &str) -> &str {
    if text.starts_with('#') {
        return "";
    }
    match text.split_once(" #") {
        Some((before, _)) => before,
        None => text,
    }
}

/// What is between the quote at the start of `text` and the next one, or nothing where that cannot
/// be read.
fn quoted(text: &str, quote: char) -> &str {
    match text.split_once(quote) {
        Some((inner, _)) => { if inner.contains('\\') { "" } else { inner } }
        None => "",
    }
}

/// The scalar at the start of `text`, or nothing.
fn scalar(text: &str) -> &str {
    let text = text.trim();
    if let Some(rest) = text.strip_prefix('"') {
        return quoted(rest, '"');
    }
    if let Some(rest) = text.strip_prefix('\'') {
        return quoted(rest, '\'');
    }
    let plain = before_comment(text).trim_end();
    if plain.starts_with("- ") {
        return "";
    }
    match plain.as_bytes().first() {
        Some(b'&' | b'*' | b'!' | b'|' | b'>' | b'[' | b'{' | b'%' | b'@' | b'`') => "",
        _ => plain,
    }
}

/// The value of the line `text`, if its key is `key`.
fn value_of<'a>(text: &'a str, key: &str) -> Option<&'a str> {
    let (name, value) = text.split_once(':')?;
    let is_end = value.is_empty() || value.starts_with(' ') || value.starts_with('\t');
    if is_end && scalar(name) == key {
        Some(value)
    } else {
        None
    }
}

/// Adds the folder that the scalar at the start of `text` names, if it lies below the file's own or
/// is that one.
fn push_folder(alloc: Global, folders: &mut Vec<Text>, text: &str) -> Result<(), Memory>
    ensures folders { OnOk result (All (λ f. is_folder f ≡ true) folders.old.items →
        All (λ f. is_folder f ≡ true) folders.new.items) }
{
    let named = scalar(text);
    let mut folder = named.strip_prefix("./").unwrap_or(named);
    folder = folder.strip_suffix('/').unwrap_or(folder);
    if named == "." || named == "./" {
        folders.push(Text::new(alloc, "")?)?;
    } else if is_plain(folder) {
        folders.push(Text::new(alloc, folder)?)?;
    }
    Ok(())
}

/// Adds the folder of the item or line `text`, if its key is `path`.
fn push_path(alloc: Global, folders: &mut Vec<Text>, text: &str) -> Result<(), Memory>
    ensures folders { OnOk result (All (λ f. is_folder f ≡ true) folders.old.items →
        All (λ f. is_folder f ≡ true) folders.new.items) }
{
    match value_of(text, "path") {
        Some(value) => push_folder(alloc, folders, value),
        None => Ok(()),
    }
}

/// Adds the folders of the list in brackets at the start of `text`.
fn push_inline(alloc: Global, folders: &mut Vec<Text>, text: &str) -> Result<(), Memory>
    ensures folders { OnOk result (All (λ f. is_folder f ≡ true) folders.old.items →
        All (λ f. is_folder f ≡ true) folders.new.items) }
{
    let Some(rest) = text.strip_prefix('[') else {
        return Ok(());
    };
    let Some((items, _)) = rest.split_once(']') else {
        return Ok(());
    };
    'items: for item in items.split(',') {
        push_folder(alloc, folders, item)?;
    }
    Ok(())
}

/// Outside the list.
fn outside() -> Place {
    Place {
        in_list: false,
        dash: None,
        keys: 0,
    }
}

/// Reads the line `text` that begins without a blank and is no item.
fn read_key(
    alloc: Global,
    folders: &mut Vec<Text>,
    file: BufFile,
    text: &str,
) -> Result<Place, Memory>
    ensures folders { OnOk result (All (λ f. is_folder f ≡ true) folders.old.items →
        All (λ f. is_folder f ≡ true) folders.new.items) }
{
    let is_work = file == BufFile::Work;
    let key = if is_work { "directories" } else { "modules" };
    let Some(value) = value_of(text, key) else {
        return Ok(outside());
    };
    if is_work {
        push_inline(alloc, folders, value.trim())?;
    }
    Ok(Place {
        in_list: true,
        dash: None,
        keys: 0,
    })
}

/// What follows the dash of the item `text`, if it is one.
fn item_of(text: &str) -> Option<&str> {
    let rest = text.strip_prefix('-')?;
    if rest.is_empty() || rest.starts_with(' ') || rest.starts_with('\t') {
        Some(rest)
    } else {
        None
    }
}

/// Reads the line `line`, an item with its dash in the column `indent` and `item` after the dash. An
/// item of another list than that of the key names nothing.
fn read_item(
    alloc: Global,
    folders: &mut Vec<Text>,
    file: BufFile,
    place: Place,
    line: &str,
    indent: usize,
    item: &str,
) -> Result<Place, Memory>
    ensures folders { OnOk result (All (λ f. is_folder f ≡ true) folders.old.items →
        All (λ f. is_folder f ≡ true) folders.new.items) }
{
    if !place.in_list || place.dash.unwrap_or(indent) != indent {
        return Ok(place);
    }
    let item = item.trim_start();
    match file {
        BufFile::Work => push_folder(alloc, folders, item)?,
        BufFile::Module => push_path(alloc, folders, item)?,
    }
    Ok(Place {
        in_list: true,
        dash: Some(indent),
        keys: line.len().saturating_sub(item.len()),
    })
}

/// Reads a line.
fn read_line(
    alloc: Global,
    folders: &mut Vec<Text>,
    file: BufFile,
    place: Place,
    line: &str,
) -> Result<Place, Memory>
    ensures folders { OnOk result (All (λ f. is_folder f ≡ true) folders.old.items →
        All (λ f. is_folder f ≡ true) folders.new.items) }
{
    let text = line.trim_start();
    if text.is_empty() || text.starts_with('#') {
        return Ok(place);
    }
    let indent = line.len().saturating_sub(text.len());
    if let Some(item) = item_of(text) {
        return read_item(alloc, folders, file, place, line, indent, item);
    }
    if indent == 0 {
        return read_key(alloc, folders, file, text);
    }
    if place.in_list && file == BufFile::Module && indent == place.keys {
        push_path(alloc, folders, text)?;
    }
    Ok(place)
}

/// The folders that the text of a file of the build tool names as roots of imports, relative to the
/// file's own folder, which is the empty text. They come in the order of the file.
///
/// A `buf.work.yaml` lists them below `directories`, and a `buf.yaml` of version 2 as the `path` of
/// each of its `modules`. One of version 1 names none. A folder that is absolute, or has an empty
/// part, `.` or `..`, is left out; `./` before a folder and `/` after it are taken off. What is not
/// written in one of the forms in the head of this module names nothing.
///
/// It takes time linear in the text. `Memory` comes if an allocation fails.
pub fn named_folders(alloc: Global, file: BufFile, text: &str) -> Result<Vec<Text>, Memory>
    // Each folder lies below the file's own, or is that one.
    ensures folders { IfOk result (λ folders. All (λ folder. is_folder folder ≡ true) folders.items) }
{
    let text = text.strip_prefix('\u{feff}').unwrap_or(text);
    let mut folders = Vec::new(alloc);
    let mut place = outside();
    'lines: for line in text.lines() {
        place = read_line(alloc, &mut folders, file, place, line)?;
    }
    Ok(folders)
}
