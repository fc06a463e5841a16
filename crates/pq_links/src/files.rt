//! What a file of the sources is read as.
ghost use Rattle.std.specs.Prelude.{◌≡◌, option_copied, IfOk};
ghost use Rattle.pq_lex.specs.aux.LineMarks.{lines_of};
ghost use Rattle.pq_syntax.specs.aux.Parsed.{parsed};
ghost use Rattle.pq_links.specs.Files.{braces_of, nothing_shown, read_file, shown_of};
ghost use Rattle.pq_links.specs.declared.files.ParsedFile.TheVariants.{Present};

use crate::Memory;
use pq_lex::LineIndex;
use pq_syntax::{File, Parsed, is_other_version, parse, read_loosely};
use std::alloc::Global;

/// What is shown of a text that has an error. Nothing is shown of a text with a tree, and nothing
/// where braces are not read.
#[derive(Drop, PartialEq, Eq)]
pub struct Shown {
    /// The statements that braces show.
    pub nodes: File,
    /// Whether the text is of another version of the language: proto2 or an edition.
    pub is_other: bool,
}

/// What a file is read as. `==` holds exactly where contracts see the same.
#[derive(Drop, PartialEq, Eq)]
pub enum ParsedFile {
    /// The sources have no such file.
    Absent,
    /// The file has a text.
    Present {
        /// The tree of the text, or its first error.
        parsed: Parsed,
        /// What is shown of the text beside its first error.
        shown: Shown,
        /// The lines of the text, which turn offsets into positions and back.
        lines: LineIndex,
    },
}

/// What is shown of a text whose braces are not read.
fn nothing_shown(alloc: Global) -> Shown
    ensures none { result ≡ nothing_shown }
{
    Shown {
        nodes: File::new(Vec::new(alloc)),
        is_other: false,
    }
}

/// What is shown of `text`, which has an error, if its braces are read.
fn braces_of(alloc: Global, loose: bool, text: &str) -> Result<Shown, Memory>
    ensures shown { IfOk result (λ s. s ≡ braces_of loose text.now) }
{
    if !loose {
        return Ok(nothing_shown(alloc));
    }
    let nodes = read_loosely(alloc, text)?;
    let is_other = is_other_version(alloc, text)?;
    Ok(Shown { nodes, is_other })
}

/// What is shown of `text` beside its tree or error `parsed`.
fn shown_of(alloc: Global, loose: bool, text: &str, parsed: &Parsed) -> Result<Shown, Memory>
    ensures shown { IfOk result (λ s. s ≡ shown_of loose text.now parsed.now) }
{
    match parsed {
        Parsed::Tree(_) => Ok(nothing_shown(alloc)),
        Parsed::Fault { .. } => braces_of(alloc, loose, text),
    }
}

/// Reads `text`, in time linear in it.
fn read_text(alloc: Global, loose: bool, text: &str) -> Result<ParsedFile, Memory>
    ensures file { IfOk result (λ f. f ≡ Present (parsed text.now) (shown_of loose text.now (parsed text.now)) (lines_of text.now)) }
{
    let parsed = parse(alloc, text)?;
    let shown = shown_of(alloc, loose, text, &parsed)?;
    let lines = LineIndex::new(alloc, text)?;
    Ok(ParsedFile::Present {
        parsed,
        shown,
        lines,
    })
}

/// Reads a file with `text`, `None` for an absent file. Its braces are read if it has an error and
/// `loose` is true.
pub(crate) fn read_file(
    alloc: Global,
    loose: bool,
    text: Option<&str>,
) -> Result<ParsedFile, Memory>
    ensures file { IfOk result (λ f. f ≡ read_file loose (option_copied text.entry)) }
{
    match text {
        Some(text) => read_text(alloc, loose, text),
        None => Ok(ParsedFile::Absent),
    }
}
