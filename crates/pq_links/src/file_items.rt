//! What a file is read as, without spans.
//!
//! An edit that moves text, and changes no name, number or option, leaves this equal. What reads
//! it, and not the parse, does not start again after such an edit.
ghost use Rattle.std.specs.Prelude.{◌≡◌, IfOk, map};
ghost use Rattle.pq_links.specs.Bare.{bare};
ghost use Rattle.pq_links.specs.Files.{items_of, nodes_in, parsed_items, shown_items};

use crate::Memory;
use crate::bare::bare_nodes;
use crate::files::{ParsedFile, Shown};
use pq_syntax::{File, Items, Node, Parsed};
use std::alloc::Global;
use std::marker::Model;

/// The statements of a file without spans: in the place of each is the empty one at 0. So it is a
/// type of its own, which `place` does not take. Contracts see the list of statements, and `==`
/// compares exactly that list.
#[derive(Drop)]
pub struct BareFile {
    nodes: Items<Node>,
}

impl Model for BareFile {
    ghost use Rattle.std.specs.Prelude.{List};
    ghost use Rattle.pq_syntax.specs.declared.tree.Node.{Node};

    ghost Value = { List Node };

    ghost view = { λ f. f.nodes };
}

impl BareFile {
    /// The statements of `file` without spans.
    pub(crate) fn of(alloc: Global, file: &File) -> Result<BareFile, Memory>
        ensures bare { IfOk result (λ f. f ≡ map bare file.now) }
    {
        Ok(BareFile {
            nodes: bare_nodes(alloc, file.as_slice())?,
        })
    }

    /// The statements, in text order.
    pub fn as_slice(&self) -> &[Node]
        // The statements of the file without spans.
        ensures nodes { result.now ≡ self.now }
    {
        self.nodes.as_slice()
    }
}

impl PartialEq for BareFile {
    ghost use Rattle.pq_links.specs.aux.SameNodes.{same_nodes, nodes_per};

    ghost eq = { same_nodes };

    ghost laws = { nodes_per };

    fn eq(&self, other: &Self) -> bool {
        self.as_slice() == other.as_slice()
    }
}

impl Eq for BareFile {
    ghost use Rattle.pq_links.specs.aux.SameNodes.{nodes_equiv};

    ghost laws = { nodes_equiv };
}

/// What a file is read as, without spans. `==` holds exactly where contracts see the same.
#[derive(Drop, PartialEq, Eq)]
pub enum FileItems {
    /// The sources have no such file.
    Absent,
    /// The text of the file has an error. The statements are those that its braces show, where
    /// these are read.
    Fault(BareFile),
    /// The text of the file is of another version of the language. The statements are those that
    /// its braces show.
    Other(BareFile),
    /// The statements of the file.
    Tree(BareFile),
}

impl FileItems {
    /// The statements, in text order. An absent file has none.
    pub fn nodes(&self) -> &[Node]
        // The statements without spans: of a tree, or those that braces show; an absent file has
        // none.
        ensures nodes { result.now ≡ nodes_in self.now }
    {
        match self {
            FileItems::Tree(file) | FileItems::Fault(file) | FileItems::Other(file) => {
                file.as_slice()
            }
            FileItems::Absent => &[],
        }
    }
}

/// What is shown of a text with an error, without spans.
fn shown_items(alloc: Global, shown: &Shown) -> Result<FileItems, Memory>
    ensures items { IfOk result (λ i. i ≡ shown_items shown.now) }
{
    let file = BareFile::of(alloc, &shown.nodes)?;
    if shown.is_other {
        return Ok(FileItems::Other(file));
    }
    Ok(FileItems::Fault(file))
}

/// The tree or error `parsed` without spans, where `shown` is shown beside an error.
fn parsed_items(alloc: Global, parsed: &Parsed, shown: &Shown) -> Result<FileItems, Memory>
    ensures items { IfOk result (λ i. i ≡ parsed_items parsed.now shown.now) }
{
    match parsed {
        Parsed::Tree(nodes) => Ok(FileItems::Tree(BareFile::of(alloc, nodes)?)),
        Parsed::Fault { .. } => shown_items(alloc, shown),
    }
}

/// What a file that is read as `file` is without spans.
pub(crate) fn items_of(alloc: Global, file: &ParsedFile) -> Result<FileItems, Memory>
    ensures items { IfOk result (λ i. i ≡ items_of file.now) }
{
    match file {
        ParsedFile::Present { parsed, shown, .. } => parsed_items(alloc, parsed, shown),
        ParsedFile::Absent => Ok(FileItems::Absent),
    }
}
