//! The values of the keys of proto3 files.

use crate::key::Place;
use pq_checks::{Diagnosed, Fault};
use pq_links::{FileItems, Import, Links, ParsedFile};
use pq_names::Text;
use pq_rules::Shared;
use pq_schema::{Defs, ResolvedReferences, Scope};
use pq_syntax::Items;

/// A range in a file (Language Server Protocol 3.17, "Location").
#[derive(Drop, PartialEq, Eq)]
pub struct Location {
    /// The file.
    pub file: Text,
    /// The place of the first character.
    pub start: Place,
    /// The place after the last character.
    pub end: Place,
}

/// A value of a key.
#[derive(Drop, PartialEq, Eq)]
pub enum ProtoValue {
    /// The text of a file, `None` if it is absent.
    Source(Option<Text>),
    /// The tree and the lines of a file.
    Parse(Shared<ParsedFile>),
    /// The tree of a file without spans.
    Items(Shared<FileItems>),
    /// The imports of a file, `None` if it is absent.
    Imports(Option<Shared<Items<Import>>>),
    /// The links of a file.
    Linked(Shared<Links>),
    /// The definitions of a file.
    Defs(Shared<Defs>),
    /// The scope of a file.
    Scope(Shared<Scope>),
    /// The resolved references of a file.
    Resolved(Shared<ResolvedReferences>),
    /// The errors of a file by the table.
    Checks(Shared<Items<Fault>>),
    /// The diagnostics of a file, with what it is read as.
    Diagnostics(Shared<Diagnosed>),
    /// The descriptor of a file as a text, `null` if it has none.
    Descriptor(Text),
    /// The list of the symbols of a file as a text.
    Symbols(Text),
    /// Where the type that is referred to at a place is defined.
    Definition(Option<Location>),
}
