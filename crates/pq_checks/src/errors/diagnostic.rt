//! One diagnostic of a file, and all diagnostics of a file.

use crate::errors::code::Code;
use pq_links::ParsedFile;
use pq_names::Text;
use pq_rules::Shared;
use pq_syntax::Items;

/// An error of a file at a span of its text. Diagnostics are ordered by their fields, in this order.
#[derive(Drop, PartialEq, Eq, PartialOrd, Ord)]
pub struct Diagnostic {
    /// The byte offset of its first character.
    pub start: usize,
    /// The byte offset after its last character.
    pub end: usize,
    /// The code.
    pub code: Code,
    /// The message.
    pub text: Text,
}

/// The diagnostics of a file, with what it is read as: its lines give their positions.
#[derive(Drop, PartialEq, Eq)]
pub struct Diagnosed {
    /// The diagnostics, in order.
    pub diagnostics: Items<Diagnostic>,
    /// What the file is read as.
    pub file: Shared<ParsedFile>,
}
