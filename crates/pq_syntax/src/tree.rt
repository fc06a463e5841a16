//! The tree of a file: the flat list of its statements in text order, each with its depth.
//!
//! A statement's parent is the last statement before it that is less deep. So the list is the tree
//! in pre-order, and a walk over it needs no pointers.

use crate::parts::{Items, MethodType, Name, Number, Range, Setting, Strings};
use pq_lex::Span;

/// How a file is imported (proto3 language specification, "Import Statement").
#[derive(Clone, Copy, Debug, PartialEq, Eq)]
pub enum ImportKind {
    /// `import "a.proto";`.
    Plain,
    /// `import public "a.proto";`.
    Public,
    /// `import weak "a.proto";`.
    Weak,
}

/// The label of a field (proto3 language specification, "Fields").
#[derive(Clone, Copy, Debug, PartialEq, Eq)]
pub enum Label {
    /// `optional`.
    Optional,
    /// `repeated`.
    Repeated,
}

/// A statement without its place (proto3 language specification, "Proto file").
#[derive(Debug, Drop, PartialEq, Eq)]
pub enum Statement {
    /// An import of `file`.
    Import {
        kind: ImportKind,
        file: Strings,
    },
    /// The package of the file.
    Package {
        name: Name,
    },
    /// An option of its parent statement, or of the file.
    Option(Setting),
    /// A message. The statements of its body follow it, one level deeper.
    Message {
        name: Name,
    },
    /// A field of its parent, a message or a oneof.
    Field {
        label: Option<Label>,
        type_name: Name,
        name: Name,
        number: Number,
        options: Items<Setting>,
    },
    /// A map field of its parent message.
    MapField {
        key: Name,
        value: Name,
        name: Name,
        number: Number,
        options: Items<Setting>,
    },
    /// A oneof. Its options and fields follow it, one level deeper.
    Oneof {
        name: Name,
    },
    /// Reserved numbers of a message or an enum.
    ReservedNumbers(Items<Range>),
    /// Reserved names of a message or an enum.
    ReservedNames(Items<Strings>),
    /// An enum. The statements of its body follow it, one level deeper.
    Enum {
        name: Name,
    },
    /// A value of its parent enum.
    Value {
        name: Name,
        number: Number,
        options: Items<Setting>,
    },
    /// A service. Its options and methods follow it, one level deeper.
    Service {
        name: Name,
    },
    /// A method of its parent service. Its options follow it, one level deeper.
    Method {
        name: Name,
        input: MethodType,
        output: MethodType,
    },
    /// An extend block. Its body is skipped: it only has to have balanced brackets.
    Extend {
        type_name: Name,
    },
}

/// A statement with its depth and its span.
#[derive(Debug, Drop, PartialEq, Eq)]
pub struct Node {
    /// The number of statements that contain it.
    pub depth: u8,
    /// The whole statement, from its first token to its `;` or `}`.
    pub span: Span,
    /// What the statement says.
    pub statement: Statement,
}
