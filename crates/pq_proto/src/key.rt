//! The keys of the queries of proto3 files, and their order.

ghost use Rattle.std.specs.Prelude.{◌≡◌};

use pq_lex::Position;
use pq_names::Text;

/// A place of a file: a line and a column in UTF-16 units, each from 0 (Language Server Protocol
/// 3.17, "Position"). It is a position with an order.
#[derive(Clone, Copy, Debug, PartialEq, Eq, PartialOrd, Ord)]
pub struct Place {
    pub line: usize,
    pub character: usize,
}

impl Place {
    /// The place of the position `position`.
    pub fn of(position: Position) -> Place
        // The place has the line and the column of the position.
        ensures { result ≡ record { line = position.line; character = position.character } }
    {
        Place {
            line: position.line,
            character: position.character,
        }
    }

    /// The position of the place.
    pub fn position(self) -> Position
        // The position has the line and the column of the place.
        ensures { result ≡ record { line = self.line; character = self.character } }
    {
        Position {
            line: self.line,
            character: self.character,
        }
    }
}

/// A key: a query of the file with a name. Keys are ordered by their variants in this order, then
/// by the bytes of the name, then by the place.
#[derive(Drop, PartialEq, Eq, PartialOrd, Ord)]
pub enum ProtoKey {
    /// The text of the file.
    Input(Text),
    /// The tree and the lines of the file.
    Parse(Text),
    /// The tree of the file without spans.
    Items(Text),
    /// The imports of the file.
    Imports(Text),
    /// The files that the file sees and reaches.
    Linked(Text),
    /// The definitions of the file.
    Defs(Text),
    /// The definitions that the file sees and reaches.
    Scope(Text),
    /// The type references of the file, with what they resolve to.
    Resolved(Text),
    /// The errors of the file by the table.
    Checks(Text),
    /// The diagnostics of the file.
    Diagnostics(Text),
    /// The descriptor of the file.
    Descriptor(Text),
    /// The symbols of the file.
    Symbols(Text),
    /// The definition of what is at a place of the file.
    Definition(Text, Place),
}
