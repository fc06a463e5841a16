//! What a file that is read as its tree or first error has: its statements, and the positions of its
//! offsets.
ghost use Rattle.std.specs.Prelude.{◌≡◌, IfSome};
ghost use Rattle.pq_syntax.specs.TypeSpans.{IsOnlyAt};
ghost use Rattle.pq_links.specs.Place.{place};
ghost use Rattle.pq_links.specs.Files.{nodes_of};
ghost use Rattle.pq_proto.specs.Compile.{offset_at, place_at, position_in};

use crate::key::Place;
use pq_lex::{Position, Span};
use pq_links::{ParsedFile, Part, place};
use pq_syntax::{Node, Parsed};

/// The statements of a file that is read as `file`: of its tree, or those that braces show. An
/// absent file has none.
pub(crate) fn statements(file: &ParsedFile) -> &[Node]
    ensures nodes { result.now ≡ nodes_of file.now }
{
    match file {
        ParsedFile::Present {
            parsed: Parsed::Tree(nodes),
            ..
        } => nodes.as_slice(),
        ParsedFile::Present { shown, .. } => shown.nodes.as_slice(),
        ParsedFile::Absent => &[],
    }
}

/// The span of the part `part` of the item of the number `item` in a file that is read as `file`, if
/// it has that place.
pub(crate) fn span_in(file: &ParsedFile, item: usize, part: Part) -> Option<Span>
    ensures span { result ≡ place (nodes_of file.now) item part }
{
    match file {
        ParsedFile::Present {
            parsed: Parsed::Tree(nodes),
            ..
        } => place(nodes, item, part),
        ParsedFile::Present { shown, .. } => place(&shown.nodes, item, part),
        ParsedFile::Absent => None,
    }
}

/// The number of the only item that can refer to a type whose span holds `offset`, both ends
/// included, in a file that is read as `file`. `None` says nothing.
pub(crate) fn only_at(file: &ParsedFile, offset: usize) -> Option<usize>
    ensures only { IfSome result (IsOnlyAt (nodes_of file.now) offset) }
{
    match file {
        ParsedFile::Present {
            parsed: Parsed::Tree(nodes),
            ..
        } => nodes.only_at(offset),
        ParsedFile::Present { shown, .. } => shown.nodes.only_at(offset),
        ParsedFile::Absent => None,
    }
}

/// The position of `offset` in a file that is read as `file`. An absent file has the first position
/// alone.
pub fn position_in(file: &ParsedFile, offset: usize) -> Position
    // The position of an offset in a file as it is read.
    ensures { result ≡ position_in file.now offset }
{
    match file {
        ParsedFile::Absent => Position {
            line: 0,
            character: 0,
        },
        ParsedFile::Present { lines, .. } => lines.position(offset),
    }
}

/// The position of `offset` as a place, in a file that is read as `file`.
pub(crate) fn place_at(file: &ParsedFile, offset: usize) -> Place
    ensures place { result ≡ place_at file.now offset }
{
    Place::of(position_in(file, offset))
}

/// The offset at `place` in a file that is read as `file`.
pub(crate) fn offset_at(file: &ParsedFile, place: Place) -> Option<usize>
    ensures offset { result ≡ offset_at file.now place }
{
    match file {
        ParsedFile::Absent => None,
        ParsedFile::Present { lines, .. } => lines.offset(place.position()),
    }
}
