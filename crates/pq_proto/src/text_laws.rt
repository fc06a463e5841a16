//! Laws of the text of a file, each as the contract of a function that does nothing: its positions,
//! and its tree as nested bodies.
ghost use Rattle.std.specs.Prelude.{◌≡◌, ◌≤◌, Bool, List, [], Some, length, ℕ};
ghost use Rattle.pq_lex.specs.Lines.{IsOffset, position_of};
ghost use Rattle.pq_links.specs.Files.{read_file};
ghost use Rattle.pq_proto.specs.Bodies.{body_of, placed_in};
ghost use Rattle.pq_proto.specs.Compile.{offset_at, position_in};
ghost use Rattle.pq_proto.specs.declared.key.Place.{Place as PlaceContents};
ghost use Rattle.pq_syntax.specs.FaultPlace.{IsTree};
ghost use Rattle.pq_syntax.specs.Places.{places};
ghost use Rattle.pq_syntax.specs.declared.tree.Node.{Node};

use pq_lex::{offsets_of_lines, positions_of_lines};

/// In a file with a text, whether it has a tree or a syntax error, the position of each offset up to
/// the text's end is its position in that text, and the offset at a place is the largest one at or
/// before that place in the text, or `None` if the text has no such line.
pub fn places_of_text()
    // `position`, `offset`: In a file with a text, each offset up to the text's end has its
    // position in that text. The offset at a place is the largest one at or before it in the text,
    // or `None` if the text has no such line.
    ensures position { (loose : Bool) (text : List ℕ) (offset : ℕ) → offset ≤ length text → position_in (read_file loose (Some text)) offset ≡ position_of text offset }
    ensures offset { (loose : Bool) (text : List ℕ) (place : PlaceContents) → IsOffset text (record { line = place.line; character = place.character }) (offset_at (read_file loose (Some text)) place) }
{
    positions_of_lines();
    offsets_of_lines();
}

/// In the tree of a text, the statements of the nested bodies in text order, each with those around
/// it, are its places. So an item is in the body of the innermost item that contains it.
pub fn bodies_are_places()
    // In the tree of a text, the statements of the nested bodies in text order, each with those
    // around it, are its places. So descriptors and symbols nest as full names and scopes do.
    ensures { (text : List ℕ) (nodes : List Node) → IsTree text nodes → placed_in [] (body_of nodes) ≡ places nodes }
{}
