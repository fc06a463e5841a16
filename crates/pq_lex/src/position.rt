//! Positions in a text as editors count them.

/// A line, from 0, and a column in UTF-16 units, from 0 (Language Server Protocol 3.17,
/// "Position").
#[derive(Clone, Copy, Debug, PartialEq, Eq)]
pub struct Position {
    pub line: usize,
    pub character: usize,
}
