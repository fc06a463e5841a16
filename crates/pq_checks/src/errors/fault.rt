//! One error of a file, by its place.

use crate::errors::code::Code;
use pq_links::Part;
use pq_names::Text;

/// An error of a file. Its place stays the same while text around it moves.
#[derive(Drop, PartialEq, Eq)]
pub struct Fault {
    /// The number of the item: the statements of a file count from 0, in text order.
    pub item: usize,
    /// The part of the item.
    pub part: Part,
    /// The code.
    pub code: Code,
    /// The message.
    pub text: Text,
}
