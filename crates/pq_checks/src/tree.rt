//! What the checks look at in a tree.
//!
//! The folder uses no other. Read in this order:
//!
//! - `spots`: the statements of a tree, each with what contains it.
//! - `members`: fields, values, packages, oneofs, enums, imports, options, and what is reserved.
//! - `numbers`: the numbers of fields and of enum values, and ranges of them.

pub(crate) mod members;
pub(crate) mod numbers;
pub(crate) mod spots;
