//! Errors: their codes, one error of a file by its place, diagnostics, and how an error is said.
//!
//! The folder uses no other. Read in this order:
//!
//! - `code`: the codes of errors.
//! - `fault`: one error of a file, by its place.
//! - `diagnostic`: one diagnostic, and all of a file.
//! - `said`: the pieces of a message joined, and the error put after the others.
//! - `tell`: an error that is added if it holds.

pub(crate) mod code;
pub(crate) mod diagnostic;
pub(crate) mod fault;
pub(crate) mod said;
pub(crate) mod tell;
