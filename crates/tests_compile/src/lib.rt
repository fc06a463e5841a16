//! Tests of links, definitions and references, of the compilation with its memos between edits, and
//! of the calls of a session.
//!
//! They cover what no contract says: printed text, and that calls succeed with ample memory. The
//! crates that they test have no tests: a crate with tests is proved twice.
//!
//! Modules: `checks` (what tests assert), `schema` (links, definitions and references of small sets
//! of files), `sets` (small sets of files), `keys` (the answer of each key), `edits` (demands
//! between edits), `ring` (a thousand files that import one another), `session` (cut sessions,
//! devices that fail and replies, call by call). Random sets and random edits are in
//! `checks/random_models/`.
#![tactic(auto)]

#[cfg(test)]
mod checks;
#[cfg(test)]
mod edits;
#[cfg(test)]
mod keys;
#[cfg(test)]
mod ring;
#[cfg(test)]
mod schema;
#[cfg(test)]
mod session;
#[cfg(test)]
mod sets;
