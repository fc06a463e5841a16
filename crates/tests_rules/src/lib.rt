//! Tests of rules and memos: rows worked out by hand, scripts of edits and demands, and random
//! scripts.
//!
//! They cover what no contract says: printed text, and that calls succeed with ample memory. The
//! crates that they test have no tests: a crate with tests is proved twice.
//!
//! Modules: `checks` (what tests assert), `rules` (answers from scratch), `engine` (demands between
//! edits).
#![tactic(auto)]

#[cfg(test)]
mod checks;
#[cfg(test)]
mod engine;
#[cfg(test)]
mod rules;
