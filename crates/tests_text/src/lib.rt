//! Tests of the lexer, of ranged changes, of the names and the parser, of inputs, and of frames and
//! messages: rows worked out by hand.
//!
//! They cover what no contract says: printed text, and that calls succeed with ample memory. The
//! crates that they test have no tests: a crate with tests is proved twice.
//!
//! Modules: `checks` (what tests assert), `lex`, `changes`, `names`, `syntax`, `inputs`,
//! `frame`, `messages`.
#![tactic(auto)]

#[cfg(test)]
mod changes;
#[cfg(test)]
mod checks;
#[cfg(test)]
mod frame;
#[cfg(test)]
mod inputs;
#[cfg(test)]
mod lex;
#[cfg(test)]
mod messages;
#[cfg(test)]
mod names;
#[cfg(test)]
mod syntax;
