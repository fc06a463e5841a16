//! Tests of the core, of its two parts and of its plays: rows worked out by hand, scripts call by
//! call, and lists of events.
//!
//! They cover what no contract says: printed text, and that calls succeed with ample memory. The
//! crates that they test have no tests: a crate with tests is proved twice.
//!
//! Modules: `checks` (what tests assert), `cores` (calls of a core, and of a store and a lane apart),
//! `plays` (lists of events). Random lists beside a plain model are in `checks/random_models/`.
#![tactic(auto)]

#[cfg(test)]
mod checks;
#[cfg(test)]
mod cores;
#[cfg(test)]
mod plays;
