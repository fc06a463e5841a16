//! The errors of a proto3 file, as queries over sources: the codes, places and messages of what is
//! invalid in it and of what is skipped, and its diagnostics, which have spans.
//!
//! The table of all errors is in `specs/Faults`; `each_fault` reads it line by line, and
//! `specs/Compile` says what the sources say of a file. A check looks up names and numbers in
//! sorted lists and takes N log N time for N statements: whoever writes a file cannot make its keys
//! collide. The two queries know no rule set: a sum of queries makes their keys and reads its
//! answers through `CheckKeys`. The law `checks_in_rules` says that in every rule set that embeds
//! them their answers are what the sources say.
//!
//! Folders, each over those before it (`around` not over `lines`):
//!
//! - `errors`: codes, errors and diagnostics, and how an error is said.
//! - `tree`: what the checks look at.
//! - `lines`: the errors of a tree.
//! - `around`: the errors by the surroundings of a file.
//! - `queries`: the queries of both.
//!
//! `laws` has the laws of definitions and of the queries, `rule_laws` that of the queries in a rule
//! set.
#![tactic(auto)]

mod around;
mod errors;
mod laws;
mod lines;
mod queries;
mod rule_laws;
mod tree;

pub use around::surroundings::{FileState, Imported};
pub use errors::code::{Code, Severity};
pub use errors::diagnostic::{Diagnosed, Diagnostic};
pub use errors::fault::Fault;
pub use laws::{
    checks_by_answers, diagnostics_by_answers, diagnostics_in_order, each_diagnostic, each_fault,
    each_stands, one_order, said_of_one,
};
pub use queries::checked::{CheckPart, ChecksQuery};
pub use queries::diagnostics::{DiagnosticsPart, DiagnosticsQuery};
pub use queries::gathered::{Known, LinkedFile, States, Waiting};
pub use queries::keys::CheckKeys;
pub use rule_laws::checks_in_rules;
pub use std::alloc::AllocError as Memory;
