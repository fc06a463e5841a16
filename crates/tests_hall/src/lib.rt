//! Tests of what threads share: mailboxes, marks and halls, rows worked out by hand.
//!
//! They cover what no contract says: printed text, which revisions have a mark, which of several
//! entries of one revision it is, and what workers, porters and writers make of one hall. The crates
//! that they test have no tests: a crate with tests is proved twice.
//!
//! Modules: `checks` (what tests assert), `halls` (halls with workers), `lines` (requests, changes and
//! replies as text), `mails` (inboxes and outboxes), `marks`.
#![tactic(auto)]

#[cfg(test)]
mod checks;
#[cfg(test)]
mod halls;
#[cfg(test)]
mod lines;
#[cfg(test)]
mod mails;
#[cfg(test)]
mod marks;
