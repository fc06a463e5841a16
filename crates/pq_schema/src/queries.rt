//! The queries of definitions, of scopes and of resolved references, and the rule set of a schema.
//!
//! The folder uses all others. Read in this order:
//!
//! - `keys`: what a sum of queries offers the queries of this crate.
//! - `defined`: the query of the definitions of a file.
//! - `scopes`: the query of its scope.
//! - `resolved`: the query of its resolved references; `resolved_references`: these as one value.
//! - `rules`: the three queries and those of `pq_links`, put together.

pub(crate) mod defined;
pub(crate) mod keys;
pub(crate) mod resolved;
pub(crate) mod resolved_references;
pub(crate) mod rules;
pub(crate) mod scopes;
