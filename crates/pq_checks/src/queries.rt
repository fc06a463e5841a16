//! The queries of the errors of a file and of its diagnostics.
//!
//! The folder uses all others. Read in this order:
//!
//! - `keys`: what a sum of queries offers the queries of this crate.
//! - `answered`: what an answer holds.
//! - `gathered`: what the rule of the errors has gathered, and the errors by it.
//! - `checked`: the query of the errors.
//! - `diagnostics`: the query of the diagnostics; `order`: a list put in order.

pub(crate) mod answered;
pub(crate) mod checked;
pub(crate) mod diagnostics;
pub(crate) mod gathered;
pub(crate) mod keys;
pub(crate) mod order;
