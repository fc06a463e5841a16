//! What is on the wire: methods, parameters, URIs, and the texts of responses.
//!
//! `answers` prints replies by their outcome and the kind of their answer: `reports` the
//! diagnostics with their `severities`, `locations` the definitions. `results` has what comes before
//! and after a result. `replies` and `refusals` have the responses that name no file. `plain` makes
//! one form of the URIs in messages.

pub(crate) mod answers;
pub(crate) mod changes;
pub(crate) mod locations;
pub(crate) mod methods;
pub(crate) mod params;
pub(crate) mod plain;
pub(crate) mod refusals;
pub(crate) mod replies;
pub(crate) mod reports;
pub(crate) mod results;
pub(crate) mod root;
pub(crate) mod severities;
pub(crate) mod uris;
