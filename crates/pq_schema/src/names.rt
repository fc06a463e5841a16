//! Names: in pieces, in their order, by their codes, and full names that share their scopes.
//!
//! The folder uses no other. Read in this order:
//!
//! - `nesting`: the scopes around a scope.
//! - `spelled`: a name in pieces.
//! - `name_order`, `name_codes`: how names are compared.
//! - `full_name`: full names that share the names of their scopes; `coded`: those with their codes.
//! - `enclosing`: what encloses a definition, as the scope of its name.
//! - `lead`: what is before a simple name in a scope.

pub(crate) mod coded;
pub(crate) mod enclosing;
pub(crate) mod full_name;
pub(crate) mod lead;
pub(crate) mod name_codes;
pub(crate) mod name_order;
pub(crate) mod nesting;
pub(crate) mod spelled;
