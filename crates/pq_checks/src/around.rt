//! The errors of a file by its surroundings: the files that it imports, and those that it sees.
//!
//! The folder uses `errors` and `tree`. Read in this order:
//!
//! - `surroundings`: what the checks know of the files that a file imports.
//! - `import_lines`: the errors of imports.
//! - `definition_lines`: full names that are defined twice.
//! - `reference_lines`: type references that resolve to no type, or to one that does not fit.

pub(crate) mod definition_lines;
pub(crate) mod import_lines;
pub(crate) mod reference_lines;
pub(crate) mod surroundings;
