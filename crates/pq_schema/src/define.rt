//! What a file defines, by walks over its tree.
//!
//! The folder uses `names`. Read in this order:
//!
//! - `outline`: the package of a file, and the scopes of its statements.
//! - `map_entries`: the names of the entries of map fields.
//! - `define`: what each statement defines.
//! - `definitions`: the definitions of a file, and the search by full name.
//! - `index`: the index of that search.
//! - `copies`: definitions of one name, found by simple names where full names are long.
//! - `digests`: a number that is made of all definitions.

pub(crate) mod copies;
pub(crate) mod define;
pub(crate) mod definitions;
pub(crate) mod digests;
pub(crate) mod index;
pub(crate) mod map_entries;
pub(crate) mod outline;
