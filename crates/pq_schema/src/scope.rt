//! The files that a file sees and those that it reaches, and the look-up of a full name in files.
//!
//! The folder uses `names` and `define`. Read in this order:
//!
//! - `scope`: both lists of files; `collected`: how they are gathered.
//! - `files`: the look-up of a full name in a list of files.
//! - `by_package`: which files can have a name; `package_range`: which names are packages.
//! - `named`: the first of some files that defines a name.
//! - `near_names`: an index of these files by the codes of their names.
//! - `fronts`: how far the packages of files go along that of the searching file.
//! - `other_files`: the look-up of the names of a file in the others that it sees.

pub(crate) mod by_package;
pub(crate) mod collected;
pub(crate) mod files;
pub(crate) mod fronts;
pub(crate) mod named;
pub(crate) mod near_names;
pub(crate) mod other_files;
pub(crate) mod package_range;
pub(crate) mod scope;
