//! The search for what a name is found as, from the scope of its reference outwards.
//!
//! The folder uses `names`, `define` and `scope`. A search goes through the scopes from that of the
//! reference up to the package of the file, and then from the package outwards. Read in this order:
//!
//! - `references`: the names that are searched for.
//! - `origin`, `search`: the search for one name; `walk`, `uses`: that for all references of a file.
//! - `inner`, `asked`: the scopes up to the package, and what was looked up in them.
//! - `outward`, `spots`, `along`, `scope_ranges`: the scopes from the package outwards.
//! - `lookup`: the first definition of a full name, in all files.
//! - `resolution`: what a name resolves to.
//!
//! The words of the search, in names and parameters:
//!
//! - `lead`: what is before a simple name in a scope: the scope with a dot after it, or nothing.
//! - `front`: how far the package of a file goes along the lead of the searching package. It is the
//!   number of bytes that are the same, and whether both go on with others. (In `names` the front
//!   of a name is its pieces before the last.)
//! - `inner`: the scopes from that of a reference up to the package, without the package. A
//!   parameter `inner` has their leads, the innermost first.
//! - `outward`: from the package of the file through the scopes around it, the innermost first.
//! - `spot`: a scope from the package outwards in which a definition can be, with its dot.
//! - `along`: the packages that a search from the package outwards meets, in a table. A call
//!   `.._along` takes a name that begins with the first bytes of the package's lead. A call
//!   `.._below` takes one that begins with all of them. Mostly these bytes are not read.
//! - `origin`: where a search begins: a scope of a file, with the files that are searched.
//! - `near`: the places of files, among them all that can have a name: those whose package is a
//!   scope around the name.
//! - `asked`: what was looked up in the open scopes of `inner`, the outermost first. It is kept
//!   where the lead is long.
//! - `few`: up to the constant `FEW` of the module. Few files are all asked for each name
//!   (`lookup`). All scopes of a package of few dots are spots (`spots`). A name with which no
//!   definition was compared is kept only in a scope that has few (`asked`).

pub(crate) mod along;
pub(crate) mod asked;
pub(crate) mod inner;
pub(crate) mod lookup;
pub(crate) mod origin;
pub(crate) mod outward;
pub(crate) mod references;
pub(crate) mod resolution;
pub(crate) mod scope_ranges;
pub(crate) mod search;
pub(crate) mod spots;
pub(crate) mod uses;
pub(crate) mod walk;
