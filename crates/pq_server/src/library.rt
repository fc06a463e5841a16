//! The library: the `.proto` files of a folder, as the sources before the first message.
//!
//! Reading it has four steps: the names of the files are listed (`walk`), put into byte order
//! (`names`), their texts are read (`texts`), and each file is set (`filling`). `folder` has them one
//! after the other, and `serving` has the script over what was read. The time is that of the file
//! system, and of n log n comparisons of n names.
//!
//! What a file system delivers is not proved: no contract can say it. The contracts speak of the
//! names that were listed and the texts that were read: the inputs have each listed file once, in
//! byte order of the names, with High durability.
mod failure;
mod fault;
mod filling;
mod folder;
mod includes;
mod names;
mod paths;
mod reading;
mod serving;
mod texts;
mod walk;

pub(crate) use failure::{Failure, say};
pub(crate) use fault::LibraryFault;
pub(crate) use folder::{no_library, read_library};
pub(crate) use includes::last_root;
pub(crate) use paths::{absolute_of, joined};
pub(crate) use serving::run_library_script;
#[cfg(test)]
pub(crate) use walk::MAX_DEPTH;
pub(crate) use walk::is_folder;
