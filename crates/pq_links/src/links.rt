//! What a file imports, and what it exports, sees and reaches.
ghost use Rattle.std.specs.Prelude.{◌≡◌, IfOk};

use crate::Memory;
use crate::file_names::FileNames;
use pq_rules::Text;

/// An import of a file (proto3 language specification, "Import Statement"). A weak import counts as
/// a plain one, and an import whose name is not UTF-8 is passed over.
#[derive(Drop, PartialEq, Eq, PartialOrd, Ord)]
pub struct Import {
    /// The name of the imported file.
    pub file: Text,
    /// Whether files that import this one also see what it imports here.
    pub is_public: bool,
}

impl Import {
    /// A copy, which shares the name.
    pub fn copy(&self) -> Result<Import, Memory>
        // A copy is equal.
        ensures copy { IfOk result (λ i. i ≡ self.now) }
    {
        Ok(Import {
            file: self.file.copy()?,
            is_public: self.is_public,
        })
    }
}

/// The links of a file. Each list is in text order, with each name once, and the file itself is its
/// first. The lists of an absent file are empty.
#[derive(Drop, PartialEq, Eq)]
pub struct Links {
    /// The files that a file which imports this one sees by it.
    pub exports: FileNames,
    /// The files whose definitions this one sees.
    pub visible: FileNames,
    /// The files to which imports lead, depth first.
    pub reach: FileNames,
}
