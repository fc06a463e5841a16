//! The scope of a file: the definitions that it sees, and those that it reaches.
ghost use Rattle.std.specs.Prelude.{◌≡◌, IfOk, IsTrue, true};
ghost use Rattle.std.specs.Option.{option_copied};
ghost use Rattle.pq_schema.specs.Others.{first_other, other_files};

use crate::define::definitions::Defs;
use crate::scope::collected::copy_files;
use crate::scope::files::Files;
use crate::scope::other_files::OtherFiles;
use pq_names::{Memory, Text};
use pq_rules::Shared;
use std::alloc::Global;
use std::marker::Model;

/// A file with its definitions. Scopes share both.
#[derive(Drop, PartialEq, Eq)]
pub struct FileDefs {
    /// The name of the file.
    pub file: Shared<Text>,
    /// Its package and its definitions.
    pub defs: Shared<Defs>,
}

/// The files whose definitions a file sees, and those that it reaches by imports.
#[derive(Drop)]
pub struct Scope {
    visible: Files,
    /// The files that are reached, unless they are those that are visible.
    reach: Option<Vec<FileDefs>>,
}

impl Model for Scope {
    ghost use Rattle.std.specs.Prelude.{unwrap_or};
    ghost use Rattle.std.specs.Option.{option_map};
    ghost use Rattle.pq_schema.specs.ScopeContents.{Scope as Contents};

    ghost Value = { Contents };

    ghost view = { λ s. record { visible = s.visible; reach = unwrap_or (option_map (λ v. v.items) s.reach) s.visible } };
}

impl Scope {
    /// The scope of a file that sees the files `visible`, and reaches the files `reach`.
    pub fn new(alloc: Global, visible: Vec<FileDefs>, reach: Vec<FileDefs>) -> Result<Scope, Memory>
        // The scope has these files, in order.
        ensures contents { IfOk result
            (λ s. s ≡ record { visible = visible.items; reach = reach.items }) }
    {
        let visible = Files::new(alloc, visible)?;
        Ok(Scope {
            visible,
            reach: Some(reach),
        })
    }

    /// The scope of a file that sees and reaches the files `files`.
    pub(crate) fn of_visible(alloc: Global, files: Vec<FileDefs>) -> Result<Scope, Memory>
        ensures contents { IfOk result
            (λ s. s ≡ record { visible = files.items; reach = files.items }) }
    {
        let visible = Files::new(alloc, files)?;
        Ok(Scope {
            visible,
            reach: None,
        })
    }

    /// The files whose definitions the file sees, in order.
    pub fn visible(&self) -> &[FileDefs]
        // The files that the scope sees, in order.
        ensures value { result.now ≡ self.now.visible }
    {
        self.visible.as_slice()
    }

    /// The files that the file reaches by imports, in order.
    pub fn reach(&self) -> &[FileDefs]
        // The files that the scope reaches, in order.
        ensures value { result.now ≡ self.now.reach }
    {
        match &self.reach {
            Some(files) => files,
            None => self.visible.as_slice(),
        }
    }

    /// Whether the file is known to see each file that it reaches.
    pub(crate) fn sees_all(&self) -> bool
        ensures all { result ≡ true → self.now.visible ≡ self.now.reach }
    {
        self.reach.is_none()
    }

    /// The name of the first file that defines `full_name`, of the files that the file `file` sees,
    /// but `file` itself.
    ///
    /// Files whose package is not a prefix of the name before a dot are not asked. Each other file
    /// takes one binary search.
    pub fn first_other(
        &self,
        alloc: Global,
        file: &str,
        full_name: &str,
    ) -> Result<Option<&Text>, Memory>
        // The first file that defines a full name, of those that a file sees, but itself; or
        // `Memory`.
        ensures first { IfOk result
            (λ o. option_copied o ≡ first_other file.now full_name.now self.now) }
    {
        self.visible.first_other(alloc, file, full_name)
    }

    /// The files that the file `file` sees, but `file` itself, for the look-up of about `lookups`
    /// full names in the package of its definitions `defs`.
    ///
    /// The files that can define such a name are found once. Where that costs less than a search in
    /// each of them for each name, one index of their names is made.
    pub fn others<'a>(
        &'a self,
        alloc: Global,
        file: &'a str,
        defs: &'a Defs,
        lookups: usize,
    ) -> Result<OtherFiles<'a>, Memory>
        // The files that a file sees, but itself; or `Memory`.
        ensures others { IfOk result (λ o. o ≡ other_files file.now self.now) }
    {
        OtherFiles::new(alloc, &self.visible, file, defs, lookups)
    }

    /// The files whose definitions the file sees.
    pub(crate) fn visible_files(&self) -> &Files
        ensures value { result.now ≡ self.now.visible }
    {
        &self.visible
    }

    /// The files that the file reaches by imports, to be searched. Their packages are put in order
    /// here and not kept: where all references are found in visible files, nobody searches these.
    pub(crate) fn reached_files(&self, alloc: Global) -> Result<Files, Memory>
        ensures files { IfOk result (λ fs. fs ≡ self.now.reach) }
    {
        Files::new(alloc, copy_files(alloc, self.reach())?)
    }
}

/// Whether the lists of files may be equal, by one number of each file.
fn may_equal(files: &[FileDefs], others: &[FileDefs]) -> bool
    ensures equal { files.now ≡ others.now → IsTrue result }
{
    if files.len() != others.len() {
        return false;
    }
    'files: for i in 0..files.len() {
        if !files[i].defs.get().may_equal(others[i].defs.get()) {
            return false;
        }
    }
    true
}

/// Two scopes are equal exactly if contracts see the same files in both lists. A file that differs
/// is mostly found by its number, without a look at the definitions of the other files.
impl PartialEq for Scope {
    ghost use Rattle.pq_schema.specs.aux.SameScopes.{same_lists, lists_per};

    ghost eq = { same_lists };

    ghost laws = { lists_per };

    fn eq(&self, other: &Self) -> bool {
        if !may_equal(self.visible(), other.visible()) {
            return false;
        }
        if !may_equal(self.reach(), other.reach()) {
            return false;
        }
        self.visible() == other.visible() && self.reach() == other.reach()
    }
}

impl Eq for Scope {
    ghost use Rattle.pq_schema.specs.aux.SameScopes.{lists_equiv};

    ghost laws = { lists_equiv };
}
