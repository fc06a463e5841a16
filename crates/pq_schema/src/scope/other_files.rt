//! The other files that a file sees, for the look-up of the full names that the file defines.
//!
//! The files that can define a name of the file's package are found once, and where there are many
//! of both, one index of their names is made. So n names beside n files cost n log n.
ghost use Rattle.std.specs.Prelude.{◌≡◌, IfOk};
ghost use Rattle.std.specs.Option.{option_copied};
ghost use Rattle.pq_schema.specs.Others.{first_with};
ghost use Rattle.pq_schema.specs.aux.FirstOf.{others};

use crate::define::definitions::Defs;
use crate::names::full_name::FullName;
use crate::names::nesting::innermost;
use crate::scope::files::Files;
use crate::scope::named::{file_of, first_listed};
use crate::scope::near_names::{Named, names_for};
use pq_names::{Memory, Text};
use std::alloc::Global;
use std::marker::Model;

/// The files that a file sees, but itself. Contracts see the list.
#[derive(Drop)]
pub struct OtherFiles<'a> {
    files: &'a Files,
    /// The name of the file that sees them.
    file: &'a str,
    /// The definitions of the file that sees them.
    defs: &'a Defs,
    /// The places of the other files that can define a name of the package of `defs`.
    near: Vec<usize>,
    /// The index of these files, where it was worth making.
    names: Option<Vec<Named>>,
}

impl<'a> Model for OtherFiles<'a> {
    ghost use Rattle.std.specs.Prelude.{List};
    ghost use Rattle.pq_schema.specs.Resolution.{scopes};
    ghost use Rattle.pq_schema.specs.declared.scope.scope.FileDefs.{FileDefs};
    ghost use Rattle.pq_schema.specs.aux.FirstOf.{others};
    ghost use Rattle.pq_schema.specs.aux.NearFiles.{AreOthers};
    ghost use Rattle.pq_schema.specs.aux.NearNames.{AreNames};

    ghost Value = { List FileDefs };

    ghost view = { λ o. others o.file.now o.files.now };

    ghost invariant = { λ o. AreOthers o.near.items o.file.now o.files.now (scopes o.defs.now.package_name)
        × AreNames o.names o.files.now o.near.items };
}

impl<'a> OtherFiles<'a> {
    /// Those of `files` that are not the file `file`, which has the definitions `defs`. About
    /// `lookups` names of the package of `defs` will be looked up.
    pub(crate) fn new(
        alloc: Global,
        files: &'a Files,
        file: &'a str,
        defs: &'a Defs,
        lookups: usize,
    ) -> Result<OtherFiles<'a>, Memory>
        ensures others { IfOk result (λ o. o ≡ others file.now files.now) }
    {
        let near = files.others_near(alloc, file, innermost(defs.package_name()))?;
        let names = names_for(alloc, files.as_slice(), &near, lookups)?;
        Ok(OtherFiles {
            files,
            file,
            defs,
            near,
            names,
        })
    }

    /// The name of the first of the files that defines `full_name`.
    ///
    /// For a name that is right in the package of the definitions for which this was made, one
    /// index is searched, or each of few files. Another name is looked up as by
    /// `Scope::first_other`.
    pub fn first_other(
        &self,
        alloc: Global,
        full_name: &FullName,
    ) -> Result<Option<&'a Text>, Memory>
        // The first of these files that defines a full name; or `Memory`.
        ensures first { IfOk result (λ o. option_copied o ≡ first_with full_name.now self.now) }
    {
        if !full_name.is_in(self.defs.root()) {
            let text = full_name.text(alloc)?;
            return self.files.first_other(alloc, self.file, text.as_str());
        }
        let name = full_name.spelled();
        let found = first_listed(self.files.files(), &[], 0, &self.near, &self.names, &name);
        Ok(file_of(found))
    }
}
