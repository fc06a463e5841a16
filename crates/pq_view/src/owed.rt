//! Which lists of diagnostics are owed: one to each open document.
ghost use Rattle.std.specs.Prelude.{◌≡◌, IfOk};
ghost use Rattle.pq_view.specs.Held.{view_of};
ghost use Rattle.pq_view.specs.Owed.{AreOwed};
ghost use Rattle.pq_view.specs.aux.Owing.{owed_at};

use crate::view::View;
use pq_names::{Memory, Text};

/// The diagnostics of the file `name` are owed to the document at `path`.
#[derive(Drop)]
pub struct Owed {
    /// The path of the document.
    pub path: Text,
    /// The name by which the diagnostics of its file are asked.
    pub name: Text,
}

impl View {
    /// What is owed to the document at `path`.
    fn owed_at(&self, path: &str) -> Result<Owed, Memory>
        ensures owed { IfOk result (λ owed. owed ≡ owed_at (view_of self.now) path.now) }
    {
        let name = self.name_of(path)?;
        Ok(Owed {
            path: Text::new(self.alloc, path)?,
            name,
        })
    }

    /// The lists of diagnostics that are owed: one to each open document, in byte order of the
    /// paths.
    ///
    /// With R roots, N paths and D documents it takes at most D R^2 look-ups of log N comparisons.
    /// `Memory` comes if an allocation fails.
    pub fn owed(&self) -> Result<Vec<Owed>, Memory>
        // Each open document has one list, under the name by which its diagnostics are asked. No
        // other file has one.
        ensures owed { IfOk result (λ owed. AreOwed (view_of self.now) owed.items) }
    {
        let mut owed = Vec::new(self.alloc);
        'documents: for path in self.documents.keys() {
            owed.push(self.owed_at(path.as_str())?)?;
        }
        Ok(owed)
    }
}
