//! Edits of the sources: those of a list of names, of which a change may touch the sources.
ghost use Rattle.std.specs.Prelude.{◌≡◌, [], Some, IfOk, OnOk, option_copied};
ghost use Rattle.pq_view.specs.aux.Sights.{seen};
ghost use Rattle.pq_view.specs.aux.Touched.{add_edit, edit_at, edited, same_text};

use crate::sight::Sight;
use pq_names::{Memory, Text};
use std::alloc::Global;
use std::collections::BTreeSet;
use std::marker::Model;

/// An edit of the sources: the file `name` has `text` from now on, or is absent.
#[derive(Drop)]
pub struct Edit {
    /// The name of the file in the sources: relative to the roots, or the path of a document.
    pub name: Text,
    /// The text of the file, or `None` where it is absent.
    pub text: Option<Text>,
}

/// Edits of files, each of another file. Contracts see the list of them.
///
/// Beside the list lies a set of the files, so that a further edit takes logarithmic time.
#[derive(Drop)]
pub(crate) struct EditList {
    edits: Vec<Edit>,
    named: BTreeSet<Text>,
}

impl Model for EditList {
    ghost use Rattle.std.specs.Prelude.{List};
    ghost use Rattle.pq_view.specs.declared.edits.Edit.{Edit};
    ghost use Rattle.pq_view.specs.aux.Touched.{HasNames};

    ghost Value = { List Edit };

    ghost view = { λ l. l.edits.items };

    ghost invariant = { λ l. HasNames l.named l.edits.items };
}

impl EditList {
    /// No edits.
    fn new(alloc: Global) -> EditList
        ensures empty { result ≡ [] }
    {
        EditList {
            edits: Vec::new(alloc),
            named: BTreeSet::new(alloc),
        }
    }

    /// Adds `edit`, unless there is an edit of its file.
    fn add(&mut self, edit: Edit) -> Result<(), Memory>
        ensures added { OnOk result (self.new ≡ add_edit self.old (Some edit)) }
    {
        let key = edit.name.copy()?;
        self.edits.reserve(1)?;
        if self.named.insert(key)? {
            self.edits.push_reserved(edit);
        }
        Ok(())
    }

    /// The edits.
    fn into_vec(self) -> Vec<Edit>
        ensures edits { result.items ≡ self }
    {
        self.edits
    }
}

/// Whether two texts are the same, or both absent.
fn is_same(a: Option<&Text>, b: Option<&Text>) -> bool
    ensures same { result ≡ same_text (option_copied a.entry) (option_copied b.entry) }
{
    match a {
        None => b.is_none(),
        Some(a) => match b {
            None => false,
            Some(b) => a == b,
        },
    }
}

/// A copy of `text`, if there is one.
fn copy_of(text: Option<&Text>) -> Result<Option<Text>, Memory>
    ensures copy { IfOk result (λ copy. copy ≡ option_copied text.entry) }
{
    match text {
        None => Ok(None),
        Some(text) => Ok(Some(text.copy()?)),
    }
}

/// The edit of the file `name` from the view `before` to the view `after`, if its source differs.
fn edit_at(before: &Sight<'_>, after: &Sight<'_>, name: &Text) -> Result<Option<Edit>, Memory>
    ensures edit { IfOk result (λ edit. edit ≡ edit_at (seen before.now) (seen after.now) name.now) }
{
    let was = before.source(name.as_str())?;
    let is = after.source(name.as_str())?;
    if is_same(was, is) {
        return Ok(None);
    }
    let text = copy_of(is)?;
    Ok(Some(Edit {
        name: name.copy()?,
        text,
    }))
}

/// Adds the edit of the file `name`, if its source differs and there is no edit of it.
fn add_name(
    edits: &mut EditList,
    before: &Sight<'_>,
    after: &Sight<'_>,
    name: &Text,
) -> Result<(), Memory>
    ensures added { OnOk result
        (edits.new ≡ add_edit edits.old (edit_at (seen before.now) (seen after.now) name.now)) }
{
    match edit_at(before, after, name)? {
        Some(edit) => edits.add(edit),
        None => Ok(()),
    }
}

/// The edits of the files `names` from the view `before` to the view `after`.
pub(crate) fn edits_of(
    alloc: Global,
    before: &Sight<'_>,
    after: &Sight<'_>,
    names: &[Text],
) -> Result<Vec<Edit>, Memory>
    ensures edits { IfOk result (λ es. es.items ≡ edited (seen before.now) (seen after.now) [] names.now) }
{
    let mut edits = EditList::new(alloc);
    'names: for name in names {
        add_name(&mut edits, before, after, name)?;
    }
    Ok(edits.into_vec())
}
