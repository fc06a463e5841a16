//! The text that a change makes, and changes whose text is made before their edit.
//!
//! The text of a long list of changes takes time. So a caller makes it from a copy of the text of
//! the file, while it holds no lock. `Prepared` keeps by its type that it is that text. The edit
//! takes it where the file still has the text from which it was made.
ghost use Rattle.std.specs.Prelude.{◌≡◌, ◌↔◌, IfOk, IfErr, IsTrue, option_copied, string_bytes};
ghost use Rattle.std.specs.Option.{option_map};
ghost use Rattle.pq_inputs.specs.Sources.{file_in};
ghost use Rattle.pq_core.specs.Bodies.{body_view};
ghost use Rattle.pq_core.specs.Changes.{text_after};
ghost use Rattle.pq_core.specs.Preparing.{bytes_made};

use crate::values::fault::Memory;
use crate::values::request::{Body, Change};
use pq_inputs::Inputs;
use pq_lex::{TextChange, apply};
use std::alloc::Global;
use std::marker::Model;

/// The number of changes up to which an edit makes their text itself.
const FEW: usize = 16;

/// The sum of the lengths in bytes of new texts up to which an edit makes the text itself.
const SHORT: usize = 1048576;

/// The text after `body` of `before`, or `None` where a range is bad. An absent file has `None` for
/// its text.
pub(crate) fn text_made(
    alloc: Global,
    body: &Body,
    before: Option<&str>,
) -> Result<Option<Option<String>>, Memory>
    ensures { IfOk result (λ made. bytes_made made ≡ text_after (option_copied before.entry) (body_view body.now)) }
{
    match body {
        Body::Set(Some(text)) => Ok(Some(Some(text.clone()?))),
        Body::Set(None) => Ok(Some(None)),
        Body::Ranged(changes) => match apply(alloc, before, changes.as_slice())? {
            Some(text) => Ok(Some(Some(text))),
            None => Ok(None),
        },
    }
}

/// Whether the new texts of `changes` have more than `SHORT` bytes.
fn are_long(changes: &[TextChange]) -> bool {
    let mut left = SHORT;
    for change in changes {
        match left.checked_sub(change.text.len()) {
            Some(less) => left = less,
            None => return true,
        }
    }
    false
}

impl Change {
    /// Whether its text is worth preparing: it has many changes with ranges, or long ones. The
    /// answer is a hint alone: an edit is the same with a text that was prepared and without.
    pub fn is_long(&self) -> bool {
        match &self.body {
            Body::Set(_) => false,
            Body::Ranged(changes) => changes.len() > FEW || are_long(changes.as_slice()),
        }
    }
}

/// A change, a text, and the text that the change makes of it.
///
/// Contracts see the change, and the text from which it was prepared.
#[derive(Drop)]
pub struct Prepared {
    pub(crate) change: Change,
    before: Option<String>,
    pub(crate) made: Option<Option<String>>,
}

impl Model for Prepared {
    ghost use Rattle.std.specs.Prelude.{◌≡◌, string_bytes};
    ghost use Rattle.std.specs.Option.{option_map};
    ghost use Rattle.pq_core.specs.Changes.{text_after};
    ghost use Rattle.pq_core.specs.Preparing.{PreparedView, bytes_made};

    ghost Value = { PreparedView };

    ghost view = { λ p. record { change = p.change; before = option_map string_bytes p.before } };

    ghost invariant = { λ p. bytes_made p.made ≡ text_after (option_map string_bytes p.before) p.change.body };
}

impl Prepared {
    /// Makes the text after `change` of `before`. An absent file has `None` for its text.
    ///
    /// # Errors
    ///
    /// An allocation failure. The change comes back.
    pub fn of(alloc: Global, change: Change, before: Option<String>) -> Result<Prepared, Change>
        // `change`, `before`, `back`: The change, and the text from which it was prepared; after an
        // allocation failure the change comes back.
        ensures change { IfOk result (λ prepared. prepared.change ≡ change) }
        ensures before { IfOk result (λ prepared. prepared.before ≡ option_map string_bytes before) }
        ensures back { IfErr result (λ back. back ≡ change) }
    {
        match text_made(alloc, &change.body, before.as_deref()) {
            Ok(made) => Ok(Prepared {
                change,
                before,
                made,
            }),
            Err(_) => Err(change),
        }
    }

    /// The change.
    pub fn change(&self) -> &Change
        // The change that was prepared.
        ensures { result.now ≡ self.now.change }
    {
        &self.change
    }

    /// The change, without what was prepared.
    pub fn into_change(self) -> Change
        // The change that was prepared.
        ensures { result ≡ self.change }
    {
        let Prepared { change, .. } = self;
        change
    }

    /// Whether the file of the change has in `inputs` the text from which it was prepared. Its time
    /// is linear in that text.
    pub fn is_current(&self, inputs: &Inputs) -> bool
        // Whether the file of the change has the text from which it was prepared, both ways.
        ensures { IsTrue result ↔ ((file_in inputs.now.files self.now.change.file).text ≡ self.now.before) }
    {
        is_same(
            inputs.get(self.change.file.as_str()),
            self.before.as_deref(),
        )
    }
}

/// Whether two texts are the same, or both absent.
fn is_same(a: Option<&str>, b: Option<&str>) -> bool
    ensures { IsTrue result ↔ (option_copied a.entry ≡ option_copied b.entry) }
{
    match (a, b) {
        (Some(a), Some(b)) => a == b,
        (None, None) => true,
        _ => false,
    }
}
