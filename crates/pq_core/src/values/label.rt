//! The label of a request.
ghost use Rattle.std.specs.Prelude.{◌≡◌, ◌↔◌, IfOk, IsTrue};

use crate::values::fault::Memory;
use pq_names::Text;

/// The name that a client gave a request (JSON-RPC 2.0, "Request object", `id`).
#[derive(Drop, PartialEq, Eq)]
pub enum Label {
    /// The request has no readable name.
    None,
    /// An integer from 0 to 2^64 - 1.
    Unsigned(u64),
    /// An integer from -2^63 to -1. What makes labels keeps to this range, so an integer has one
    /// form.
    Negative(i64),
    /// A string.
    Text(Text),
}

impl Label {
    /// The same label once more. It takes no memory: `Memory` says that the count of copies of a
    /// text is used up.
    pub fn copy(&self) -> Result<Label, Memory>
        // A copy is equal.
        ensures { IfOk result (λ l. l ≡ self.now) }
    {
        match self {
            Label::None => Ok(Label::None),
            Label::Unsigned(n) => Ok(Label::Unsigned(*n)),
            Label::Negative(n) => Ok(Label::Negative(*n)),
            Label::Text(text) => Ok(Label::Text(text.copy()?)),
        }
    }
}

/// Whether two texts are the same.
pub(crate) fn is_same_text(a: &Text, b: &Text) -> bool
    ensures { IsTrue result ↔ (a.now ≡ b.now) }
{
    a == b
}

/// Whether two labels are the same.
pub(crate) fn is_same_label(a: &Label, b: &Label) -> bool
    ensures { IsTrue result ↔ (a.now ≡ b.now) }
{
    match (a, b) {
        (Label::None, Label::None) => true,
        (Label::Unsigned(a), Label::Unsigned(b)) => a == b,
        (Label::Negative(a), Label::Negative(b)) => a == b,
        (Label::Text(a), Label::Text(b)) => is_same_text(a, b),
        _ => false,
    }
}
