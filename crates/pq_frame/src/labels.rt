//! The label of a request, which its response repeats as `id`.
ghost use Rattle.std.specs.Prelude.{◌≡◌, ◌↔◌, option_map, IfOk, IfSome, IsTrue};
ghost use Rattle.serde_json.specs.View.{view, number_view};
ghost use Rattle.serde_json.specs.Find.{as_integer};
ghost use Rattle.pq_frame.specs.Labels.{label_model, integer_label, label_of as label_of_id, HasOneForm};

use crate::Memory;
use serde_json::{Number, Value};
use std::alloc::Global;

/// The `id` of a response: an integer of 64 bits, signed or unsigned, a string, or `null`
/// (JSON-RPC 2.0, "Request object" and "Response object").
///
/// `Message::read` makes `Negative` only of integers below 0. So an integer has one form, and `==`
/// of labels that were read is equality of their ids.
#[derive(Clone, Debug, Drop, PartialEq, Eq)]
pub enum Label {
    /// `null`: the label of the response to a body without a readable id.
    None,
    /// An integer from 0 to 2^64 - 1.
    Unsigned(u64),
    /// An integer from -2^63 to -1, if `Message::read` made it.
    Negative(i64),
    /// A string.
    Text(String),
}

/// The label of `number`, if it is an integer of 64 bits.
fn integer_label_of(number: &Number) -> Option<Label>
    ensures value { option_map label_model result
        ≡ option_map integer_label (as_integer (number_view number.now)) }
    ensures one_form { IfSome result HasOneForm }
{
    match number.as_i64() {
        Some(n) if n < 0 => Some(Label::Negative(n)),
        Some(n) => Some(Label::Unsigned(n as u64)),
        None => number.as_u64().map(Label::Unsigned),
    }
}

/// The label of the member `id`. It is `None` if `id` is absent, a number but not an integer of 64
/// bits, or of another kind. `Message::read` reads the label of a request by it.
///
/// # Errors
///
/// `Memory` where an allocation fails.
pub fn label_of(alloc: Global, id: Option<&Value>) -> Result<Label, Memory>
    // The label is the integer of 64 bits or the string that `id` is; without such an `id` it is
    // `None`.
    ensures value { IfOk result
        (λ label. label_model label ≡ label_of_id (option_map (λ d. view d.now) id.entry)) }
    // `HasOneForm`: A number of the label is `Negative` only below 0.
    ensures one_form { IfOk result HasOneForm }
{
    match id {
        Some(Value::Number(number)) => Ok(integer_label_of(number).unwrap_or(Label::None)),
        Some(Value::String(text)) => Ok(Label::Text(text.clone()?)),
        _ => Ok(Label::None),
    }
}

/// A law of labels: `==` of labels in their one form is equality of their models. `Message::read`
/// makes labels in this form alone.
pub fn equal_labels(first: &Label, second: &Label) -> bool
    // `==` of request ids that were read holds exactly if they are the same id.
    ensures exact { HasOneForm first.now → HasOneForm second.now
        → (IsTrue result ↔ (label_model first.now ≡ label_model second.now)) }
{
    first == second
}
