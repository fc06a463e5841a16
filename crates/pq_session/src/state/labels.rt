//! The label of a request, from the message into the core.
ghost use Rattle.std.specs.Prelude.{◌≡◌, IfOk};
ghost use Rattle.pq_frame.specs.Labels.{label_model as model_of_message, HasOneForm as HasOneMessageForm};
ghost use Rattle.pq_session.specs.Labels.{label_model, HasOneForm};

use pq_core::Label;
use pq_names::Text;
use std::alloc::{AllocError, Global};

/// The label of a request, as the core keeps it. A response prints both labels as the same `id`.
///
/// A string of more than `INLINE` bytes (`pq_names`) is moved, not copied, and the copies of the new
/// label share it.
pub(crate) fn core_label(alloc: Global, label: pq_frame::Label) -> Result<Label, AllocError>
    ensures same { IfOk result (λ made. label_model made ≡ model_of_message label) }
    ensures one_form { HasOneMessageForm label → IfOk result HasOneForm }
{
    match label {
        pq_frame::Label::None => Ok(Label::None),
        pq_frame::Label::Unsigned(n) => Ok(Label::Unsigned(n)),
        pq_frame::Label::Negative(n) => Ok(Label::Negative(n)),
        pq_frame::Label::Text(text) => Ok(Label::Text(Text::from_string(alloc, text)?)),
    }
}

/// The label of a request, as the core keeps it. The label of the message stays.
pub(crate) fn copied_label(alloc: Global, label: &pq_frame::Label) -> Result<Label, AllocError>
    ensures same { IfOk result (λ made. label_model made ≡ model_of_message label.now) }
    ensures one_form { HasOneMessageForm label.now → IfOk result HasOneForm }
{
    match label {
        pq_frame::Label::None => Ok(Label::None),
        pq_frame::Label::Unsigned(n) => Ok(Label::Unsigned(*n)),
        pq_frame::Label::Negative(n) => Ok(Label::Negative(*n)),
        pq_frame::Label::Text(text) => Ok(Label::Text(Text::new(alloc, text.as_str())?)),
    }
}
