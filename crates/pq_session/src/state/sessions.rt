//! A session with one client: its phase, and what each message asks for.
ghost use Rattle.std.specs.Prelude.{◌≡◌, IfOk, IfSome, OnOk, OnErr, option_map, unwrap_or};
ghost use Rattle.pq_frame.specs.Messages.{message_model, HasOneLabel};
ghost use Rattle.pq_session.specs.Labels.{label_model, HasOneForm};
ghost use Rattle.pq_session.specs.Session.{meaning_of, next_phase, root_in};
ghost use Rattle.pq_session.specs.Items.{reply_label, item_meaning, item_label, HasFittingWant};
ghost use Rattle.pq_session.specs.declared.state.phase.Phase.{Phase};
ghost use Rattle.pq_session.specs.declared.state.phase.Phase.TheVariants.{Fresh};

use crate::protocol::methods::{NotificationMethod, RequestMethod};
use crate::protocol::refusals::Refusal;
use crate::protocol::root::Root;
use crate::state::items::Item;
use crate::state::labels::core_label;
use crate::state::notifications::on_notification;
use crate::state::phase::Phase;
use crate::state::requests::{on_request, refused};
use pq_core::Label;
use pq_frame::Message;
use pq_proto::ProtoKey;
use std::alloc::{AllocError, Global};
use std::marker::Model;

/// A session with one client, which contracts see as its phase (LSP 3.17, "Server lifecycle").
///
/// It has no sources: it says what each message asks for, and the caller does it.
#[derive(Debug, Drop)]
pub struct Session {
    phase: Phase,
}

impl Model for Session {
    ghost Value = { Phase };

    ghost view = { λ s. s.phase };
}

impl Session {
    /// A session before `initialize`.
    pub fn new() -> Session
        // A new session is in the phase `Fresh`.
        ensures { result ≡ Fresh }
    {
        Session {
            phase: Phase::Fresh,
        }
    }

    /// The root that `initialize` gave, up to `shutdown`. It never changes, so a copy of it serves
    /// whoever prints the URIs of files.
    pub fn root(&self) -> Option<&Root>
        // The root that the session has is that of the definitions.
        ensures { option_map (λ root. root.now) result ≡ root_in self.now }
    {
        self.phase.root()
    }

    /// What the client's next message asks for. A request that the phase does not allow gets an
    /// error as its response. An edit of unreadable parameters ends the session with
    /// `UNREADABLE_PARAMETERS`. The texts of an edit are moved out of the message, not copied.
    ///
    /// An allocation failure leaves the session as it was, and the message is lost.
    pub fn on(&mut self, alloc: Global, message: Message) -> Result<Item<ProtoKey>, AllocError>
        // The item of a message means what the definition says, by the phase before it.
        ensures meaning { IfOk result (λ item.
            item_meaning item ≡ meaning_of self.old (message_model message)) }
        // `label`, `want`: A request's item has the label of its response; an `Ask` has a demand, a
        // `Say` a fixed text.
        ensures label { IfOk result (λ item.
            option_map label_model (item_label item) ≡ reply_label (message_model message)) }
        // If the label of the message has its one form, so has the label of the item.
        ensures one_form { HasOneLabel message → IfOk result (λ item.
            IfSome (item_label item) HasOneForm) }
        ensures want { IfOk result HasFittingWant }
        // `phase`, `kept`: The phase goes on as defined; an allocation failure leaves it as it was.
        ensures phase { OnOk result (self.new ≡ next_phase self.old (message_model message)) }
        ensures kept { OnErr result (self.new ≡ self.old) }
    {
        let (item, next) = item_and_phase(alloc, &self.phase, message)?;
        if let Some(phase) = next {
            self.phase = phase;
        }
        Ok(item)
    }
}

/// What `message` asks for in a session of this phase, and the phase after it if that is another.
#[tactic(auto, unfolding(crate::specs::Session::meaning_of, crate::specs::Session::next_phase))]
fn item_and_phase(
    alloc: Global,
    phase: &Phase,
    message: Message,
) -> Result<(Item<ProtoKey>, Option<Phase>), AllocError>
    ensures meaning { IfOk result (λ both.
        item_meaning both.0 ≡ meaning_of phase.now (message_model message)) }
    ensures label { IfOk result (λ both.
        option_map label_model (item_label both.0) ≡ reply_label (message_model message)) }
    ensures one_form { HasOneLabel message → IfOk result (λ both.
        IfSome (item_label both.0) HasOneForm) }
    ensures want { IfOk result (λ both. HasFittingWant both.0) }
    ensures phase { IfOk result (λ both.
        unwrap_or both.1 phase.now ≡ next_phase phase.now (message_model message)) }
{
    match message {
        Message::BadJson => Ok((refused(alloc, Label::None, Refusal::ParseError)?, None)),
        Message::Invalid(label) => {
            let label = core_label(alloc, label)?;
            Ok((refused(alloc, label, Refusal::InvalidRequest)?, None))
        }
        Message::Ask {
            label,
            method,
            params,
        } => {
            let label = core_label(alloc, label)?;
            let method = RequestMethod::named(method.as_str());
            let item = on_request(alloc, phase, label, method, params.as_ref())?;
            Ok((item, phase.after(alloc, method, params.as_ref())?))
        }
        Message::Notice { method, params } => {
            let method = NotificationMethod::named(method.as_str());
            Ok((on_notification(alloc, phase, method, params)?, None))
        }
        Message::Response => Ok((Item::Ignore, None)),
    }
}
