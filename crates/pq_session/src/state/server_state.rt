//! The state of the server, and what it does for each message.
//!
//! `handle` reads a body as a message, asks the session what the message means, and carries that
//! out: it answers a query by the engine, makes an edit, or ends the session.
ghost use Rattle.std.specs.Prelude.{◌≡◌, IfOk, OnOk, IfErr, option_map, string_bytes, Some, None};
ghost use Rattle.pq_session.specs.Labels.{label_model};
ghost use Rattle.pq_core.specs.Changes.{BodyView, set, ranged};
ghost use Rattle.pq_proto.specs.Compile.{Compiles};
ghost use Rattle.pq_session.specs.Session.{edits};
ghost use Rattle.pq_session.specs.Items.{item_meaning, answer_meaning};
ghost use Rattle.pq_session.specs.Replies.{answer_text};
ghost use Rattle.pq_session.specs.Responses.{Responds, RespondsTo, IsAnswer, started, replies, root_of, silent};
ghost use Rattle.pq_session.specs.aux.ServerState.{state_of, response_of};
ghost use Rattle.pq_session.specs.aux.Steps.{Refuses, RefusesMeaning, Makes, IsTextFault};

use crate::fault::ScriptFault;
use crate::protocol::answers::answer_text;
use crate::protocol::refusals::Refusal;
use crate::protocol::replies::refusal_text;
use crate::protocol::root::Root;
use crate::state::items::Item;
use crate::state::sessions::Session;
use pq_core::{Body, Change, Label, Request, Want};
use pq_frame::Message;
use pq_inputs::{Durability, InputFault, Inputs};
use pq_lex::{TextChange, apply};
use pq_memo::{Demanded, Engine};
use pq_proto::{ProtoKey, ProtoRules, ProtoValue, proto_values};
use pq_rules::{Answer, Shared};
use std::alloc::{AllocError, Global};

/// A session, and the engine over the sources: those at the start, with the session's edits.
#[derive(Drop)]
pub(crate) struct ServerState {
    session: Session,
    engine: Engine<ProtoRules>,
}

/// What is to be done for one message.
#[derive(Drop)]
pub(crate) enum Step {
    /// A response of this text is to be written.
    Reply(String),
    /// Nothing.
    Silence,
    /// The session ends with this status.
    Finish(u8),
}

impl ServerState {
    /// The state at the start of a session over the sources of `inputs`, by these rules.
    pub(crate) fn new(alloc: Global, rules: ProtoRules, inputs: Inputs) -> ServerState
        ensures { state_of result ≡ started rules.loose inputs }
    {
        ServerState {
            session: Session::new(),
            engine: Engine::new(alloc, rules, inputs),
        }
    }

    /// The answer of `key` at the sources. What the engine has found stays for later demands.
    fn answer(
        &mut self,
        alloc: Global,
        key: &ProtoKey,
    ) -> Result<Shared<Answer<ProtoKey, ProtoValue>>, AllocError>
        ensures answer { IfOk result (λ answer.
            Compiles (state_of self.old).loose (state_of self.old).files key.now answer) }
        ensures kept { state_of self.new ≡ state_of self.old }
    {
        proto_values();
        let Demanded { answer, .. } = self.engine.demand(alloc, key)?;
        Ok(answer)
    }

    /// The response that gives `answer`, which a key has at the sources.
    fn answer_text(
        &self,
        alloc: Global,
        label: &Label,
        answer: &Answer<ProtoKey, ProtoValue>,
    ) -> Result<String, AllocError>
        ensures { IfOk result (λ text. string_bytes text ≡ answer_text (root_of (state_of self.now))
            (label_model label.now) (state_of self.now).revision answer.now) }
    {
        let revision = self.engine.inputs().now().number();
        match self.session.root() {
            Some(root) => answer_text(alloc, root, label, revision, answer),
            None => {
                let root = Root::of(alloc, None)?;
                answer_text(alloc, &root, label, revision, answer)
            }
        }
    }

    /// The response to the request of this label for the answer of `key`.
    fn response(
        &mut self,
        alloc: Global,
        label: &Label,
        key: &ProtoKey,
    ) -> Result<String, AllocError>
        ensures answer { IfOk result (λ text. IsAnswer (state_of self.old) (label_model label.now)
            key.now (string_bytes text)) }
        ensures kept { state_of self.new ≡ state_of self.old }
    {
        let answer = self.answer(alloc, key)?;
        self.answer_text(alloc, label, answer.get())
    }

    /// The response to `request`. After an allocation failure a query is refused.
    fn reply(&mut self, alloc: Global, request: Request<ProtoKey>) -> Result<String, AllocError>
        ensures reply { IfOk result (λ text. RespondsTo (state_of self.old) (answer_meaning request)
            (replies (string_bytes text)) (state_of self.old)) }
        ensures kept { state_of self.new ≡ state_of self.old }
    {
        let Request { label, want } = request;
        match want {
            Want::Fixed(text) => String::from_str(alloc, text.as_str()),
            Want::Demand(key) => match self.response(alloc, &label, &key) {
                Ok(text) => Ok(text),
                Err(_) => refusal_text(alloc, &label, Refusal::OutOfMemory),
            },
        }
    }

    /// Sets `file` to `text`, which is what the body of an edit makes of its text. A refused text
    /// leaves the sources as they were.
    fn set(
        &mut self,
        file: &str,
        text: Option<String>,
        durability: Durability,
    ) -> Result<(), ScriptFault>
        ensures ok { OnOk result ((body : BodyView) → Makes (state_of self.old) file.now body (option_map string_bytes text) →
            RespondsTo (state_of self.old) (edits (record { file = file.now; body = body; durability = durability })) silent (state_of self.new)) }
        ensures err { IfErr result (λ fault. (body : BodyView) → Makes (state_of self.old) file.now body (option_map string_bytes text) →
            RefusesMeaning (state_of self.old) (edits (record { file = file.now; body = body; durability = durability })) fault (state_of self.new)) }
    {
        match self.engine.set(file, text, durability) {
            Ok(_) => Ok(()),
            Err(refused) => match refused.fault {
                InputFault::Memory => Err(ScriptFault::Memory),
                fault => Err(ScriptFault::Edit(fault)),
            },
        }
    }

    /// The text of `file` after `changes`. The only errors are `BadRange` and `Memory`.
    fn text_after(
        &self,
        alloc: Global,
        file: &str,
        changes: &[TextChange],
    ) -> Result<String, ScriptFault>
        ensures ok { IfOk result (λ text. Makes (state_of self.now) file.now (ranged changes.now) (Some (string_bytes text))) }
        ensures err { IfErr result (λ fault. IsTextFault (state_of self.now) file.now (ranged changes.now) fault) }
    {
        match apply(alloc, self.engine.inputs().get(file), changes)? {
            Some(text) => Ok(text),
            None => Err(ScriptFault::BadRange),
        }
    }

    /// Makes an edit. An edit that is refused, or has a bad range, leaves the sources as they were.
    fn edit(&mut self, alloc: Global, change: Change) -> Result<(), ScriptFault>
        ensures ok { OnOk result (RespondsTo (state_of self.old) (edits change) silent (state_of self.new)) }
        ensures err { IfErr result (λ fault. RefusesMeaning (state_of self.old) (edits change) fault (state_of self.new)) }
    {
        let Change {
            file,
            body,
            durability,
        } = change;
        match body {
            Body::Set(text) => self.set(file.as_str(), text, durability),
            Body::Ranged(changes) => {
                let text = self.text_after(alloc, file.as_str(), &changes)?;
                self.set(file.as_str(), Some(text), durability)
            }
        }
    }

    /// Does what a message asks for.
    fn carry_out(&mut self, alloc: Global, item: Item<ProtoKey>) -> Result<Step, ScriptFault>
        ensures ok { IfOk result (λ step.
            RespondsTo (state_of self.old) (item_meaning item) (response_of step) (state_of self.new)) }
        ensures err { IfErr result (λ fault.
            RefusesMeaning (state_of self.old) (item_meaning item) fault (state_of self.new)) }
    {
        match item {
            Item::Ask(request) => Ok(Step::Reply(self.reply(alloc, request)?)),
            Item::Say(request) => Ok(Step::Reply(self.reply(alloc, request)?)),
            Item::Edit(change) => {
                self.edit(alloc, change)?;
                Ok(Step::Silence)
            }
            // Each request was answered before the next message is read.
            Item::Withdraw(_) => Ok(Step::Silence),
            Item::Ignore => Ok(Step::Silence),
            Item::End(status) => Ok(Step::Finish(status)),
        }
    }

    /// Handles the body of one message. The only errors are `Edit`, `BadRange` and `Memory`.
    #[tactic(auto, unfolding(crate::specs::Responses::Responds))]
    pub(crate) fn handle(&mut self, alloc: Global, body: &[u8]) -> Result<Step, ScriptFault>
        ensures ok { IfOk result (λ step.
            Responds (state_of self.old) body.now (response_of step) (state_of self.new)) }
        ensures err { IfErr result (λ fault.
            Refuses (state_of self.old) body.now fault (state_of self.new)) }
    {
        let message = Message::read(alloc, body)?;
        let item = self.session.on(alloc, message)?;
        self.carry_out(alloc, item)
    }
}
