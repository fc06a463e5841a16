//! What the threads of a server ask of a hall.
//!
//! They see the hall through a trait, and the hall's rule set through one. So the code that starts
//! threads is proved for any rule set, without the values of proto3 files.
ghost use Rattle.std.specs.Prelude.{◌≡◌, Ok, IfOk, OnErr, string_bytes};
ghost use Rattle.pq_session.specs.Labels.{label_model};
ghost use Rattle.pq_session.specs.Reply.{out_of_memory_text};

use crossbeam_channel::Receiver;
use pq_core::{Label, OpenFault, Reply, Stamp};
use pq_hall::{
    BoardName, Braces, Client, ClientEnds, Gate, Hall, HallFault, HallRules, Mark, Moved, OneValue,
};
use pq_mail::{
    CAPACITY, MailEnd, PorterEnd, Post, PostEnd, PostFault, Receipt, RightReply, TakeEnd,
};
use pq_proto::{ProtoKey, ProtoValue};
use pq_rules::Rules;
use pq_session::{
    DiagnosticList, Memory, Root, definition_file, diagnostic_list, editor_text,
    out_of_memory_text, reply_text,
};
use std::alloc::{AllocError, Global};
use std::sync::Wait;

/// `text` or, if an allocation failed for it, the text that says so to the request with this label.
pub(crate) fn text_or_refusal(
    alloc: Global,
    text: Result<String, AllocError>,
    label: &Label,
) -> Result<String, AllocError>
    // `made`, `refused`: The text of a reply, or the error -32603 with the label of its request if
    // there is none.
    ensures made { IfOk text (λ made. result ≡ Ok made) }
    ensures refused { OnErr text (IfOk result (λ said. string_bytes said ≡ out_of_memory_text (label_model label.now))) }
{
    match text {
        Ok(text) => Ok(text),
        Err(_) => out_of_memory_text(alloc, label),
    }
}

/// After so many replies that were taken one by one a writer calls `refill`: the replies that an outbox
/// holds.
pub(crate) const TAKES: usize = CAPACITY;

/// What the writer of a session owes its client: the reply of a receipt.
#[derive(Drop)]
pub(crate) struct Owed<Q> {
    pub(crate) receipt: Q,
    /// The root of the session when the request came.
    pub(crate) root: Root,
}

/// Why a receipt or a reply has no text.
#[derive(Clone, Copy, Debug, PartialEq, Eq)]
pub(crate) enum NoText {
    /// The client was closed, and no reply comes.
    Closed,
    /// An allocation failed, also for the text that says so.
    Memory,
}

impl From<MailEnd> for NoText {
    /// No reply comes.
    fn from(_end: MailEnd) -> NoText {
        NoText::Closed
    }
}

impl From<AllocError> for NoText {
    /// An allocation failure is `Memory`.
    fn from(_error: AllocError) -> NoText {
        NoText::Memory
    }
}

/// Where the files of an editor's session are.
pub(crate) trait Places {
    /// The URI of the file `name`.
    fn uri_of(&self, name: &str) -> Result<String, Memory>;

    /// What is said behind the message that an imported file is absent: the folders in which it was
    /// looked for.
    fn looked(&self) -> Result<String, Memory>;
}

/// A rule set whose requests are those of sessions, and whose replies have texts.
pub(crate) trait Texts: Rules {
    /// `post`, as a post of these rules.
    fn post_of(post: Post<ProtoKey>) -> Post<Self::Key>;

    /// The text of `reply`, for a session with the root `root`.
    fn text_of<M: Stamp>(
        alloc: Global,
        root: &Root,
        reply: &Reply<Self::Key, Self::Value, M>,
    ) -> Result<String, AllocError>;

    /// The file of the definition that `reply` answers, if it answers one.
    fn file_of<M: Stamp>(reply: &Reply<Self::Key, Self::Value, M>) -> Option<&str>;

    /// The text of `reply` for an editor. `uri` is the URI of the file of its definition, if it answers
    /// one. `looked` is what is said behind the message that an imported file is absent.
    fn editor_text_of<M: Stamp>(
        alloc: Global,
        uri: &str,
        looked: &str,
        reply: &Reply<Self::Key, Self::Value, M>,
    ) -> Result<String, AllocError>;

    /// The diagnostics that `reply` answers, if it answers some. `looked` is what is said behind the
    /// message that an imported file is absent.
    fn list_of<M: Stamp>(
        alloc: Global,
        looked: &str,
        reply: &Reply<Self::Key, Self::Value, M>,
    ) -> Result<Option<DiagnosticList>, AllocError>;
}

impl<B: Braces> Texts for HallRules<B> {
    fn post_of(post: Post<ProtoKey>) -> Post<ProtoKey> {
        post
    }

    fn text_of<M: Stamp>(
        alloc: Global,
        root: &Root,
        reply: &Reply<ProtoKey, ProtoValue, M>,
    ) -> Result<String, AllocError> {
        reply_text(alloc, root, reply)
    }

    fn file_of<M: Stamp>(reply: &Reply<ProtoKey, ProtoValue, M>) -> Option<&str> {
        definition_file(reply)
    }

    fn editor_text_of<M: Stamp>(
        alloc: Global,
        uri: &str,
        looked: &str,
        reply: &Reply<ProtoKey, ProtoValue, M>,
    ) -> Result<String, AllocError> {
        editor_text(alloc, uri, looked, reply)
    }

    fn list_of<M: Stamp>(
        alloc: Global,
        looked: &str,
        reply: &Reply<ProtoKey, ProtoValue, M>,
    ) -> Result<Option<DiagnosticList>, AllocError> {
        diagnostic_list(alloc, looked, reply)
    }
}

/// The ends of the mailboxes of a client that has joined.
#[derive(Drop)]
pub(crate) struct Ends<P, C, T> {
    pub(crate) post: P,
    pub(crate) porter: C,
    pub(crate) take: T,
}

/// What a post came to that was carried.
#[derive(Clone, Copy, Debug, PartialEq, Eq)]
pub(crate) enum Carried {
    /// An edit made this revision.
    Edited(u64),
    /// A request was accepted, or a withdrawal made.
    Other,
    /// The client posts nothing more.
    Ended,
}

/// A hall as the reader of a session sees it, whatever its rules are.
///
/// The reader keeps its end on one thread, so no type here is bound by `Send`.
pub(crate) trait Posting<H> {
    /// The end that posts.
    type Post: Drop;

    /// What a reply is taken by.
    type Receipt: Drop;

    /// Posts `post`. Returns the receipt of a request.
    fn post(
        &self,
        rt: &H,
        end: &mut Self::Post,
        post: Post<ProtoKey>,
    ) -> Result<Option<Self::Receipt>, PostFault>;

    /// Posts `post` as `post` does, but wakes nobody, unless it waits for room. `wake` is called after it.
    fn post_quietly(
        &self,
        rt: &H,
        end: &mut Self::Post,
        post: Post<ProtoKey>,
    ) -> Result<Option<Self::Receipt>, PostFault>;

    /// Wakes who carries the posts of `end`, if that thread waits.
    fn wake(&self, end: &Self::Post);
}

/// A hall as a server sees it, whatever its rules are and whatever names its marks.
pub(crate) trait Floor<H>: Posting<H, Post: Send, Receipt: Send> + Sync {
    /// The end whose posts are carried.
    type Porter: Send + Drop;

    /// The end from which the replies of a client are taken.
    type Take: Send + Drop;

    /// Opens a client. An error says that there are too many, or that an allocation failed.
    fn join(
        &self,
        rt: &H,
    ) -> Result<(Client, Ends<Self::Post, Self::Porter, Self::Take>), OpenFault>;

    /// Carries the next post of `client` into the store. An error says why the client was closed.
    fn carry(
        &self,
        rt: &H,
        client: Client,
        porter: &mut Self::Porter,
    ) -> Result<Carried, HallFault>;

    /// Waits until each reply to `client` was put, and closes it. So a writer that takes them finds an
    /// end after the last. It waits no longer once the client is closed or the hall is shut.
    fn finish(&self, rt: &H, client: Client);

    /// The text of the next reply, whose receipt `owed` gives next. It waits for the reply, and then for
    /// the receipt. If an allocation fails for it, it is the text that says so. `None` if no reply is
    /// left and the client was closed. The writer calls `refill` after each `TAKES` texts.
    fn next_text(
        &self,
        rt: &H,
        alloc: Global,
        take: &mut Self::Take,
        owed: &Receiver<Owed<Self::Receipt>>,
    ) -> Result<Option<String>, NoText>;

    /// The text of the next reply, as `next_text` gives it, if the reply is there. `None` if it is not.
    fn ready_text(
        &self,
        rt: &H,
        alloc: Global,
        take: &mut Self::Take,
        owed: &Receiver<Owed<Self::Receipt>>,
    ) -> Result<Option<String>, NoText>;

    /// Puts those replies to `client` that have room. It waits for nobody.
    ///
    /// A writer that calls it after each 32nd take waits only where no reply that is next is left in the
    /// lane. Who fills a reply in puts what is next under the same hold of the lane's lock, up to a put
    /// that is refused: at one moment of it 32 replies are in the outbox. The writer takes these before it
    /// finds the outbox empty, and refills after one of them. That hold of the lock is after the one with
    /// the refused put, and its last put may be refused again: then the same holds of it.
    fn refill(&self, rt: &H, client: Client);

    /// The text of the reply of `receipt` for an editor. The URI of a definition is that of `places` for
    /// its file, and `places` has the folders in which an absent file was looked for. If an allocation
    /// fails for the text, it is the text that says so.
    fn editor_text<P: Places>(
        &self,
        rt: &H,
        alloc: Global,
        client: Client,
        take: &mut Self::Take,
        receipt: &Self::Receipt,
        places: &P,
    ) -> Result<String, NoText>;

    /// The diagnostics that the reply of `receipt` answers, if it answers some. `places` has the folders
    /// in which an absent file was looked for.
    fn list<P: Places>(
        &self,
        rt: &H,
        alloc: Global,
        client: Client,
        take: &mut Self::Take,
        receipt: &Self::Receipt,
        places: &P,
    ) -> Result<Option<DiagnosticList>, NoText>;

    /// Closes `client`, if it is open.
    fn close(&self, rt: &H, client: Client);

    /// Ends the workers.
    fn shut(&self, rt: &H);
}

/// A hall whose workers pass a gate of the type `G`.
pub(crate) trait Works<G, H>: Sync {
    /// Runs a worker until the hall is shut.
    fn work_with(&self, rt: &H, gate: &G);
}

impl<S, J, G, H> Works<G, H> for Hall<S, J, H>
where
    S: Texts + OneValue + Send + Sync + 'static,
    S::Key: Send + Sync,
    S::Value: Send + Sync,
    S::Part: Send,
    J: BoardName + Send + Sync + 'static,
    G: Gate<S>,
    H: Wait + Copy + Drop + Send + Sync + 'static,
{
    fn work_with(&self, rt: &H, gate: &G) {
        self.work(rt, gate);
    }
}

impl<S, J, H> Posting<H> for Hall<S, J, H>
where
    S: Texts + OneValue + Send + Sync + 'static,
    S::Key: Send + Sync,
    S::Value: Send + Sync,
    S::Part: Send,
    J: BoardName + Send + Sync + 'static,
    H: Wait + Copy + Drop + Send + Sync + 'static,
{
    type Post = PostEnd<S>;

    type Receipt = Receipt<S::Key>;

    fn post(
        &self,
        rt: &H,
        end: &mut PostEnd<S>,
        post: Post<ProtoKey>,
    ) -> Result<Option<Receipt<S::Key>>, PostFault> {
        match end.post(rt, S::post_of(post)) {
            Ok(receipt) => Ok(asked(receipt)),
            Err(refused) => Err(refused.fault),
        }
    }

    fn post_quietly(
        &self,
        rt: &H,
        end: &mut PostEnd<S>,
        post: Post<ProtoKey>,
    ) -> Result<Option<Receipt<S::Key>>, PostFault> {
        match end.post_quietly(rt, S::post_of(post)) {
            Ok(receipt) => Ok(asked(receipt)),
            Err(refused) => Err(refused.fault),
        }
    }

    fn wake(&self, end: &PostEnd<S>) {
        end.wake();
    }
}

impl<S, J, H> Floor<H> for Hall<S, J, H>
where
    S: Texts + OneValue + Send + Sync + 'static,
    S::Key: Send + Sync,
    S::Value: Send + Sync,
    S::Part: Send,
    J: BoardName + Send + Sync + 'static,
    H: Wait + Copy + Drop + Send + Sync + 'static,
{
    type Porter = PorterEnd<S::Key>;

    type Take = TakeEnd<S, Mark<J>>;

    fn join(
        &self,
        rt: &H,
    ) -> Result<
        (
            Client,
            Ends<PostEnd<S>, PorterEnd<S::Key>, TakeEnd<S, Mark<J>>>,
        ),
        OpenFault,
    > {
        let ClientEnds {
            client,
            post,
            porter,
            take,
        } = self.join_client(rt)?;
        Ok((client, Ends { post, porter, take }))
    }

    fn carry(
        &self,
        rt: &H,
        client: Client,
        porter: &mut PorterEnd<S::Key>,
    ) -> Result<Carried, HallFault> {
        let moved = self.carry_one(rt, client, porter)?;
        Ok(outcome_of(moved))
    }

    fn finish(&self, rt: &H, client: Client) {
        self.finish(rt, client);
    }

    fn next_text(
        &self,
        rt: &H,
        alloc: Global,
        take: &mut TakeEnd<S, Mark<J>>,
        owed: &Receiver<Owed<Receipt<S::Key>>>,
    ) -> Result<Option<String>, NoText> {
        match take.any(rt) {
            Some(reply) => text_of(rt, alloc, take, &reply, owed),
            None => Ok(None),
        }
    }

    fn ready_text(
        &self,
        rt: &H,
        alloc: Global,
        take: &mut TakeEnd<S, Mark<J>>,
        owed: &Receiver<Owed<Receipt<S::Key>>>,
    ) -> Result<Option<String>, NoText> {
        match take.try_any(rt) {
            Some(reply) => text_of(rt, alloc, take, &reply, owed),
            None => Ok(None),
        }
    }

    fn refill(&self, rt: &H, client: Client) {
        self.refill(rt, client);
    }

    fn editor_text<P: Places>(
        &self,
        rt: &H,
        alloc: Global,
        client: Client,
        take: &mut TakeEnd<S, Mark<J>>,
        receipt: &Receipt<S::Key>,
        places: &P,
    ) -> Result<String, NoText> {
        let taken = self.take_one(rt, client, take, receipt)?;
        let reply = taken.reply();
        let uri = match S::file_of(reply) {
            Some(file) => places.uri_of(file)?,
            None => String::new(alloc),
        };
        let looked = places.looked()?;
        let text = S::editor_text_of(alloc, uri.as_str(), looked.as_str(), reply);
        Ok(text_or_refusal(alloc, text, &reply.request().label)?)
    }

    fn list<P: Places>(
        &self,
        rt: &H,
        alloc: Global,
        client: Client,
        take: &mut TakeEnd<S, Mark<J>>,
        receipt: &Receipt<S::Key>,
        places: &P,
    ) -> Result<Option<DiagnosticList>, NoText> {
        let taken = self.take_one(rt, client, take, receipt)?;
        let looked = places.looked()?;
        Ok(S::list_of(alloc, looked.as_str(), taken.reply())?)
    }

    fn close(&self, rt: &H, client: Client) {
        self.close(rt, client);
    }

    fn shut(&self, rt: &H) {
        self.shut(rt);
    }
}

/// The text of `reply`, which was taken from `take`, whose receipt `owed` gives next.
fn text_of<S: Texts, M: Stamp, H: Wait>(
    rt: &H,
    alloc: Global,
    take: &TakeEnd<S, M>,
    reply: &RightReply<S, M>,
    owed: &Receiver<Owed<Receipt<S::Key>>>,
) -> Result<Option<String>, NoText> {
    let Ok(next) = owed.recv(rt) else {
        return Err(NoText::Closed);
    };
    if !take.is_of(&next.receipt, reply) {
        return Err(NoText::Closed);
    }
    let reply = reply.reply();
    let text = S::text_of(alloc, &next.root, reply);
    Ok(Some(text_or_refusal(alloc, text, &reply.request().label)?))
}

/// What `moved` says of a post.
fn outcome_of<K: Drop>(moved: Moved<K>) -> Carried {
    match moved {
        Moved::Edited(revision) => Carried::Edited(revision.number()),
        Moved::Ended => Carried::Ended,
        _ => Carried::Other,
    }
}

/// `receipt`, if it is that of a request.
fn asked<K: Drop>(receipt: Receipt<K>) -> Option<Receipt<K>> {
    if receipt.request.is_none() {
        return None;
    }
    Some(receipt)
}
