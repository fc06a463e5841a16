//! Halls, as a script sees them: one trait, whatever the rules are and whatever names the marks.
use crate::halls::answers::{add_fault, add_moved, add_reply};
use pq_core::{OpenFault, Reply, Stamp};
use pq_hall::{BoardName, Braces, Client, ClientEnds, Gate, Hall, HallRules, Mark, OneValue};
use pq_inputs::Revision;
use pq_mail::{MailEnd, PorterEnd, Post, PostEnd, PostFault, Receipt, TakeEnd};
use pq_proto::{ProtoKey, ProtoValue};
use pq_rules::Rules;
use pq_session::{Root, reply_text};
use std::alloc::{AllocError, Global};
use std::sync::Wait;
use test_support::Page;

/// A rule set whose requests are those of sessions, and whose replies have texts.
pub(crate) trait Texts: Rules {
    /// `post`, as a post of these rules.
    fn post_of(post: Post<ProtoKey>) -> Post<Self::Key>;

    /// The text of `reply`.
    fn text_of<M: Stamp>(
        alloc: Global,
        reply: &Reply<Self::Key, Self::Value, M>,
    ) -> Result<String, AllocError>;

    /// Whether `key` is that of the parse of the file `name`.
    fn is_parse(key: &Self::Key, name: &str) -> bool;
}

impl<B: Braces> Texts for HallRules<B> {
    fn post_of(post: Post<ProtoKey>) -> Post<ProtoKey> {
        post
    }

    fn text_of<M: Stamp>(
        alloc: Global,
        reply: &Reply<ProtoKey, ProtoValue, M>,
    ) -> Result<String, AllocError> {
        let root = Root::of(alloc, None)?;
        reply_text(alloc, &root, reply)
    }

    fn is_parse(key: &ProtoKey, name: &str) -> bool {
        match key {
            ProtoKey::Parse(file) => file.as_str() == name,
            _ => false,
        }
    }
}

/// The ends of the mailboxes of a client.
#[derive(Drop)]
pub(crate) struct Ends<P, C, T> {
    pub(crate) client: Client,
    pub(crate) post: P,
    pub(crate) porter: C,
    pub(crate) take: T,
}

/// A hall, as a script sees it, whatever its rules are and whatever names its marks. A thread that a
/// script begins uses the hall, so all types of a hall are `Send`: the proof of the thread asks for it.
pub(crate) trait Stage<H>: Sync {
    /// The end that posts.
    type Post: Send + Drop;

    /// The end whose posts are carried.
    type Porter: Send + Drop;

    /// The end from which the replies of a client are taken.
    type Take: Send + Drop;

    /// What a reply is taken by.
    type Receipt: Send + Drop;

    /// Opens a client.
    fn join(&self, rt: &H) -> Result<Ends<Self::Post, Self::Porter, Self::Take>, OpenFault>;

    /// Posts `post`. Returns the number of the receipt, and the receipt if it is that of a request.
    fn post(
        &self,
        rt: &H,
        end: &mut Self::Post,
        post: Post<ProtoKey>,
    ) -> Result<(u64, Option<Self::Receipt>), PostFault>;

    /// Carries the next post of `client`, and writes what became of it.
    fn carry(&self, rt: &H, page: &mut Page, client: Client, porter: &mut Self::Porter);

    /// Takes the reply of `receipt`, and writes it, or its text.
    fn take(
        &self,
        rt: &H,
        page: &mut Page,
        client: Client,
        take: &mut Self::Take,
        receipt: &Self::Receipt,
        is_text: bool,
    );

    /// Whether `revision` has a mark.
    fn has_mark(&self, rt: &H, revision: Revision) -> bool;

    /// Closes `client`.
    fn close(&self, rt: &H, client: Client);

    /// Ends the workers.
    fn shut(&self, rt: &H);
}

/// A hall whose workers pass a gate of the type `G`.
pub(crate) trait Works<G, H>: Sync {
    /// Runs a worker until the hall is shut.
    fn work_with(&self, rt: &H, gate: &G);
}

impl<S, J, G, H> Works<G, H> for Hall<S, J, H>
where
    S: Texts + OneValue + Send + Sync + 'static,
    S::Key: Send + Sync,
    S::Value: Send + Sync,
    S::Part: Send,
    J: BoardName + Send + Sync + 'static,
    G: Gate<S>,
    H: Wait + Copy + Drop + Send + Sync + 'static,
{
    fn work_with(&self, rt: &H, gate: &G) {
        self.work(rt, gate);
    }
}

impl<S, J, H> Stage<H> for Hall<S, J, H>
where
    S: Texts + OneValue + Send + Sync + 'static,
    S::Key: Send + Sync,
    S::Value: Send + Sync,
    S::Part: Send,
    J: BoardName + Send + Sync + 'static,
    H: Wait + Copy + Drop + Send + Sync + 'static,
{
    type Post = PostEnd<S>;

    type Porter = PorterEnd<S::Key>;

    type Take = TakeEnd<S, Mark<J>>;

    type Receipt = Receipt<S::Key>;

    fn join(
        &self,
        rt: &H,
    ) -> Result<Ends<PostEnd<S>, PorterEnd<S::Key>, TakeEnd<S, Mark<J>>>, OpenFault> {
        let ClientEnds {
            client,
            post,
            porter,
            take,
        } = self.join_client(rt)?;
        Ok(Ends {
            client,
            post,
            porter,
            take,
        })
    }

    fn post(
        &self,
        rt: &H,
        end: &mut PostEnd<S>,
        post: Post<ProtoKey>,
    ) -> Result<(u64, Option<Receipt<S::Key>>), PostFault> {
        match end.post(rt, S::post_of(post)) {
            Ok(receipt) => Ok((receipt.number.number(), asked(receipt))),
            Err(refused) => Err(refused.fault),
        }
    }

    fn carry(&self, rt: &H, page: &mut Page, client: Client, porter: &mut PorterEnd<S::Key>) {
        match self.carry_one(rt, client, porter) {
            Ok(moved) => add_moved(page, moved),
            Err(fault) => add_fault(page, fault),
        }
    }

    fn take(
        &self,
        rt: &H,
        page: &mut Page,
        client: Client,
        take: &mut TakeEnd<S, Mark<J>>,
        receipt: &Receipt<S::Key>,
        is_text: bool,
    ) {
        match self.take_one(rt, client, take, receipt) {
            Ok(reply) => {
                if is_text {
                    match S::text_of(page.alloc, reply.reply()) {
                        Ok(text) => page.add(text.as_str()),
                        Err(_) => page.cut(),
                    }
                } else {
                    add_reply(page, reply.reply());
                }
            }
            Err(MailEnd::Ended) => page.add("ended"),
            Err(MailEnd::Stranger) => page.add("stranger"),
        }
    }

    fn has_mark(&self, rt: &H, revision: Revision) -> bool {
        self.mark(rt, revision).is_some()
    }

    fn close(&self, rt: &H, client: Client) {
        self.close(rt, client);
    }

    fn shut(&self, rt: &H) {
        self.shut(rt);
    }
}

/// `receipt`, if it is that of a request.
fn asked<K: Drop>(receipt: Receipt<K>) -> Option<Receipt<K>> {
    if receipt.request.is_none() {
        return None;
    }
    Some(receipt)
}
