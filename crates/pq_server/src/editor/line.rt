//! A client of the hall whose posts are carried by the thread that makes them.
use crate::serving::floor::{Carried, Ends, Floor};
use crate::serving::porter::fault_of;
use pq_hall::Client;
use pq_mail::{Post, PostFault};
use pq_proto::ProtoKey;
use pq_session::ScriptFault;
use std::sync::Wait;

/// What a post came to.
#[derive(Drop)]
pub(crate) enum Handed<Q> {
    /// A request was accepted. Its reply is taken by this receipt.
    Asked(Q),
    /// An edit made this revision.
    Edited(u64),
    /// A withdrawal was made.
    Withdrawn,
    /// The client was closed.
    Closed,
}

/// A client of the hall `floor`, with its end that posts and the end whose posts are carried.
#[derive(Drop)]
pub(crate) struct Line<'a, F: Floor<H>, H> {
    rt: &'a H,
    floor: &'a F,
    client: Client,
    post: F::Post,
    porter: F::Porter,
}

impl<'a, F: Floor<H>, H: Wait> Line<'a, F, H> {
    /// The line of `client`, with the end from which its replies are taken.
    pub(crate) fn new(
        rt: &'a H,
        floor: &'a F,
        client: Client,
        ends: Ends<F::Post, F::Porter, F::Take>,
    ) -> (Line<'a, F, H>, F::Take) {
        let Ends { post, porter, take } = ends;
        let line = Line {
            rt,
            floor,
            client,
            post,
            porter,
        };
        (line, take)
    }

    /// The client.
    pub(crate) fn client(&self) -> Client {
        self.client
    }

    /// Posts `post` and carries it into the store. It waits while too many replies are owed to the
    /// client.
    ///
    /// An error says why the client was closed, or that an allocation failed before the post.
    pub(crate) fn hand_in(
        &mut self,
        post: Post<ProtoKey>,
    ) -> Result<Handed<F::Receipt>, ScriptFault> {
        match self.floor.post(self.rt, &mut self.post, post) {
            Ok(receipt) => self.carry(receipt),
            Err(PostFault::Gone) => Ok(Handed::Closed),
            Err(PostFault::Memory) => Err(ScriptFault::Memory),
        }
    }

    /// Carries the post of `receipt`.
    fn carry(&mut self, receipt: Option<F::Receipt>) -> Result<Handed<F::Receipt>, ScriptFault> {
        match self.floor.carry(self.rt, self.client, &mut self.porter) {
            Ok(Carried::Edited(revision)) => Ok(Handed::Edited(revision)),
            Ok(Carried::Ended) => Ok(Handed::Closed),
            Ok(Carried::Other) => match receipt {
                Some(receipt) => Ok(Handed::Asked(receipt)),
                None => Ok(Handed::Withdrawn),
            },
            Err(fault) => match fault_of(fault) {
                Some(fault) => Err(fault),
                None => Ok(Handed::Closed),
            },
        }
    }
}
