//! The outbox of a client: its replies, in the order of its requests.
ghost use Rattle.std.specs.Prelude.{◌≡◌, ◌↔◌, ◌++◌, ◌∷◌, [], length, OnOk, OnErr, IfOk, IfErr, IfSome, IfNone, IsTrue};
ghost use Rattle.pq_mail.specs.Mailbox.{IsPrefixOf};
ghost use Rattle.pq_mail.specs.Posts.{IsReceiptOf, Misses};

use crate::ends::{GetEnd, PutEnd, Unput, mailbox};
use crate::fault::{MailEnd, Memory};
use crate::post::{Receipt, is_receipt_of};
use crate::right::RightReply;
use pq_core::{Outbox, PutFault, Reply, Stamp};
use pq_rules::Rules;
use std::alloc::Global;
use std::marker::Model;
use std::sync::Wait;

/// The end of an outbox that puts. A put never waits for room. It may wait for the step of another
/// thread on the same place, so the end keeps the handle `rt`. Contracts see the outbox's name and
/// what was put, in order.
#[derive(Drop)]
pub struct LaneEnd<R: Rules, M: Stamp, H: Wait> {
    rt: H,
    end: PutEnd<RightReply<R, M>>,
}

impl<R: Rules, M: Stamp, H: Wait> Model for LaneEnd<R, M, H> {
    ghost use Rattle.pq_mail.specs.Mailbox.{Side};
    ghost use Rattle.pq_core.specs.Replies.{ReplyView};

    ghost Value = { Side (ReplyView R.Key R.Value M) };

    ghost view = { λ e. e.end };
}

impl<R: Rules, M: Stamp, H: Wait + Drop> Outbox<R, M> for LaneEnd<R, M, H> {
    ghost use Rattle.std.specs.Prelude.{◌≡◌, ◌++◌, ◌∷◌, [], length, OnOk, OnErr, IfErr};
    ghost use Rattle.pq_core.specs.Truth.{IsTrueReply};
    ghost use Rattle.pq_core.specs.Outboxes.{handed_back, IsFull, IsGone};
    ghost use Rattle.pq_mail.specs.Mailbox.{HasNoRoom, no_items};

    ghost puts = { λ e. e.items };

    ghost takes = { no_items };

    ghost was_full = { λ e. HasNoRoom e.items };

    ghost was_gone = { λ e. Unit {0} };

    fn put(
        &mut self,
        reply: Reply<R::Key, R::Value, M>,
    ) -> Result<(), PutFault<R::Key, R::Value, M>>
        // The number of the reply is the count of the replies put before.
        requires number { reply.number ≡ length self.old.items }
        // What is put is true (`IsTrueReply`): an answer is that of the key of its request over the
        // sources of its stamp, and the reply names the revision of the stamp.
        requires right { IsTrueReply R.Key.cmp R.machine M.point reply }
        // `put`, `refused`, `back`: The reply is the last one put; a refusal puts nothing and hands
        // the reply back.
        ensures put { OnOk result (self.new.items ≡ self.old.items ++ reply ∷ []) }
        ensures refused { OnErr result (self.new.items ≡ self.old.items) }
        // The replies that were taken stay the same.
        ensures takes { no_items self.new ≡ no_items self.old }
        // `Full` only where at one moment of the call the outbox held 32 replies, the last ones
        // put.
        ensures full { IfErr result (λ fault. IsFull fault → HasNoRoom self.new.items) }
        // This clause always holds: it does not say when `Gone` is answered.
        ensures gone { IfErr result (λ fault. IsGone fault → Unit {0}) }
        ensures back { IfErr result (λ fault. handed_back fault ≡ reply) }
    {
        match self.end.try_put(&self.rt, RightReply::new(reply)) {
            Ok(()) => return Ok(()),
            Err(Unput::Full(reply)) => return Err(PutFault::Full(reply.into_reply())),
            Err(Unput::Gone(reply)) => return Err(PutFault::Gone(reply.into_reply())),
        }
    }
}

/// The end of an outbox that takes. Contracts see the outbox's name and what was taken, in order.
#[derive(Drop)]
pub struct TakeEnd<R: Rules, M: Stamp> {
    rules: R,
    end: GetEnd<RightReply<R, M>>,
}

impl<R: Rules, M: Stamp> Model for TakeEnd<R, M> {
    ghost use Rattle.pq_mail.specs.Mailbox.{Side};
    ghost use Rattle.pq_core.specs.Replies.{ReplyView};

    ghost Value = { Side (ReplyView R.Key R.Value M) };

    ghost view = { λ e. e.end };
}

/// An empty outbox with room for 32 replies, of which `put` takes no more memory. `rules` compares the
/// keys of requests; `rt` is the handle of the end that puts.
pub fn outbox<R: Rules, M: Stamp, H: Wait + Drop>(
    alloc: Global,
    rules: R,
    rt: H,
) -> Result<(LaneEnd<R, M, H>, TakeEnd<R, M>), Memory>
    // `put`, `got`, `same`: Both ends of one mailbox, empty.
    ensures put { IfOk result (λ r. r.0.items ≡ []) }
    ensures got { IfOk result (λ r. r.1.items ≡ []) }
    ensures same { IfOk result (λ r. (r.0.table ≡ r.1.table) × (r.0.key ≡ r.1.key)) }
{
    let (put, got) = mailbox(alloc)?;
    Ok((LaneEnd { rt, end: put }, TakeEnd { rules, end: got }))
}

impl<R: Rules, M: Stamp> TakeEnd<R, M> {
    /// The next reply, if it is that of `receipt`: it has the number and the request of the receipt.
    /// It waits for a reply.
    ///
    /// # Errors
    ///
    /// In this order.
    ///
    /// - `Ended` where no reply is left and the end that puts is gone. Nothing was taken.
    /// - `Stranger` where the next reply is another one. It was taken, and is dropped.
    pub fn next<H: Wait>(
        &mut self,
        rt: &H,
        receipt: &Receipt<R::Key>,
    ) -> Result<RightReply<R, M>, MailEnd>
        // `IsReceiptOf`: The reply is the next one taken, its number is the count of those taken
        // before, and it has the number and the request of the receipt.
        ensures taken { IfOk result (λ reply. (self.new.items ≡ self.old.items ++ reply ∷ []) × (reply.number ≡ length self.old.items) × IsReceiptOf receipt.now reply) }
        // `Misses`: `Ended` takes nothing. `Stranger` takes the next reply, which is not that of
        // the receipt.
        ensures missed { IfErr result (λ fault. Misses fault receipt.now self.old.items self.new.items) }
        // An end stays one of its mailbox.
        ensures same { (self.new.table ≡ self.old.table) × (self.new.key ≡ self.old.key) }
    {
        match self.end.get(rt) {
            None => return Err(MailEnd::Ended),
            Some(reply) => {
                if is_receipt_of(&self.rules, receipt, reply.reply()) {
                    return Ok(reply);
                }
                return Err(MailEnd::Stranger);
            }
        }
    }

    /// The next reply, whatever receipt is its own. It waits for one. `None` if no reply is left and the
    /// end that puts is gone; then nothing was taken.
    pub fn any<H: Wait>(&mut self, rt: &H) -> Option<RightReply<R, M>>
        // `taken`, `none`: The reply is the next one taken, and its number is the count of those taken
        // before; without one nothing was taken.
        ensures taken { IfSome result (λ reply. (self.new.items ≡ self.old.items ++ reply ∷ []) × (reply.number ≡ length self.old.items)) }
        ensures none { IfNone result (self.new.items ≡ self.old.items) }
        // An end stays one of its mailbox.
        ensures same { (self.new.table ≡ self.old.table) × (self.new.key ≡ self.old.key) }
    {
        self.end.get(rt)
    }

    /// The next reply, whatever receipt is its own, if the outbox has one. It never waits for one. `None`
    /// if the outbox was empty; then nothing was taken.
    pub fn try_any<H: Wait>(&mut self, rt: &H) -> Option<RightReply<R, M>>
        // `taken`, `none`: The reply is the next one taken, and its number is the count of those taken
        // before; without one nothing was taken.
        ensures taken { IfSome result (λ reply. (self.new.items ≡ self.old.items ++ reply ∷ []) × (reply.number ≡ length self.old.items)) }
        ensures none { IfNone result (self.new.items ≡ self.old.items) }
        // An end stays one of its mailbox.
        ensures same { (self.new.table ≡ self.old.table) × (self.new.key ≡ self.old.key) }
    {
        self.end.try_get(rt).ok()
    }

    /// Whether `reply` is that of `receipt`: it has the number and the request of the receipt.
    pub fn is_of(&self, receipt: &Receipt<R::Key>, reply: &RightReply<R, M>) -> bool
        // Whether the reply has the number and the request of the receipt, both ways.
        ensures { IsTrue result ↔ IsReceiptOf receipt.now reply.now }
    {
        is_receipt_of(&self.rules, receipt, reply.reply())
    }
}

/// A law: what was taken out of an outbox is a prefix of what was put.
pub fn taken_is_prefix<R: Rules, M: Stamp, H: Wait + Drop>(
    lane: &mut LaneEnd<R, M, H>,
    take: TakeEnd<R, M>,
) -> TakeEnd<R, M>
    // Both ends are of one mailbox.
    requires same { (take.table ≡ lane.old.table) × (take.key ≡ lane.old.key) }
    // What was taken out of an outbox is a prefix of what was put.
    ensures prefix { IsPrefixOf take.items lane.old.items }
    // `put`, `taken`: The end that puts is as it was, and the end that takes comes back.
    ensures put { lane.new ≡ lane.old }
    ensures taken { result ≡ take }
{
    let TakeEnd { rules, end } = take;
    let end = lane.end.compare(end);
    TakeEnd { rules, end }
}
