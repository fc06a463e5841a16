//! What a writer does: it takes the replies of a client.
ghost use Rattle.std.specs.Prelude.{◌≡◌, ◌++◌, ◌∷◌, [], length, IfOk, IfErr};
ghost use Rattle.pq_mail.specs.Posts.{IsReceiptOf, Misses};

use crate::hall::Hall;
use crate::mark::{BoardName, Mark};
use crate::one_value::OneValue;
use crate::state::Client;
use pq_mail::{MailEnd, Receipt, RightReply, TakeEnd};
use pq_rules::Rules;
use std::sync::Wait;

impl<R: Rules + OneValue, J: BoardName, H: Wait + Copy + Drop> Hall<R, J, H> {
    /// Takes the reply of `receipt`, and then puts those replies to `client` that have room. It waits
    /// for the reply.
    ///
    /// # Errors
    ///
    /// Those of `TakeEnd::next`, in the same order.
    pub fn take_one(
        &self,
        rt: &H,
        client: Client,
        take: &mut TakeEnd<R, Mark<J>>,
        receipt: &Receipt<R::Key>,
    ) -> Result<RightReply<R, Mark<J>>, MailEnd>
        // One reply more was taken. Its number is the count of those taken before, and it is that
        // of the receipt.
        ensures taken { IfOk result (λ reply. (take.new.items ≡ take.old.items ++ reply ∷ []) × (reply.number ≡ length take.old.items) × IsReceiptOf receipt.now reply) }
        // `Ended` took nothing; `Stranger` took a reply that is not the receipt's.
        ensures missed { IfErr result (λ fault. Misses fault receipt.now take.old.items take.new.items) }
        // An end stays one of its mailbox.
        ensures same { (take.new.table ≡ take.old.table) × (take.new.key ≡ take.old.key) }
    {
        let taken = take.next(rt, receipt);
        self.deliver(rt, client, None);
        taken
    }

    /// Puts those replies to `client` that have room, after some were taken. A writer that takes by
    /// `TakeEnd::any` and `TakeEnd::try_any` calls it once in `CAPACITY` replies at least: a put is refused
    /// only where so many are there.
    pub fn refill(&self, rt: &H, client: Client) {
        self.deliver(rt, client, None);
    }
}
