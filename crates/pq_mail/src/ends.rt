//! The two ends of a mailbox of 32 items.
//!
//! A mailbox is a bounded channel under the rule of `line`. Each end holds its side of the channel and
//! the pass that says what it has put or got; the pass has no bytes.
ghost use Rattle.std.specs.Prelude.{◌≡◌, ◌++◌, ◌∷◌, [], length, OnOk, OnErr, IfOk, IfErr, IfSome, IfNone};
ghost use Rattle.pq_mail.specs.Mailbox.{HasNoRoom, IsPrefixOf, IsFullPut, refused_item};

use crate::bell::{Ringer, Sleeper, bell};
use crate::line::{Compares, Ends, Gets, InOrder, Item, Line, Puts};
use crossbeam_channel::{
    Pass, RuledReceiver, RuledSender, SendError, TryRecvError, TrySendError, bounded_with,
};
use std::alloc::{AllocError, Global};
use std::marker::Model;
use std::sync::Wait;

/// The number of items that a mailbox holds.
pub const CAPACITY: usize = 32;

/// The end that puts. Contracts see the mailbox's name and what was put, in order.
#[derive(Drop)]
pub struct PutEnd<T: Item> {
    sender: RuledSender<T, Line<T>, InOrder<T>>,
    pass: Pass<T, Line<T>>,
    // It is dropped after the sender: then a get finds that no put comes.
    ringer: Ringer,
}

impl<T: Item> Model for PutEnd<T> {
    ghost use Rattle.std.specs.Prelude.{◌≡◌};
    ghost use Rattle.crossbeam_channel.specs.Claims.{IsSeatAt};
    ghost use Rattle.crossbeam_channel.specs.Ends.{sends_on, ruled_capacity};
    ghost use Rattle.pq_mail.specs.Mailbox.{Side};
    ghost use Rattle.pq_mail.specs.aux.Passes.{put_by, MayPut};

    ghost Value = { Side T };

    ghost view = { λ e. record { table = e.pass.table_id; key = e.pass.me.0.of; items = put_by e.pass } };

    ghost invariant = { λ e. IsSeatAt (sends_on e.sender) e.pass × MayPut e.pass × (ruled_capacity (sends_on e.sender) ≡ 32) };
}

/// The end that gets. Contracts see the mailbox's name and what was got, in order.
#[derive(Drop)]
pub struct GetEnd<T: Item> {
    receiver: RuledReceiver<T, Line<T>, InOrder<T>>,
    pass: Pass<T, Line<T>>,
    sleeper: Sleeper,
}

impl<T: Item> Model for GetEnd<T> {
    ghost use Rattle.crossbeam_channel.specs.Claims.{IsSeatAt};
    ghost use Rattle.crossbeam_channel.specs.Ends.{receives_on};
    ghost use Rattle.pq_mail.specs.Mailbox.{Side};
    ghost use Rattle.pq_mail.specs.aux.Passes.{got_by, MayGet};

    ghost Value = { Side T };

    ghost view = { λ e. record { table = e.pass.table_id; key = e.pass.me.0.of; items = got_by e.pass } };

    ghost invariant = { λ e. IsSeatAt (receives_on e.receiver) e.pass × MayGet e.pass };
}

/// Why an item was not put. It comes back.
#[derive(Drop)]
pub enum Unput<T> {
    /// The mailbox was full.
    Full(T),
    /// The end that gets is gone.
    Gone(T),
}

/// An empty mailbox with room for 32 items.
pub fn mailbox<T: Item>(alloc: Global) -> Result<(PutEnd<T>, GetEnd<T>), AllocError>
    ensures put { IfOk result (λ r. r.0.items ≡ []) }
    ensures got { IfOk result (λ r. r.1.items ≡ []) }
    ensures same { IfOk result (λ r. (r.0.table ≡ r.1.table) × (r.0.key ≡ r.1.key)) }
{
    let (sender, receiver, mut pass) = bounded_with(alloc, CAPACITY)?;
    let taker = sender.another::<Ends>(&mut pass);
    let (ringer, sleeper) = bell(alloc)?;
    let put = PutEnd {
        sender,
        pass,
        ringer,
    };
    let got = GetEnd {
        receiver,
        pass: taker,
        sleeper,
    };
    Ok((put, got))
}

impl<T: Item> PutEnd<T> {
    /// Puts `item` after those put before, and waits for room. `item` comes back if the end that gets
    /// is gone; then nothing was put.
    pub fn put<H: Wait>(&mut self, rt: &H, item: T) -> Result<(), T>
        requires fits { T.fits (length self.old.items) item }
        ensures put { OnOk result (self.new.items ≡ self.old.items ++ item ∷ []) }
        ensures refused { OnErr result (self.new.items ≡ self.old.items) }
        ensures back { IfErr result (λ back. back ≡ item) }
        ensures same { (self.new.table ≡ self.old.table) × (self.new.key ≡ self.old.key) }
    {
        match self.sender.send_as::<Puts, H>(rt, &mut self.pass, item) {
            Ok(()) => {
                self.ringer.ring();
                return Ok(());
            }
            Err(SendError::Disconnected(item)) => return Err(item),
            Err(SendError::OutOfMemory(_)) => unreachable!(),
        }
    }

    /// Puts `item` as `put` does, but wakes nobody, unless it waits for room. `wake` is called after it.
    pub fn put_quietly<H: Wait>(&mut self, rt: &H, item: T) -> Result<(), T>
        requires fits { T.fits (length self.old.items) item }
        ensures put { OnOk result (self.new.items ≡ self.old.items ++ item ∷ []) }
        ensures refused { OnErr result (self.new.items ≡ self.old.items) }
        ensures back { IfErr result (λ back. back ≡ item) }
        ensures same { (self.new.table ≡ self.old.table) × (self.new.key ≡ self.old.key) }
    {
        match self.sender.try_send_as::<Puts, H>(rt, &mut self.pass, item) {
            Ok(()) => return Ok(()),
            Err(TrySendError::Full(item)) => {
                self.ringer.ring();
                return self.put(rt, item);
            }
            Err(TrySendError::Disconnected(item)) => return Err(item),
            Err(TrySendError::OutOfMemory(_)) => unreachable!(),
        }
    }

    /// Wakes the end that gets, if it waits.
    pub fn wake(&self) {
        self.ringer.ring();
    }

    /// Puts `item` after those put before if there is room. It never waits for room, only for the
    /// step of another thread on the same place. A refusal puts nothing and hands `item` back.
    pub fn try_put<H: Wait>(&mut self, rt: &H, item: T) -> Result<(), Unput<T>>
        requires fits { T.fits (length self.old.items) item }
        ensures put { OnOk result (self.new.items ≡ self.old.items ++ item ∷ []) }
        ensures refused { OnErr result (self.new.items ≡ self.old.items) }
        ensures back { IfErr result (λ e. refused_item e ≡ item) }
        ensures full { IfErr result (λ e. IsFullPut e → HasNoRoom self.new.items) }
        ensures same { (self.new.table ≡ self.old.table) × (self.new.key ≡ self.old.key) }
    {
        match self.sender.try_send_as::<Puts, H>(rt, &mut self.pass, item) {
            Ok(()) => {
                self.ringer.ring();
                return Ok(());
            }
            Err(TrySendError::Full(item)) => return Err(Unput::Full(item)),
            Err(TrySendError::Disconnected(item)) => return Err(Unput::Gone(item)),
            Err(TrySendError::OutOfMemory(_)) => unreachable!(),
        }
    }
}

impl<T: Item> PutEnd<T> {
    /// A law: what the other end of the mailbox has got is a prefix of what was put. The call joins
    /// the passes of both ends, learns what they say together, and splits them again.
    pub fn compare(&mut self, got: GetEnd<T>) -> GetEnd<T>
        requires same { (got.table ≡ self.old.table) × (got.key ≡ self.old.key) }
        ensures prefix { IsPrefixOf got.items self.old.items }
        ensures puts { self.new ≡ self.old }
        ensures gets { result ≡ got }
    {
        let GetEnd {
            receiver,
            pass,
            sleeper,
        } = got;
        self.sender.absorb::<Ends>(&mut self.pass, pass);
        self.sender.learn_as::<Compares>(&mut self.pass);
        let pass = self.sender.another::<Ends>(&mut self.pass);
        GetEnd {
            receiver,
            pass,
            sleeper,
        }
    }
}

impl<T: Item> GetEnd<T> {
    /// The next item, in the order of putting. It waits for one. `None` if the mailbox is empty and
    /// the end that puts is gone; then nothing was got.
    pub fn get<H: Wait>(&mut self, rt: &H) -> Option<T>
        ensures got { IfSome result (λ x. (self.new.items ≡ self.old.items ++ x ∷ []) × T.fits (length self.old.items) x) }
        ensures none { IfNone result (self.new.items ≡ self.old.items) }
        ensures same { (self.new.table ≡ self.old.table) × (self.new.key ≡ self.old.key) }
    {
        for _ in rt.forever() {
            match self.try_get(rt) {
                Ok(item) => {
                    self.sleeper.stay();
                    return Some(item);
                }
                Err(true) => return None,
                Err(false) => self.sleeper.pause(rt),
            }
        }
        unreachable!()
    }

    /// The next item, in the order of putting, if the mailbox has one. It never waits for one, only for
    /// the step of another thread on the same place. `Err` if the mailbox was empty: it is whether the end
    /// that puts is gone. Then nothing was got.
    pub fn try_get<H: Wait>(&mut self, rt: &H) -> Result<T, bool>
        ensures got { IfOk result (λ x. (self.new.items ≡ self.old.items ++ x ∷ []) × T.fits (length self.old.items) x) }
        ensures none { OnErr result (self.new.items ≡ self.old.items) }
        ensures same { (self.new.table ≡ self.old.table) × (self.new.key ≡ self.old.key) }
    {
        match self.receiver.try_recv_as::<Gets<T>, H>(rt, &mut self.pass) {
            Ok(item) => return Ok(item),
            Err(TryRecvError::Disconnected) => return Err(true),
            Err(TryRecvError::Empty) => return Err(false),
        }
    }
}
