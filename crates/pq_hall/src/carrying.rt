//! What a porter does: it carries the posts of a client into the store.
ghost use Rattle.std.specs.Prelude.{◌≡◌, IfOk, IfErr};
ghost use Rattle.pq_hall.specs.Carried.{Carries, CarriesSome};
ghost use Rattle.pq_hall.specs.Steps.{IsStampFor, IsAnswerTo};
ghost use Rattle.pq_hall.specs.aux.Kinds.{IsKindOf};
ghost use Rattle.pq_hall.specs.declared.posting.Moved.TheVariants.{Later};
ghost use Rattle.pq_mail.specs.declared.post.Post.{Post};

use crate::fault::HallFault;
use crate::hall::Hall;
use crate::mark::{BoardName, Mark};
use crate::one_value::OneValue;
use crate::posting::{Moved, post_step};
use crate::preparing::long_change;
use crate::state::{Client, Collected, State};
use crate::working::Ahead;
use pq_core::{Memory, Want, is_turn};
use pq_inputs::Inputs;
use pq_mail::{PorterEnd, Post};
use pq_rules::Rules;
use std::sync::Wait;

/// What a post came to, or the post where its window was full.
fn settled<K>(moved: Moved<K>) -> Result<Moved<K>, Post<K>>
    ensures same { IfOk result (λ m. m ≡ moved) }
    ensures carried { IfOk result (λ m. (post : Post K) → IsAnswerTo post moved → IsKindOf m post) }
    ensures back { IfErr result (λ post. moved ≡ Later post) }
{
    match moved {
        Moved::Later(back) => Err(back),
        Moved::Accepted(number) => Ok(Moved::Accepted(number)),
        Moved::Edited(revision) => Ok(Moved::Edited(revision)),
        Moved::Withdrawn(some) => Ok(Moved::Withdrawn(some)),
        Moved::Ended => Ok(Moved::Ended),
    }
}

/// Whether `moved` is an edit that ended every run.
fn has_turned<K>(moved: &Moved<K>) -> bool {
    match moved {
        Moved::Edited(revision) => is_turn(*revision),
        _ => false,
    }
}

/// Whether `post` is a request whose answer is wanted: one that waits for a run once it is accepted.
fn wants_answer<K>(post: &Post<K>) -> bool {
    match post {
        Post::Ask(request) => match &request.want {
            Want::Demand(_) => true,
            Want::Fixed(_) => false,
        },
        _ => false,
    }
}

/// What is to be done without the lock after a post: a reply to the client of the post is to go to its
/// lane, and what the first steps of a run came to.
#[derive(Drop)]
pub(crate) struct After<R: Rules, J: BoardName> {
    collected: Collected<R, J>,
    ahead: Ahead<R, J>,
}

/// What a post came to under the lock, and what is to be done after it.
pub(crate) type Carried<R, J> = (Moved<<R as Rules>::Key>, After<R, J>);

impl<R: Rules + OneValue, J: BoardName, H: Wait + Copy + Drop> Hall<R, J, H> {
    /// Carries the next post of `client` into the store. It waits for a post, and for room in the
    /// window of the client. `Ended` where the client posts nothing more, or its posting end is gone.
    /// The replies that the post makes are delivered, after an edit that ends every run those of all
    /// clients.
    ///
    /// # Errors
    ///
    /// Those of `post_step`, and `Memory` before them where an edit gets no mark. The client is closed
    /// then. `Closed` also where the hall is shut while the window is full.
    pub fn carry_one(
        &self,
        rt: &H,
        client: Client,
        porter: &mut PorterEnd<R::Key>,
    ) -> Result<Moved<R::Key>, HallFault>
        // `Carries`: One post more was carried, of the kind of the answer; at the end of the posts
        // perhaps none. `Later` is not answered.
        ensures carried { IfOk result (λ moved. Carries moved porter.old.items porter.new.items) }
        // `CarriesSome`: One post more was carried.
        ensures refused { IfErr result (λ fault. CarriesSome porter.old.items porter.new.items) }
        // An end stays one of its mailbox.
        ensures same { (porter.new.table ≡ porter.old.table) × (porter.new.key ≡ porter.old.key) }
    {
        match porter.next(rt) {
            None => return Ok(Moved::Ended),
            Some(post) => match self.carry_post(rt, client, post) {
                Ok((moved, after)) => {
                    self.follow_up(rt, client, after);
                    if has_turned(&moved) {
                        self.deliver_each(rt);
                    }
                    return Ok(moved);
                }
                Err(fault) => {
                    self.close(rt, client);
                    return Err(fault);
                }
            },
        }
    }

    /// Waits until each reply to `client` was put, and closes it. So the end that takes the replies has
    /// an end. It waits for nothing where the hall is shut.
    pub fn finish(&self, rt: &H, client: Client) {
        self.wait_for_replies(rt, client);
        self.close(rt, client);
    }

    /// Waits until each reply to `client` was put, while `client` is open.
    fn wait_for_replies(&self, rt: &H, client: Client) {
        let mut state = self.state.lock(rt);
        for _ in rt.forever() {
            if state.is_shut || !state.store.owes(client.id()) {
                return;
            }
            state = self.room_came.wait(rt, state);
        }
        unreachable!()
    }

    /// Carries `post`. The text of a long list of changes is made before the lock is taken.
    fn carry_post(
        &self,
        rt: &H,
        client: Client,
        post: Post<R::Key>,
    ) -> Result<Carried<R, J>, HallFault>
        ensures { IfOk result (λ carried. IsKindOf carried.0 post) }
    {
        match long_change(post) {
            Ok(change) => return self.carry_long(rt, client, change),
            Err(post) => return self.carry(rt, client, post),
        }
    }

    /// Carries `post`, once there is room for it.
    fn carry(&self, rt: &H, client: Client, post: Post<R::Key>) -> Result<Carried<R, J>, HallFault>
        ensures { IfOk result (λ carried. IsKindOf carried.0 post) }
    {
        let wants = wants_answer(&post);
        let mut post = post;
        let mut state = self.state.lock(rt);
        for _ in rt.forever() {
            let ahead = self.may_run_ahead(&state, &post);
            match settled(self.step(rt, &mut state, client, post)?) {
                Ok(moved) => {
                    let after = self.carried(&mut state, client, wants, ahead);
                    return Ok((moved, after));
                }
                Err(back) => post = back,
            }
            if state.is_shut {
                return Err(HallFault::Closed);
            }
            state = self.room_came.wait(rt, state);
        }
        unreachable!()
    }

    /// Makes the call of `post` to the store. An edit gets a mark before.
    fn step(
        &self,
        rt: &H,
        state: &mut State<R, J>,
        client: Client,
        post: Post<R::Key>,
    ) -> Result<Moved<R::Key>, HallFault>
        ensures { IfOk result (λ moved. IsAnswerTo post moved) }
    {
        match self.stamp_for(rt, state.store.inputs(), &post) {
            Ok(stamp) => return post_step(&mut state.store, client.id(), post, stamp),
            Err(_) => return Err(HallFault::Memory),
        }
    }

    /// Wakes the workers that can go on after a post was carried, and collects a reply to `client`.
    /// After a request whose answer is wanted, `wants`, one worker can start its run; or its first steps are
    /// taken, `ahead`.
    pub(crate) fn carried(
        &self,
        state: &mut State<R, J>,
        client: Client,
        wants: bool,
        ahead: bool,
    ) -> After<R, J> {
        self.wake_parked(state);
        let ahead = self.ahead(state, wants, ahead);
        let collected = state.collect(client);
        After { collected, ahead }
    }

    /// Whether the porter takes the first steps of the run for `post`: no other request waits, and a worker
    /// waits or the answer is there. So a run that needs a worker is not started before one can go on.
    fn may_run_ahead(&self, state: &State<R, J>, post: &Post<R::Key>) -> bool {
        if state.store.has_waiting() {
            return false;
        }
        if state.idle > 0 {
            return true;
        }
        match post {
            Post::Ask(request) => match &request.want {
                Want::Demand(key) => state.store.has_answer(self.alloc, key),
                Want::Fixed(_) => false,
            },
            _ => false,
        }
    }

    /// Takes the first steps of a run, if `wants` and `ahead`.
    fn ahead(&self, state: &mut State<R, J>, wants: bool, ahead: bool) -> Ahead<R, J> {
        if !wants {
            return Ahead::Nothing;
        }
        if ahead {
            return self.run_ahead(state);
        }
        Ahead::Wake
    }

    /// Does what is to be done after a post of `client`, under no lock.
    fn follow_up(&self, rt: &H, client: Client, after: After<R, J>) {
        let After { collected, ahead } = after;
        match ahead {
            Ahead::Reply(other, first) => self.deliver_all(rt, other, first),
            Ahead::Nothing => {}
            Ahead::Wake => self.work_came.notify_one(),
        }
        self.deliver_all(rt, client, collected);
    }

    /// The mark of the revision that `post` makes of `inputs`, if it is an edit.
    fn stamp_for(
        &self,
        rt: &H,
        inputs: &Inputs,
        post: &Post<R::Key>,
    ) -> Result<Option<Mark<J>>, Memory>
        ensures { IfOk result (λ stamp. IsStampFor (λ m. m.point) inputs.now post.now stamp) }
    {
        match post {
            Post::Edit(change) => {
                let mark = self.board.push(rt, inputs, change)?;
                Ok(Some(mark))
            }
            Post::Ask(_) => Ok(None),
            Post::Withdraw(_) => Ok(None),
            Post::End => Ok(None),
        }
    }
}
