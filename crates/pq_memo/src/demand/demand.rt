//! Bringing a key up to date, on one stack of frames.
//!
//! It goes depth first. Before a frame walks, the valid memos below it are marked: see `confirm`. A
//! step takes the last frame: its key is up to date, or its rule starts or goes on, or it waits for
//! a key. If that key is on the stack, the frames from it on are a ring, which is published.
//! Otherwise the key's own frame is pushed. Each rule is started once at most. It goes on without
//! its frame while the answers that it asks for are at hand: see `hand`.
ghost use Rattle.std.specs.Prelude.{◌≡◌, ◌<◌, ◌++◌, ◌∷◌, [], length, HoldsAt, IfOk, OnOk, OnErr};
ghost use Rattle.pq_rules.specs.Relations.{Each, In};
ghost use Rattle.pq_rules.specs.aux.Evaluator.{Distinct};
ghost use Rattle.pq_memo.specs.Look.{IsUpToDate};
ghost use Rattle.pq_memo.specs.Table.{memo_at, HasIn, IsSameTable, KeptOver};
ghost use Rattle.pq_memo.specs.Frames.{Came, Awaits, frame_keys};
ghost use Rattle.pq_memo.specs.Steps.{IsWhy};
ghost use Rattle.pq_memo.specs.Demand.{IsCarried, IsVerified, carried_keys};
ghost use Rattle.pq_memo.specs.aux.Demand.{IsLeastKey, LastAwaits, Linked, IsHandedOn, HasTaken, HasGone, HasEntered, Popped, Advances};

use crate::demand::demanded::Carried;
use crate::marking::trail::Trail;
use crate::stepping::frame::{Frame, Stage, Step};
use crate::stepping::stack::Stack;
use crate::table::hint::{Hint, Hints};
use crate::table::look::Why;
use crate::table::memos::Memos;
use pq_inputs::Inputs;
use pq_rules::{Answer, Memory, Rules, Shared, Turn, push};
use std::alloc::Global;

/// The place of the frame with the least key.
pub(crate) fn least_place<R: Rules>(_rules: &R, frames: &[Frame<R::Key, R::Part>]) -> usize
    requires { 0 < length frames.now }
    ensures within { result < length frames.now }
    ensures least { IsLeastKey R.Key.cmp frames.now result }
{
    let mut least = 0;
    for i in 1..frames.len() {
        if frames[i].key.cmp(&frames[least].key).is_lt() {
            least = i;
        }
    }
    least
}

impl<R: Rules> Memos<R> {
    /// Where the rule of a frame, after `count` reads, looks for `asked` first: where it was found
    /// last, or else in its slot, which is made if it has none. An input has no slot.
    fn claim_asked(&mut self, asked: &R::Key, hints: Hints, count: usize) -> Result<Hint, Memory>
        ensures rules { self.new.rules ≡ self.old.rules }
        ensures same { IsSameTable (memo_at R.Key.cmp self.old.places) (memo_at R.Key.cmp self.new.places) }
    {
        let known = self.entries.read_hint(hints.own, count, hints.read);
        if !known.is_nowhere() || self.rules().level(asked) == 0 {
            return Ok(known);
        }
        self.make_room(asked, Hint::Nowhere, hints.read)
    }

    /// Takes a turn of the rule of `key`, which has made these reads: pushes its frame, or
    /// publishes its value.
    fn take_turn(
        &mut self,
        alloc: Global,
        stack: &mut Stack<R>,
        key: R::Key,
        hints: Hints,
        turn: Turn<R::Key, R::Part, R::Value>,
        reads: Vec<R::Key>,
        inputs: &Inputs,
    ) -> Result<(), Memory>
        requires kept { KeptOver R.Key.cmp (R.machine self.old.rules) inputs.now self.old.places }
        requires came { Came R.Key.cmp (R.machine self.old.rules) inputs.now.history inputs.now.revision (HasIn (memo_at R.Key.cmp self.old.places)) key turn reads.items }
        requires off { In key (frame_keys stack.old) → ⊥ }
        ensures rules { self.new.rules ≡ self.old.rules }
        ensures kept { KeptOver R.Key.cmp (R.machine self.old.rules) inputs.now self.new.places }
        ensures taken { IfOk result (λ _. HasTaken (R.machine self.old.rules) inputs.now.revision (memo_at R.Key.cmp self.old.places) (memo_at R.Key.cmp self.new.places) key turn reads.items stack.old stack.new) }
        ensures refused { OnErr result (IsSameTable (memo_at R.Key.cmp self.old.places) (memo_at R.Key.cmp self.new.places)) }
    {
        let _latest = inputs.now();
        match turn {
            Turn::Ask(asked, part) => {
                // Called for its contract alone: what is left fits in its machine integers, which
                // bounds the steps.
                let _left = self.rules().left(&part);
                let mut hints = hints;
                hints.next = self.claim_asked(&asked, hints, reads.as_slice().len())?;
                let stage = Stage::Waiting(part, asked, reads);
                stack.push(alloc, self.rules(), Frame { key, stage }, hints)?;
                Ok(())
            }
            Turn::Done(value) => {
                let answer = Shared::new(alloc, Answer::Value(value))?;
                match self.publish_hinted(key, hints, answer, reads, inputs) {
                    Ok(()) => return Ok(()),
                    Err(_) => {}
                }
                Err(Memory)
            }
        }
    }

    /// Goes on with the rule of `key` from `turn`, before which it made these reads, while the
    /// answers that it asks for are at hand. Then pushes its frame, or publishes its value.
    fn run(
        &mut self,
        alloc: Global,
        stack: &mut Stack<R>,
        key: R::Key,
        hints: Hints,
        turn: Turn<R::Key, R::Part, R::Value>,
        reads: Vec<R::Key>,
        inputs: &Inputs,
    ) -> Result<(), Memory>
        requires kept { KeptOver R.Key.cmp (R.machine self.old.rules) inputs.now self.old.places }
        requires came { Came R.Key.cmp (R.machine self.old.rules) inputs.now.history inputs.now.revision (HasIn (memo_at R.Key.cmp self.old.places)) key turn reads.items }
        requires off { In key (frame_keys stack.old) → ⊥ }
        ensures rules { self.new.rules ≡ self.old.rules }
        ensures kept { KeptOver R.Key.cmp (R.machine self.old.rules) inputs.now self.new.places }
        ensures gone { IfOk result (λ _. HasGone R.Key.cmp (R.machine self.old.rules) inputs.now (memo_at R.Key.cmp self.old.places) (memo_at R.Key.cmp self.new.places) key turn stack.old stack.new) }
        ensures refused { OnErr result (IsSameTable (memo_at R.Key.cmp self.old.places) (memo_at R.Key.cmp self.new.places)) }
    {
        let mut hints = hints;
        let mut reads = reads;
        let last = self.read_on(alloc, &key, &mut hints, turn, &mut reads, inputs)?;
        self.take_turn(alloc, stack, key, hints, last, reads, inputs)?;
        Ok(())
    }

    /// Starts the rule of `key` because of `why`, and records that in `carried`.
    fn start(
        &mut self,
        alloc: Global,
        stack: &mut Stack<R>,
        carried: &mut Vec<Carried<R::Key>>,
        key: R::Key,
        hints: Hints,
        why: Why<R::Key>,
        inputs: &Inputs,
    ) -> Result<(), Memory>
        requires kept { KeptOver R.Key.cmp (R.machine self.old.rules) inputs.now self.old.places }
        requires because { IsWhy (R.machine self.old.rules) inputs.now.history inputs.now.revision (HasIn (memo_at R.Key.cmp self.old.places)) key why }
        requires off { In key (frame_keys stack.old) → ⊥ }
        ensures rules { self.new.rules ≡ self.old.rules }
        ensures kept { KeptOver R.Key.cmp (R.machine self.old.rules) inputs.now self.new.places }
        ensures gone { IfOk result (λ _. HasGone R.Key.cmp (R.machine self.old.rules) inputs.now (memo_at R.Key.cmp self.old.places) (memo_at R.Key.cmp self.new.places) key ((R.machine self.old.rules).start key) stack.old stack.new) }
        ensures carried { IfOk result (λ _. carried.new.items ≡ carried.old.items ++ record { key = key; revision = inputs.now.revision; why = why } ∷ []) }
        ensures refused { OnErr result (IsSameTable (memo_at R.Key.cmp self.old.places) (memo_at R.Key.cmp self.new.places)) }
    {
        let copy = self.rules().copy_key(alloc, &key)?;
        let revision = inputs.now();
        push(
            carried,
            Carried {
                key: copy,
                revision,
                why,
            },
        )?;
        let turn = self.rules().start(alloc, &key)?;
        self.run(alloc, stack, key, hints, turn, Vec::new(alloc), inputs)?;
        Ok(())
    }

    /// Goes on with the rule of `key` from `part`, with `answer`, which was found at `hints.next`. It
    /// has made these reads.
    fn resume(
        &mut self,
        alloc: Global,
        stack: &mut Stack<R>,
        key: R::Key,
        hints: Hints,
        part: R::Part,
        answer: &Answer<R::Key, R::Value>,
        reads: Vec<R::Key>,
        inputs: &Inputs,
    ) -> Result<(), Memory>
        requires kept { KeptOver R.Key.cmp (R.machine self.old.rules) inputs.now self.old.places }
        requires came { Came R.Key.cmp (R.machine self.old.rules) inputs.now.history inputs.now.revision (HasIn (memo_at R.Key.cmp self.old.places)) key ((R.machine self.old.rules).advance part answer.now) reads.items }
        requires off { In key (frame_keys stack.old) → ⊥ }
        ensures rules { self.new.rules ≡ self.old.rules }
        ensures kept { KeptOver R.Key.cmp (R.machine self.old.rules) inputs.now self.new.places }
        ensures gone { IfOk result (λ _. HasGone R.Key.cmp (R.machine self.old.rules) inputs.now (memo_at R.Key.cmp self.old.places) (memo_at R.Key.cmp self.new.places) key ((R.machine self.old.rules).advance part answer.now) stack.old stack.new) }
        ensures refused { OnErr result (IsSameTable (memo_at R.Key.cmp self.old.places) (memo_at R.Key.cmp self.new.places)) }
    {
        let hints = hints.after_read(hints.next);
        match self.rules().advance(alloc, part, answer) {
            Ok(turn) => {
                self.run(alloc, stack, key, hints, turn, reads, inputs)?;
                Ok(())
            }
            Err(_) => Err(Memory),
        }
    }

    /// Pops the frames from `place` on, which wait for each other in a round, and publishes their
    /// ring. The last waits for `_next`, the key of the first, which is for the contract.
    fn close(
        &mut self,
        alloc: Global,
        stack: &mut Stack<R>,
        place: usize,
        _next: &R::Key,
        inputs: &Inputs,
    ) -> Result<(), Memory>
        requires kept { KeptOver R.Key.cmp (R.machine self.old.rules) inputs.now self.old.places }
        requires linked { Linked R.Key.cmp (R.machine self.old.rules) inputs.now (memo_at R.Key.cmp self.old.places) stack.old }
        requires distinct { Distinct (frame_keys stack.old) }
        requires awaits { LastAwaits R.Key.cmp (R.machine self.old.rules) inputs.now (memo_at R.Key.cmp self.old.places) _next.now stack.old }
        requires within { place < length stack.old }
        requires there { HoldsAt (λ f. f.key ≡ _next.now) stack.old place }
        ensures rules { self.new.rules ≡ self.old.rules }
        ensures kept { KeptOver R.Key.cmp (R.machine self.old.rules) inputs.now self.new.places }
        ensures popped { IfOk result (λ _. Popped inputs.now.revision (memo_at R.Key.cmp self.old.places) (memo_at R.Key.cmp self.new.places) stack.old stack.new) }
        ensures refused { OnErr result (IsSameTable (memo_at R.Key.cmp self.old.places) (memo_at R.Key.cmp self.new.places)) }
    {
        let mut hints = stack.hints_from(alloc, place)?;
        let mut round = stack.split_off(place)?;
        let least = least_place(self.rules(), &round);
        round.rotate_left(least);
        let turned = least.min(hints.as_slice().len());
        hints.rotate_left(turned);
        self.publish_round_hinted(alloc, &round, &hints, inputs)?;
        Ok(())
    }

    /// Pushes `frame`, which waits for `next`, and then the frame of `next`. If `next` is on the
    /// stack, publishes the ring instead.
    fn enter(
        &mut self,
        alloc: Global,
        stack: &mut Stack<R>,
        frame: Frame<R::Key, R::Part>,
        next: R::Key,
        hints: Hints,
        inputs: &Inputs,
    ) -> Result<(), Memory>
        requires kept { KeptOver R.Key.cmp (R.machine self.old.rules) inputs.now self.old.places }
        requires linked { Linked R.Key.cmp (R.machine self.old.rules) inputs.now (memo_at R.Key.cmp self.old.places) (stack.old ++ frame ∷ []) }
        requires distinct { Distinct (frame_keys (stack.old ++ frame ∷ [])) }
        requires awaits { Awaits R.Key.cmp (R.machine self.old.rules) inputs.now.history inputs.now.revision (HasIn (memo_at R.Key.cmp self.old.places)) frame.key frame.stage next }
        ensures rules { self.new.rules ≡ self.old.rules }
        ensures kept { KeptOver R.Key.cmp (R.machine self.old.rules) inputs.now self.new.places }
        ensures entered { IfOk result (λ _. HasEntered inputs.now.revision (memo_at R.Key.cmp self.old.places) (memo_at R.Key.cmp self.new.places) (stack.old ++ frame ∷ []) next stack.new) }
        ensures refused { OnErr result (IsSameTable (memo_at R.Key.cmp self.old.places) (memo_at R.Key.cmp self.new.places)) }
    {
        stack.push(alloc, self.rules(), frame, hints)?;
        match stack.place_of(self.rules(), &next) {
            Some(place) => {
                self.close(alloc, stack, place, &next, inputs)?;
                Ok(())
            }
            None => {
                let own = self.make_room(&next, hints.next, hints.read)?;
                let stage = Stage::Walking(0);
                let hints = Hints::new(own);
                stack.push(alloc, self.rules(), Frame { key: next, stage }, hints)?;
                Ok(())
            }
        }
    }

    /// Takes a step of `frame`, the last one, which was popped.
    fn advance(
        &mut self,
        alloc: Global,
        stack: &mut Stack<R>,
        carried: &mut Vec<Carried<R::Key>>,
        frame: Frame<R::Key, R::Part>,
        hints: Hints,
        inputs: &Inputs,
    ) -> Result<(), Memory>
        requires kept { KeptOver R.Key.cmp (R.machine self.old.rules) inputs.now self.old.places }
        requires linked { Linked R.Key.cmp (R.machine self.old.rules) inputs.now (memo_at R.Key.cmp self.old.places) (stack.old ++ frame ∷ []) }
        requires distinct { Distinct (frame_keys (stack.old ++ frame ∷ [])) }
        requires stale { IsUpToDate (R.machine self.old.rules) inputs.now.revision (HasIn (memo_at R.Key.cmp self.old.places)) frame.key → ⊥ }
        ensures rules { self.new.rules ≡ self.old.rules }
        ensures kept { KeptOver R.Key.cmp (R.machine self.old.rules) inputs.now self.new.places }
        ensures advanced { IfOk result (λ _. Advances R.Key.cmp (R.machine self.old.rules) inputs.now (memo_at R.Key.cmp self.old.places) (memo_at R.Key.cmp self.new.places) frame stack.old carried.old.items stack.new carried.new.items) }
        ensures refused { OnErr result (IsSameTable (memo_at R.Key.cmp self.old.places) (memo_at R.Key.cmp self.new.places)) }
    {
        let mut hints = hints;
        match self.step_hinted(alloc, frame, inputs, &mut hints) {
            Ok(Step::Finished) => Ok(()),
            Ok(Step::Needs(frame, next)) => {
                self.enter(alloc, stack, frame, next, hints, inputs)?;
                Ok(())
            }
            Ok(Step::Starts(key, why)) => {
                self.start(alloc, stack, carried, key, hints, why, inputs)?;
                Ok(())
            }
            Ok(Step::GoesOn(key, part, answer, reads)) => {
                self.resume(alloc, stack, key, hints, part, answer.get(), reads, inputs)?;
                Ok(())
            }
            Err(_) => Err(Memory),
        }
    }

    /// Brings `key` up to date. The key is looked for first at `hint`, which becomes its slot if it
    /// has a rule. Returns the rules that were started, in order. If an allocation fails, the
    /// memos published so far stay.
    pub(crate) fn bring_up_to_date(
        &mut self,
        alloc: Global,
        key: &R::Key,
        hint: &mut Hint,
        inputs: &Inputs,
    ) -> Result<Vec<Carried<R::Key>>, Memory>
        requires { KeptOver R.Key.cmp (R.machine self.old.rules) inputs.now self.old.places }
        ensures rules { self.new.rules ≡ self.old.rules }
        ensures kept { KeptOver R.Key.cmp (R.machine self.old.rules) inputs.now self.new.places }
        ensures up_to_date { OnOk result (IsUpToDate (R.machine self.old.rules) inputs.now.revision (HasIn (memo_at R.Key.cmp self.new.places)) key.now) }
        ensures idle { IfOk result (λ v. IsUpToDate (R.machine self.old.rules) inputs.now.revision (HasIn (memo_at R.Key.cmp self.old.places)) key.now → v.items ≡ []) }
        ensures carried { IfOk result (λ v. Each (IsCarried R.Key.cmp (R.machine self.old.rules) inputs.now.history inputs.now.revision (HasIn (memo_at R.Key.cmp self.old.places))) v.items) }
        ensures once { IfOk result (λ v. Distinct (carried_keys v.items)) }
        ensures covered { IfOk result (λ v. Each (IsVerified inputs.now.revision (memo_at R.Key.cmp self.new.places)) (carried_keys v.items)) }
        ensures handed_on { (k : R.Key) → IsHandedOn inputs.now.revision (memo_at R.Key.cmp self.old.places) (memo_at R.Key.cmp self.new.places) k }
    {
        let _latest = inputs.now();
        let mut carried = Vec::new(alloc);
        if self.is_up_to_date(key, hint, inputs) {
            return Ok(carried);
        }
        *hint = self.make_room(key, *hint, Hint::Nowhere)?;
        let mut stack = Stack::new(alloc);
        let copy = self.rules().copy_key(alloc, key)?;
        let stage = Stage::Walking(0);
        let hints = Hints::new(*hint);
        stack.push(alloc, self.rules(), Frame { key: copy, stage }, hints)?;
        let mut trail = Trail::new(alloc);
        'steps: while let Some(frame) = stack.pop() {
            let hints = stack.popped();
            self.confirm(&stack, &frame, hints.own, &mut trail, inputs);
            self.advance(alloc, &mut stack, &mut carried, frame, hints, inputs)?;
        }
        Ok(carried)
    }
}
