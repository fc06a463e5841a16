//! Going on with a rule while the answers that it asks for are at hand.
//!
//! The answer of a key is at hand if its memo was verified now, and the answer is no cycle. The rule
//! reads it at once, without a frame on the stack. That costs one comparison of keys where the key is
//! where it is looked for first, and else a search. What is not at hand is left to a step of a frame.
ghost use Rattle.std.specs.Prelude.{◌≡◌, IfOk, IfSome};
ghost use Rattle.pq_memo.specs.Table.{memo_at, HasIn, KeptOver};
ghost use Rattle.pq_memo.specs.Frames.{Came};
ghost use Rattle.pq_memo.specs.aux.Frames.{IsAtHand};
ghost use Rattle.pq_memo.specs.aux.Demand.{IsLater};

use crate::table::hint::{Hint, Hints};
use crate::table::memos::Memos;
use pq_inputs::Inputs;
use pq_rules::{Answer, Memory, Rules, Turn, push};
use std::alloc::Global;

/// How many reads a rule makes at most before it gets a frame again.
const READS: usize = usize::MAX;

impl<R: Rules> Memos<R> {
    /// The answer of `key`, if it is at hand. It is looked for first at `hint`, which becomes its slot.
    fn at_hand(
        &self,
        key: &R::Key,
        hint: &mut Hint,
        inputs: &Inputs,
    ) -> Option<&Answer<R::Key, R::Value>>
        ensures { IfSome result (λ a. IsAtHand inputs.now.revision (HasIn (memo_at R.Key.cmp self.now.places)) key.now a.now) }
    {
        if self.rules.level(key) == 0 {
            return None;
        }
        match self.entry_noting(key, hint) {
            Some(entry) => {
                if entry.verified() != inputs.now().number() {
                    return None;
                }
                match entry.answer() {
                    Answer::Value(_) => Some(entry.answer()),
                    Answer::Cycle(_) => None,
                }
            }
            None => None,
        }
    }

    /// Goes on with the rule of `_key` from `turn` while the answers that it asks for are at hand.
    /// Adds what it read to `reads`. It looks for them as `hints` say, which become those after
    /// the last. Returns the turn that it comes to.
    pub(crate) fn read_on(
        &self,
        alloc: Global,
        _key: &R::Key,
        hints: &mut Hints,
        turn: Turn<R::Key, R::Part, R::Value>,
        reads: &mut Vec<R::Key>,
        inputs: &Inputs,
    ) -> Result<Turn<R::Key, R::Part, R::Value>, Memory>
        requires kept { KeptOver R.Key.cmp (R.machine self.now.rules) inputs.now self.now.places }
        requires came { Came R.Key.cmp (R.machine self.now.rules) inputs.now.history inputs.now.revision (HasIn (memo_at R.Key.cmp self.now.places)) _key.now turn reads.old.items }
        ensures came { IfOk result (λ t. Came R.Key.cmp (R.machine self.now.rules) inputs.now.history inputs.now.revision (HasIn (memo_at R.Key.cmp self.now.places)) _key.now t reads.new.items) }
        ensures later { IfOk result (λ t. IsLater (R.machine self.now.rules) turn t) }
    {
        let _latest = inputs.now();
        let mut turn = turn;
        'turns: for _ in 0..READS {
            match turn {
                Turn::Ask(asked, part) => {
                    let count = reads.as_slice().len();
                    let mut hint = self.entries.read_hint(hints.own, count, hints.read);
                    match self.at_hand(&asked, &mut hint, inputs) {
                        Some(answer) => {
                            push(reads, asked)?;
                            *hints = hints.after_read(hint);
                            match self.rules.advance(alloc, part, answer) {
                                Ok(next) => turn = next,
                                Err(_) => return Err(Memory),
                            }
                        }
                        None => return Ok(Turn::Ask(asked, part)),
                    }
                }
                Turn::Done(value) => return Ok(Turn::Done(value)),
            }
        }
        Ok(turn)
    }
}
