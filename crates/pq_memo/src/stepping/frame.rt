//! Frames: keys that are being brought up to date, and one step of a frame.
//!
//! A frame walks over the recorded reads of its key's memo, or its key's rule waits for an answer.
//! A step takes a frame and the table, and does what it can without the answer of another key. So
//! frames can be laid aside between two steps and take turns. A walk goes on from its place: all
//! its steps together cost two comparisons of keys for each read, which is looked for where it was
//! when the memo was made. A rule that starts again looks for what it asks in the same way.
ghost use Rattle.std.specs.Prelude.{◌≡◌, ◌≤◌, ◌<◌, ◌++◌, ◌∷◌, [], List, length, take, IfOk, IfErr, IfSome, IfNone, OnErr};
ghost use Rattle.pq_rules.specs.Relations.{Each};
ghost use Rattle.pq_memo.specs.Look.{IsUpToDate, IsStill};
ghost use Rattle.pq_memo.specs.Table.{memo_at, HasIn, IsSameTable, KeptOver};

use crate::stepping::restored::restored;
use crate::table::entry::Entry;
use crate::table::hint::{Hint, Hints};
use crate::table::look::Why;
use crate::table::memos::Memos;
use crate::table::state::State;
use crate::table::unpublished::Unpublished;
use pq_inputs::Inputs;
use pq_rules::{Answer, Memory, Rules, Shared, input_answer};
use std::alloc::Global;

/// How far the key of a frame is.
#[derive(Drop)]
pub enum Stage<K, P> {
    /// The reads of the key's memo before this place are up to date and did not change.
    Walking(usize),
    /// The key's rule waits, at this part, for the answer of this key, after these reads.
    Waiting(P, K, Vec<K>),
}

/// A key that is being brought up to date.
#[derive(Drop)]
pub struct Frame<K, P> {
    pub key: K,
    pub stage: Stage<K, P>,
}

/// What a step of a frame ends in.
#[derive(Drop)]
pub enum Step<K, P, V> {
    /// The key is up to date.
    Finished,
    /// The frame waits for this key, which is not up to date.
    Needs(Frame<K, P>, K),
    /// The rule of the key has to be started.
    Starts(K, Why<K>),
    /// The rule of the key goes on from the part with the answer, and has made these reads.
    GoesOn(K, P, Shared<Answer<K, V>>, Vec<K>),
}

/// The state of a memo, with a copy of the read that it names: `State` says what each means.
#[derive(Drop)]
pub(crate) enum Found<K> {
    Verified,
    Valid,
    Behind(usize, K),
    Outdated(K),
    Cyclic,
}

impl<R: Rules> Memos<R> {
    ghost use Rattle.pq_memo.specs.Frames.{IsFrame, IsSameStage, IsWalked, Sits};
    ghost use Rattle.pq_memo.specs.Steps.{IsStep};
    ghost use Rattle.pq_memo.specs.aux.Frames.{IsCycleRead, IsFound, IsReadAnswer, Passes, WaitsAt};
    ghost use Rattle.pq_memo.specs.declared.stepping.frame.Stage.TheVariants.{Walking, Waiting};
    ghost use Rattle.pq_rules.specs.declared.turn.Answer.{Answer};

    /// The state of `entry`, the entry of `key`, from the place `from` on.
    fn found(
        &self,
        alloc: Global,
        key: &R::Key,
        entry: &Entry<R::Key, R::Value>,
        from: usize,
        inputs: &Inputs,
        hints: &mut Hints,
    ) -> Result<Found<R::Key>, Memory>
        requires has { HasIn (memo_at R.Key.cmp self.now.places) key.now entry.now }
        requires within { from ≤ length entry.now.reads }
        requires still { Each (IsStill (R.machine self.now.rules) inputs.now.history inputs.now.revision (HasIn (memo_at R.Key.cmp self.now.places)) entry.now.verified) (take from entry.now.reads) }
        ensures found { IfOk result (λ f. IsFound (R.machine self.now.rules) inputs.now.history inputs.now.revision (HasIn (memo_at R.Key.cmp self.now.places)) key.now f) }
    {
        let reads = entry.reads();
        match self.state_of(key, entry, from, inputs) {
            State::Verified => Ok(Found::Verified),
            State::Valid => Ok(Found::Valid),
            State::Behind(i) => {
                hints.next = entry.hint(i);
                Ok(Found::Behind(i, self.rules().copy_key(alloc, reads[i].key())?))
            }
            State::Outdated(i) => Ok(Found::Outdated(
                self.rules().copy_key(alloc, reads[i].key())?,
            )),
            State::Cyclic => Ok(Found::Cyclic),
        }
    }

    /// A step of the frame of `key`, which walks from `place` on.
    fn walk(
        &mut self,
        alloc: Global,
        key: R::Key,
        place: usize,
        inputs: &Inputs,
        hints: &mut Hints,
    ) -> Result<Step<R::Key, R::Part, R::Value>, Frame<R::Key, R::Part>>
        requires kept { KeptOver R.Key.cmp (R.machine self.old.rules) inputs.now self.old.places }
        requires frame { IsFrame R.Key.cmp (R.machine self.old.rules) inputs.now.history inputs.now.revision (HasIn (memo_at R.Key.cmp self.old.places)) key (Walking place) }
        ensures rules { self.new.rules ≡ self.old.rules }
        ensures kept { KeptOver R.Key.cmp (R.machine self.old.rules) inputs.now self.new.places }
        ensures step { IfOk result (λ s. IsStep R.Key.cmp (R.machine self.old.rules) inputs.now self.old.places self.new.places key (Walking place) s) }
        ensures refused { OnErr result (IsSameTable (memo_at R.Key.cmp self.old.places) (memo_at R.Key.cmp self.new.places)) }
        ensures returned { IfErr result (λ f. (f.key ≡ key) × (f.stage ≡ Walking place)) }
    {
        let _latest = inputs.now();
        let found = match self.entry(&key, hints.own) {
            Some(entry) => self.found(alloc, &key, entry, place, inputs, hints),
            None => return Ok(Step::Starts(key, Why::Fresh)),
        };
        match found {
            Ok(Found::Verified) => Ok(Step::Finished),
            Ok(Found::Valid) => {
                self.mark_hinted(&key, hints.own, inputs);
                Ok(Step::Finished)
            }
            Ok(Found::Behind(i, read)) => {
                let stage = Stage::Walking(i);
                Ok(Step::Needs(Frame { key, stage }, read))
            }
            Ok(Found::Outdated(read)) => Ok(Step::Starts(key, Why::Changed(read))),
            Ok(Found::Cyclic) => Ok(Step::Starts(key, Why::Ring)),
            Err(_) => {
                let stage = Stage::Walking(place);
                Err(Frame { key, stage })
            }
        }
    }

    /// The answer of `key`, if it is up to date.
    pub(crate) fn read_answer(
        &self,
        alloc: Global,
        key: &R::Key,
        inputs: &Inputs,
        hint: &mut Hint,
    ) -> Result<Option<Shared<Answer<R::Key, R::Value>>>, Memory>
        ensures answer { IfOk result (λ o. IfSome o (λ a. IsReadAnswer R.Key.cmp (R.machine self.now.rules) inputs.now.files inputs.now.revision (HasIn (memo_at R.Key.cmp self.now.places)) key.now a)) }
        ensures stale { IfOk result (λ o. IfNone o (IsUpToDate (R.machine self.now.rules) inputs.now.revision (HasIn (memo_at R.Key.cmp self.now.places)) key.now → ⊥)) }
    {
        if self.rules().level(key) == 0 {
            let answer = input_answer(alloc, self.rules(), inputs, key)?;
            return Ok(Some(Shared::new(alloc, answer)?));
        }
        match self.entry_noting(key, hint) {
            Some(entry) => {
                if entry.verified() == inputs.now().number() {
                    return Ok(Some(entry.share()?));
                }
                Ok(None)
            }
            None => Ok(None),
        }
    }

    /// Whether `answer`, that of `asked`, is a cycle of the level of `key`.
    fn passes(&self, key: &R::Key, asked: &R::Key, answer: &Answer<R::Key, R::Value>) -> bool
        ensures { Passes result (R.machine self.now.rules) key.now asked.now answer.now }
    {
        match answer {
            Answer::Value(_) => false,
            Answer::Cycle(_) => {
                if self.rules().level(asked) == self.rules().level(key) {
                    return true;
                }
                false
            }
        }
    }

    /// Gives `key` the cycle `answer`, that of `asked`, as its own answer.
    fn pass_on(
        &mut self,
        key: R::Key,
        hints: Hints,
        part: R::Part,
        asked: R::Key,
        reads: Vec<R::Key>,
        answer: Shared<Answer<R::Key, R::Value>>,
        inputs: &Inputs,
    ) -> Result<Step<R::Key, R::Part, R::Value>, Frame<R::Key, R::Part>>
        requires kept { KeptOver R.Key.cmp (R.machine self.old.rules) inputs.now self.old.places }
        requires sits { Sits R.Key.cmp (R.machine self.old.rules) inputs.now.history inputs.now.revision (HasIn (memo_at R.Key.cmp self.old.places)) key asked part reads.items }
        requires cycle { IsCycleRead (R.machine self.old.rules) inputs.now.revision (HasIn (memo_at R.Key.cmp self.old.places)) key asked answer }
        ensures rules { self.new.rules ≡ self.old.rules }
        ensures kept { KeptOver R.Key.cmp (R.machine self.old.rules) inputs.now self.new.places }
        ensures step { IfOk result (λ s. IsStep R.Key.cmp (R.machine self.old.rules) inputs.now self.old.places self.new.places key (Waiting part asked reads) s) }
        ensures refused { OnErr result (IsSameTable (memo_at R.Key.cmp self.old.places) (memo_at R.Key.cmp self.new.places)) }
        ensures returned { IfErr result (λ f. (f.key ≡ key) × WaitsAt f.stage part asked reads.items) }
    {
        let _latest = inputs.now();
        let mut reads = reads;
        match reads.push(asked) {
            Ok(()) => match self.publish_hinted(key, hints, answer, reads, inputs) {
                Ok(()) => Ok(Step::Finished),
                Err(back) => Err(restored(back, part)),
            },
            Err(failed) => {
                let stage = Stage::Waiting(part, failed.value, reads);
                Err(Frame { key, stage })
            }
        }
    }

    /// Goes on with the rule of `key`, whose question `asked` has `answer`.
    fn go_on(
        &mut self,
        key: R::Key,
        hints: Hints,
        part: R::Part,
        asked: R::Key,
        reads: Vec<R::Key>,
        answer: Shared<Answer<R::Key, R::Value>>,
        inputs: &Inputs,
    ) -> Result<Step<R::Key, R::Part, R::Value>, Frame<R::Key, R::Part>>
        requires kept { KeptOver R.Key.cmp (R.machine self.old.rules) inputs.now self.old.places }
        requires sits { Sits R.Key.cmp (R.machine self.old.rules) inputs.now.history inputs.now.revision (HasIn (memo_at R.Key.cmp self.old.places)) key asked part reads.items }
        requires read { IsReadAnswer R.Key.cmp (R.machine self.old.rules) inputs.now.files inputs.now.revision (HasIn (memo_at R.Key.cmp self.old.places)) asked answer }
        ensures rules { self.new.rules ≡ self.old.rules }
        ensures kept { KeptOver R.Key.cmp (R.machine self.old.rules) inputs.now self.new.places }
        ensures step { IfOk result (λ s. IsStep R.Key.cmp (R.machine self.old.rules) inputs.now self.old.places self.new.places key (Waiting part asked reads) s) }
        ensures refused { OnErr result (IsSameTable (memo_at R.Key.cmp self.old.places) (memo_at R.Key.cmp self.new.places)) }
        ensures returned { IfErr result (λ f. (f.key ≡ key) × WaitsAt f.stage part asked reads.items) }
    {
        let _latest = inputs.now();
        if self.passes(&key, &asked, answer.get()) {
            return self.pass_on(key, hints, part, asked, reads, answer, inputs);
        }
        let mut reads = reads;
        match reads.push(asked) {
            Ok(()) => Ok(Step::GoesOn(key, part, answer, reads)),
            Err(failed) => {
                let stage = Stage::Waiting(part, failed.value, reads);
                Err(Frame { key, stage })
            }
        }
    }

    /// A step of the frame of `key`, whose rule waits for `asked`.
    fn wait(
        &mut self,
        alloc: Global,
        key: R::Key,
        part: R::Part,
        asked: R::Key,
        reads: Vec<R::Key>,
        inputs: &Inputs,
        hints: &mut Hints,
    ) -> Result<Step<R::Key, R::Part, R::Value>, Frame<R::Key, R::Part>>
        requires kept { KeptOver R.Key.cmp (R.machine self.old.rules) inputs.now self.old.places }
        requires sits { Sits R.Key.cmp (R.machine self.old.rules) inputs.now.history inputs.now.revision (HasIn (memo_at R.Key.cmp self.old.places)) key asked part reads.items }
        ensures rules { self.new.rules ≡ self.old.rules }
        ensures kept { KeptOver R.Key.cmp (R.machine self.old.rules) inputs.now self.new.places }
        ensures step { IfOk result (λ s. IsStep R.Key.cmp (R.machine self.old.rules) inputs.now self.old.places self.new.places key (Waiting part asked reads) s) }
        ensures refused { OnErr result (IsSameTable (memo_at R.Key.cmp self.old.places) (memo_at R.Key.cmp self.new.places)) }
        ensures returned { IfErr result (λ f. (f.key ≡ key) × WaitsAt f.stage part asked reads.items) }
    {
        if hints.next.is_nowhere() {
            let count = reads.len();
            hints.next = self.entries.read_hint(hints.own, count, hints.read);
        }
        match self.read_answer(alloc, &asked, inputs, &mut hints.next) {
            Ok(Some(answer)) => self.go_on(key, *hints, part, asked, reads, answer, inputs),
            Ok(None) => match self.rules().copy_key(alloc, &asked) {
                Ok(next) => {
                    let stage = Stage::Waiting(part, asked, reads);
                    Ok(Step::Needs(Frame { key, stage }, next))
                }
                Err(_) => {
                    let stage = Stage::Waiting(part, asked, reads);
                    Err(Frame { key, stage })
                }
            },
            Err(_) => {
                let stage = Stage::Waiting(part, asked, reads);
                Err(Frame { key, stage })
            }
        }
    }

    /// Takes one step of `frame`: as much as the table and the inputs allow without the answer of a
    /// key that is not up to date, and without a rule. If an allocation fails, no key gets another
    /// memo, and the frame comes back.
    pub fn step(
        &mut self,
        alloc: Global,
        frame: Frame<R::Key, R::Part>,
        inputs: &Inputs,
    ) -> Result<Step<R::Key, R::Part, R::Value>, Frame<R::Key, R::Part>>
        // `KeptOver`: The table keeps the invariant over the history of the inputs.
        requires kept { KeptOver R.Key.cmp (R.machine self.old.rules) inputs.now self.old.places }
        // `IsFrame`: The key has a rule. The reads that a walk has passed are up to date and did
        // not change after its memo was verified. A rule that waits comes to its question now
        // (`Came`).
        requires frame { IsFrame R.Key.cmp (R.machine self.old.rules) inputs.now.history inputs.now.revision (HasIn (memo_at R.Key.cmp self.old.places)) frame.key frame.stage }
        // The rule set stays.
        ensures rules { self.new.rules ≡ self.old.rules }
        // `kept`, `step`, `refused`, `returned`: One step of a frame: the key is up to date, it
        // needs another key first, or its rule has to be started or goes on with an answer.
        ensures kept { KeptOver R.Key.cmp (R.machine self.old.rules) inputs.now self.new.places }
        ensures step { IfOk result (λ s. IsStep R.Key.cmp (R.machine self.old.rules) inputs.now self.old.places self.new.places frame.key frame.stage s) }
        ensures refused { OnErr result (IsSameTable (memo_at R.Key.cmp self.old.places) (memo_at R.Key.cmp self.new.places)) }
        ensures returned { IfErr result (λ f. (f.key ≡ frame.key) × IsSameStage f.stage frame.stage) }
    {
        let mut hints = Hints::new(self.hint_of(&frame.key, Hint::Nowhere, inputs));
        self.step_hinted(alloc, frame, inputs, &mut hints)
    }

    /// Takes one step of `frame`: see `step`. Its key is looked for first at `hints.own`. Where the
    /// frame then waits for a key, `hints.next` is where that may be.
    pub(crate) fn step_hinted(
        &mut self,
        alloc: Global,
        frame: Frame<R::Key, R::Part>,
        inputs: &Inputs,
        hints: &mut Hints,
    ) -> Result<Step<R::Key, R::Part, R::Value>, Frame<R::Key, R::Part>>
        requires kept { KeptOver R.Key.cmp (R.machine self.old.rules) inputs.now self.old.places }
        requires frame { IsFrame R.Key.cmp (R.machine self.old.rules) inputs.now.history inputs.now.revision (HasIn (memo_at R.Key.cmp self.old.places)) frame.key frame.stage }
        ensures rules { self.new.rules ≡ self.old.rules }
        ensures kept { KeptOver R.Key.cmp (R.machine self.old.rules) inputs.now self.new.places }
        ensures step { IfOk result (λ s. IsStep R.Key.cmp (R.machine self.old.rules) inputs.now self.old.places self.new.places frame.key frame.stage s) }
        ensures refused { OnErr result (IsSameTable (memo_at R.Key.cmp self.old.places) (memo_at R.Key.cmp self.new.places)) }
        ensures returned { IfErr result (λ f. (f.key ≡ frame.key) × IsSameStage f.stage frame.stage) }
    {
        let Frame { key, stage } = frame;
        match stage {
            Stage::Walking(place) => self.walk(alloc, key, place, inputs, hints),
            Stage::Waiting(part, asked, reads) => {
                self.wait(alloc, key, part, asked, reads, inputs, hints)
            }
        }
    }
}
