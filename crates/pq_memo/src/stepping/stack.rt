//! The stack of frames of a demand. Each frame but the last waits for the key of the one above it.
//!
//! A key is compared with those of the last `NEAR` frames at most. For the frames before them a map
//! has the place of each key, so a key is found in logarithmic time, and a low stack has no map. A
//! key that left the stack may stay in the map: its place then has another key, or none.
ghost use Rattle.std.specs.Prelude.{◌≡◌, ◌<◌, ◌≤◌, ◌++◌, ◌∷◌, [], ℕ, length, take, drop, Some, option_to_list, IfOk, IfErr, OnOk, OnErr, IfSome, IfNone, HoldsAt};
ghost use Rattle.pq_rules.specs.Relations.{In};
ghost use Rattle.pq_memo.specs.Frames.{frame_keys};
ghost use Rattle.pq_memo.specs.aux.Stack.{place_in, nth, IsMapped, IsNoted};

use crate::stepping::frame::Frame;
use crate::table::hint::{Hint, Hints};
use crate::table::places::{noted, put_place};
use pq_rules::{Memory, Rules, is_same_key, push};
use std::alloc::Global;
use std::collections::BTreeMap;
use std::marker::Model;

/// How many frames at the end of the stack the map may lack.
const NEAR: usize = 8;

/// Frames with distinct keys, the first to be brought up to date last. Contracts see their list.
#[derive(Drop)]
pub struct Stack<R: Rules> {
    frames: Vec<Frame<R::Key, R::Part>>,
    // The places of the frames before `mapped`.
    places: BTreeMap<R::Key, usize>,
    mapped: usize,
    // Of each frame, and of the frame that was popped last.
    hints: Vec<Hints>,
    popped: Hints,
}

impl<R: Rules> Model for Stack<R> {
    ghost use Rattle.std.specs.Prelude.{List};
    ghost use Rattle.pq_memo.specs.declared.stepping.frame.Frame.{Frame};
    ghost use Rattle.pq_memo.specs.Frames.{frame_keys};
    ghost use Rattle.pq_memo.specs.aux.Stack.{IsMapped};

    ghost Value = { List (Frame R.Key R.Part) };

    ghost view = { λ s. s.frames.items };

    ghost invariant = { λ s. IsMapped R.Key.cmp s.places.entries s.mapped (frame_keys s.frames.items) };
}

/// Notes that the place of `key` is `place`.
fn note<R: Rules>(
    alloc: Global,
    rules: &R,
    places: &mut BTreeMap<R::Key, usize>,
    key: &R::Key,
    place: usize,
) -> Result<(), Memory>
    ensures noted { OnOk result (IsNoted R.Key.cmp places.old.entries key.now place places.new.entries) }
    ensures refused { OnErr result ((q : R.Key) → place_in R.Key.cmp places.new.entries q ≡ place_in R.Key.cmp places.old.entries q) }
{
    if noted(rules, places, key) == Some(place) {
        return Ok(());
    }
    let copy = rules.copy_key(alloc, key)?;
    put_place(rules, places, copy, place)?;
    Ok(())
}

/// Notes the place of the key of one frame more, if the map lacks `NEAR` frames or more. Returns
/// how many it has then.
fn map_next<R: Rules>(
    alloc: Global,
    rules: &R,
    places: &mut BTreeMap<R::Key, usize>,
    mapped: usize,
    frames: &[Frame<R::Key, R::Part>],
) -> Result<usize, Memory>
    requires { IsMapped R.Key.cmp places.old.entries mapped (frame_keys frames.now) }
    ensures mapped { IfOk result (λ n. IsMapped R.Key.cmp places.new.entries n (frame_keys frames.now)) }
    ensures refused { OnErr result (IsMapped R.Key.cmp places.new.entries mapped (frame_keys frames.now)) }
{
    if mapped < frames.len() {
        if frames.len() - mapped >= NEAR {
            note(alloc, rules, places, &frames[mapped].key, mapped)?;
            return Ok(mapped + 1);
        }
    }
    Ok(mapped)
}

/// Pushes `frame`.
fn push_frame<K: Drop, P: Drop>(
    frames: &mut Vec<Frame<K, P>>,
    frame: Frame<K, P>,
) -> Result<(), Memory>
    ensures pushed { OnOk result (frames.new.items ≡ frames.old.items ++ frame ∷ []) }
    ensures refused { OnErr result (frames.new.items ≡ frames.old.items) }
{
    match frames.push(frame) {
        Ok(()) => Ok(()),
        Err(_) => Err(Memory),
    }
}

/// Looks for the frame of `key` from the place `from` on.
fn scan<R: Rules>(
    rules: &R,
    frames: &[Frame<R::Key, R::Part>],
    from: usize,
    key: &R::Key,
) -> Option<usize>
    requires { from ≤ length frames.now }
    ensures found { IfSome result (λ i. (i < length frames.now) × HoldsAt (λ f. f.key ≡ key.now) frames.now i) }
    ensures none { IfNone result ((i : ℕ) → from ≤ i → nth (frame_keys frames.now) i ≡ Some key.now → ⊥) }
{
    for place in from..frames.len() {
        if is_same_key(rules, &frames[place].key, key) {
            return Some(place);
        }
    }
    None
}

/// The lesser of `a` and `b`.
fn lesser(a: usize, b: usize) -> usize
    ensures left { result ≤ a }
    ensures right { result ≤ b }
{
    if b < a { b } else { a }
}

impl<R: Rules> Stack<R> {
    /// An empty stack.
    pub fn new(alloc: Global) -> Self
        // A new stack has no frame.
        ensures { result ≡ [] }
    {
        Stack {
            frames: Vec::new(alloc),
            places: BTreeMap::new(alloc),
            mapped: 0,
            hints: Vec::new(alloc),
            popped: Hints::new(Hint::Nowhere),
        }
    }

    /// Pushes `frame`, whose key is not on the stack, with its `hints`.
    pub(crate) fn push(
        &mut self,
        alloc: Global,
        rules: &R,
        frame: Frame<R::Key, R::Part>,
        hints: Hints,
    ) -> Result<(), Memory>
        requires { In frame.key (frame_keys self.old) → ⊥ }
        ensures { IfOk result (λ _. self.new ≡ self.old ++ frame ∷ []) }
    {
        push(&mut self.hints, hints)?;
        self.mapped = map_next(
            alloc,
            rules,
            &mut self.places,
            self.mapped,
            self.frames.as_slice(),
        )?;
        push_frame(&mut self.frames, frame)?;
        Ok(())
    }

    /// Pops the last frame.
    pub fn pop(&mut self) -> Option<Frame<R::Key, R::Part>>
        // `items`, `empty`: The last frame is taken off the stack and returned; no answer exactly
        // where the stack was empty.
        ensures items { self.old ≡ self.new ++ option_to_list result }
        ensures empty { IfNone result (self.old ≡ []) }
    {
        let hints = self.hints.pop();
        self.popped = hints.unwrap_or(Hints::new(Hint::Nowhere));
        let popped = self.frames.pop();
        self.mapped = lesser(self.mapped, self.frames.as_slice().len());
        popped
    }

    /// The hints of the frame that was popped last.
    pub(crate) fn popped(&self) -> Hints {
        self.popped
    }

    /// Where to look first for the keys of the frames from `place` on.
    pub(crate) fn hints_from(&self, alloc: Global, place: usize) -> Result<Vec<Hint>, Memory> {
        let mut hints = Vec::new(alloc);
        for i in place..self.hints.as_slice().len() {
            push(&mut hints, self.hints.as_slice()[i].own)?;
        }
        Ok(hints)
    }

    /// The place of the frame of `key`, in logarithmic time.
    pub fn place_of(&self, rules: &R, key: &R::Key) -> Option<usize>
        // `found`, `none`: The place of a frame of the key; no answer exactly where no frame has
        // the key.
        ensures found { IfSome result (λ i. (i < length self.now) × HoldsAt (λ f. f.key ≡ key.now) self.now i) }
        ensures none { IfNone result (In key.now (frame_keys self.now) → ⊥) }
    {
        let frames = self.frames.as_slice();
        match scan(rules, frames, self.mapped, key) {
            Some(place) => return Some(place),
            None => {}
        }
        if self.mapped == 0 {
            return None;
        }
        match noted(rules, &self.places, key) {
            Some(place) => {
                if place < frames.len() {
                    if is_same_key(rules, &frames[place].key, key) {
                        return Some(place);
                    }
                }
                None
            }
            None => None,
        }
    }

    /// Takes the frames from `place` on off the stack.
    pub(crate) fn split_off(&mut self, place: usize) -> Result<Vec<Frame<R::Key, R::Part>>, Memory>
        requires { place < length self.old }
        ensures rest { OnOk result (self.new ≡ take place self.old) }
        ensures taken { IfOk result (λ v. v.items ≡ drop place self.old) }
    {
        let taken = self.frames.split_off(place)?;
        self.hints.truncate(place);
        self.mapped = lesser(self.mapped, place);
        Ok(taken)
    }
}

impl<R: Rules> Stack<R> {
    /// Pushes `frame`, whose key is not on the stack. If an allocation fails, the stack is as it
    /// was, and `frame` comes back.
    pub fn put(
        &mut self,
        alloc: Global,
        rules: &R,
        frame: Frame<R::Key, R::Part>,
    ) -> Result<(), Frame<R::Key, R::Part>>
        // No frame on the stack has the key of the frame that is handed in.
        requires { In frame.key (frame_keys self.old) → ⊥ }
        // `pushed`, `refused`, `returned`: The frame is the last on the stack. After an allocation
        // failure the stack is as it was, and the frame comes back.
        ensures pushed { OnOk result (self.new ≡ self.old ++ frame ∷ []) }
        ensures refused { OnErr result (self.new ≡ self.old) }
        ensures returned { IfErr result (λ f. f ≡ frame) }
    {
        if push(&mut self.hints, Hints::new(Hint::Nowhere)).is_err() {
            return Err(frame);
        }
        match map_next(
            alloc,
            rules,
            &mut self.places,
            self.mapped,
            self.frames.as_slice(),
        ) {
            Ok(mapped) => self.mapped = mapped,
            Err(_) => return Err(frame),
        }
        match self.frames.push(frame) {
            Ok(()) => return Ok(()),
            Err(failed) => return Err(failed.value),
        }
    }

    /// The frames, the last above the others.
    pub fn frames(&self) -> &[Frame<R::Key, R::Part>]
        // The frames on the stack, in order.
        ensures { result.now ≡ self.now }
    {
        &self.frames
    }

    /// Drops the frames from `place` on. It takes no memory.
    pub fn cut(&mut self, place: usize)
        // The frames before the place stay, and no others.
        ensures { self.new ≡ take place self.old }
    {
        if place >= self.frames.as_slice().len() {
            return;
        }
        self.frames.truncate(place);
        self.hints.truncate(place);
        self.mapped = lesser(self.mapped, place);
    }
}
