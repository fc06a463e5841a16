//! The way from a frame down to a memo that is not up to date.
//!
//! It says where to go on and what to try. No contract speaks of it: a memo is tested when it is
//! marked.

use crate::stepping::frame::{Frame, Stage};
use crate::table::hint::Hint;
use std::alloc::Global;
use std::marker::Model;

/// A slot, and the place among the reads of its memo before which nothing is left to do.
#[derive(Clone, Copy)]
pub(crate) struct Mark {
    pub(crate) number: usize,
    pub(crate) place: usize,
}

/// What a pass over the reads of a memo comes to. `Through`: all are up to date and unchanged.
/// `Below`: the place and the slot of the first that is not up to date. `Shut`: no way on, as one
/// changed.
#[derive(Clone, Copy)]
pub(crate) enum Passage {
    Through,
    Below(usize, usize),
    Shut,
}

/// Slots, each of which has the next one's key among the reads of its memo. Contracts see nothing of
/// it.
#[derive(Drop)]
pub struct Trail {
    marks: Vec<Mark>,
    // How many of the marks have, or had, frames.
    framed: usize,
    // How many marks more may be made. Only a table whose numbers lead in a circle uses them up.
    fuel: usize,
    // Whether there may be a memo to mark at its end.
    open: bool,
}

impl Model for Trail {
    ghost Value = { Unit {0} };

    ghost view = { λ _. tt };
}

impl Trail {
    /// An empty trail. It takes no memory.
    pub fn new(alloc: Global) -> Self {
        Trail {
            marks: Vec::new(alloc),
            framed: 0,
            fuel: usize::MAX,
            open: false,
        }
    }

    /// How many marks more may be made.
    pub(crate) fn fuel(&self) -> usize {
        self.fuel
    }

    /// Whether it goes on at the slot `number`. The next mark without a frame is that of the slot, and
    /// has one now, or the last with a frame is, and there is more below it or to try.
    fn leads_to(&mut self, number: usize) -> bool {
        let marks = self.marks.as_slice();
        let framed = self.framed;
        if framed < marks.len() && marks[framed].number == number {
            self.framed = framed + 1;
            return true;
        }
        let goes_on = self.open || framed < marks.len();
        goes_on && framed > 0 && framed <= marks.len() && marks[framed - 1].number == number
    }

    /// Starts at `frame`, whose slot is at `hint` in a table with `count` slots, or goes on where it
    /// led to the frame. Returns whether there may be a memo to mark: there is none if the frame does
    /// not walk, if `hint` is no slot, or if memory ran out.
    pub(crate) fn start<K, P>(&mut self, frame: &Frame<K, P>, hint: Hint, count: usize) -> bool {
        match &frame.stage {
            Stage::Walking(place) => {
                let Some(number) = hint.slot_number() else {
                    return false;
                };
                if self.leads_to(number) {
                    return self.open;
                }
                let allowed = count.saturating_mul(4);
                if allowed < self.fuel {
                    self.fuel = allowed;
                }
                let place = *place;
                self.marks.truncate(0);
                self.framed = 1;
                self.open = self.marks.push(Mark { number, place }).is_ok();
                self.open
            }
            Stage::Waiting(_, _, _) => false,
        }
    }

    /// The last mark, if there is one.
    pub(crate) fn last(&self) -> Option<Mark> {
        self.marks.as_slice().last().copied()
    }

    /// Whether the last mark has a frame.
    pub(crate) fn is_at_frame(&self) -> bool {
        self.marks.as_slice().len() <= self.framed
    }

    /// Nothing is left to try, unless the memo at its end is marked.
    pub(crate) fn close(&mut self) {
        self.open = false;
    }

    /// There may be more to try.
    pub(crate) fn open(&mut self) {
        self.open = true;
    }

    /// Leaves the last mark, whose memo is marked as verified now.
    pub fn leave(&mut self) {
        self.marks.pop();
        self.open = true;
    }

    /// Goes on from the last mark, whose place is `place`, to the slot `number`. It does not where
    /// memory ran out.
    pub(crate) fn go_below(&mut self, place: usize, number: usize) -> bool {
        let count = self.marks.as_slice().len();
        if count > 0 {
            self.marks[count - 1].place = place;
        }
        if self.fuel == 0 {
            return false;
        }
        self.fuel -= 1;
        self.marks.push(Mark { number, place: 0 }).is_ok()
    }
}
