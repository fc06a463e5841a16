//! The rule of a mailbox: what was put is what was got and then what the mailbox holds.
//!
//! A pass is a token without bytes that an end holds; it says what its end has put or got. There are
//! seven kinds of step, each with one pass whose view it changes: making a mailbox, splitting its pass
//! in two, sending, a refused send, receiving, a refused receive, and joining the two passes.
//! `proofs/Relays` proves of each that it keeps the rule, in whatever order threads take their steps.
use crossbeam_channel::protocol::{Join, Lesson, Outcome, Protocol, Split};
use std::collections::LinkedList;
use std::marker::PhantomData;

/// What goes through a mailbox.
pub trait Item: Drop {
    ghost use Rattle.std.specs.Prelude.{ℕ};

    /// What holds of an item that is put after `n` others.
    ghost fits: { ℕ → Self → Type 0 };
}

/// What a pass may do, and what it has put and got. No value of it is made.
pub struct Line<T> {
    pub puts: bool,
    pub gets: bool,
    pub put: LinkedList<T>,
    pub got: LinkedList<T>,
}

/// The rule of a mailbox: items are got in the order in which they were put.
pub struct InOrder<T> {
    of: PhantomData<T>,
}

impl<T: Item> Protocol<T, Line<T>> for InOrder<T> {
    ghost use Rattle.std.specs.Prelude.{true, []};
    ghost use Rattle.pq_mail.specs.aux.Lines.{line, Relayed};

    ghost holds = { Relayed T.fits };

    ghost first = { line true true [] [] };
}

/// Splits a pass into one that puts and one that gets, and joins the two.
pub struct Ends;

impl<T> Split<Line<T>> for Ends {
    ghost use Rattle.std.specs.Prelude.{true, false, []};
    ghost use Rattle.pq_mail.specs.aux.Lines.{line};

    ghost left = { λ v. line true false v.put [] };

    ghost right = { λ v. line false true [] v.got };
}

impl<T> Join<Line<T>> for Ends {
    ghost use Rattle.std.specs.Prelude.{true, false, []};
    ghost use Rattle.pq_mail.specs.aux.Lines.{line};

    ghost both = { λ v w. line true true v.put w.got };

    ghost spent = { line false false [] [] };
}

/// An item is put. A refused put teaches what the mailbox held.
pub struct Puts;

impl<T> Outcome<T, Line<T>> for Puts {
    ghost use Rattle.pq_mail.specs.aux.Lines.{Put};

    ghost then = { Put };
}

impl<T> Lesson<T, Line<T>> for Puts {
    ghost use Rattle.pq_mail.specs.aux.Lines.{Holds};

    ghost fact = { Holds };
}

/// An item is got. A refused receive teaches nothing more than that the mailbox was empty.
pub struct Gets<T> {
    of: PhantomData<T>,
}

impl<T: Item> Outcome<T, Line<T>> for Gets<T> {
    ghost use Rattle.pq_mail.specs.aux.Lines.{Got};

    ghost then = { Got T.fits };
}

impl<T: Item> Lesson<T, Line<T>> for Gets<T> {
    ghost use Rattle.pq_mail.specs.aux.Lines.{Nothing};

    ghost fact = { Nothing };
}

/// What a pass learns that both puts and gets: what was put is what was got and what is held.
pub struct Compares;

impl<T> Lesson<T, Line<T>> for Compares {
    ghost use Rattle.pq_mail.specs.aux.Lines.{Leaves};

    ghost fact = { Leaves };
}
