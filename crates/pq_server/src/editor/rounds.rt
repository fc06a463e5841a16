//! The rounds of pushes: what the desk hands to the pusher after edits.
use pq_editor::FileFault;
use pq_view::Text;
use std::sync::{Mutex, Wait};

/// A document whose diagnostics are asked for.
#[derive(Drop)]
pub(crate) struct Asked {
    /// The number of the document. A document that is opened later has a greater one.
    pub(crate) number: u64,
    /// Its URI, as the editor writes it.
    pub(crate) uri: String,
    /// The name of its file.
    pub(crate) name: Text,
    /// Its version at the revision of the round, if the editor gave one.
    pub(crate) version: Option<i64>,
    /// Why its text is not read, if it is not: then its diagnostics are this alone.
    pub(crate) fault: Option<FileFault>,
}

/// What is to be pushed after an edit. A document that is not asked for shows no diagnostics.
#[derive(Drop)]
pub(crate) struct Round {
    /// The revision that the edit made.
    pub(crate) revision: u64,
    /// The open documents, that which was changed last first.
    pub(crate) asked: Vec<Asked>,
}

/// The newest round, which the pusher has not begun.
#[derive(Drop)]
pub(crate) struct Rounds {
    newest: Mutex<Option<Round>>,
}

impl Rounds {
    /// No round.
    pub(crate) fn new() -> Rounds {
        Rounds {
            newest: Mutex::new(None),
        }
    }

    /// Puts `round` in the place of an earlier one that was not begun.
    pub(crate) fn put<H: Wait>(&self, rt: &H, round: Round) {
        let mut newest = self.newest.lock(rt);
        *newest = Some(round);
    }

    /// Takes the newest round, if there is one that was not begun.
    pub(crate) fn take<H: Wait>(&self, rt: &H) -> Option<Round> {
        self.newest.lock(rt).take()
    }

    /// Whether there is a round that was not begun.
    pub(crate) fn is_overtaken<H: Wait>(&self, rt: &H) -> bool {
        self.newest.lock(rt).is_some()
    }
}
