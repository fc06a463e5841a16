//! The answers that an evaluation has found, and where the frames of its keys are. Keys with one
//! answer share it. Keys are found by their order.
ghost use Rattle.std.specs.Prelude.{◌≡◌, ◌<◌, ◌++◌, ◌∷◌, [], ℕ, length, slice_get, Some, IfOk, IfSome};
ghost use Rattle.std.specs.Map.{lookup};
ghost use Rattle.std.specs.BTreeMap.{is_at, insert_entry};
ghost use Rattle.pq_rules.specs.aux.AnswerTable.{Within};

use crate::turn::{Answer, Memory};
use std::alloc::Global;
use std::collections::BTreeMap;
use std::marker::Model;

/// A table of answers and of started keys. Contracts see each key with the place of its answer, the
/// answers, and each started key with the place that its frame was given in the stack.
#[derive(Drop)]
pub(crate) struct AnswerTable<K: Ord, V> {
    places: BTreeMap<K, usize>,
    answers: Vec<Answer<K, V>>,
    started: BTreeMap<K, usize>,
}

impl<K: Ord, V> Model for AnswerTable<K, V> {
    ghost use Rattle.pq_rules.specs.aux.AnswerTable.{Places, Within};

    ghost Value = { Places K V };

    ghost view = { λ f. record { places = f.places.entries; answers = f.answers.items; started = f.started.entries } };

    ghost invariant = { λ f. Within f.places.entries f.answers.items };
}

impl<K: Ord, V> AnswerTable<K, V> {
    /// Makes an empty table.
    pub(crate) fn new(alloc: Global) -> Self
        ensures places { result.places ≡ [] }
        ensures answers { result.answers ≡ [] }
        ensures started { result.started ≡ [] }
    {
        AnswerTable {
            places: BTreeMap::new(alloc),
            answers: Vec::new(alloc),
            started: BTreeMap::new(alloc),
        }
    }

    /// Finds the place of the answer of `key`, in logarithmic time.
    pub(crate) fn place_of(&self, key: &K) -> Option<usize>
        ensures place { result ≡ lookup (is_at (K.cmp key.now)) self.now.places }
        ensures within { IfSome result (λ i. i < length self.now.answers) }
    {
        match self.places.get(key) {
            Some(place) => Some(*place),
            None => None,
        }
    }

    /// Finds the place that the frame of `key` was given, in logarithmic time.
    pub(crate) fn frame_of(&self, key: &K) -> Option<usize>
        ensures frame { result ≡ lookup (is_at (K.cmp key.now)) self.now.started }
    {
        match self.started.get(key) {
            Some(place) => Some(*place),
            None => None,
        }
    }

    /// The answer at `place`.
    pub(crate) fn answer(&self, place: usize) -> &Answer<K, V>
        requires within { place < length self.now.answers }
        ensures answer { slice_get self.now.answers place ≡ Some result.now }
    {
        &self.answers[place]
    }
}

impl<K: Ord + Drop, V: Drop> AnswerTable<K, V> {
    /// Adds `answer` and returns its place.
    pub(crate) fn add(&mut self, answer: Answer<K, V>) -> Result<usize, Memory>
        ensures place { IfOk result (λ i. i ≡ length self.old.answers) }
        ensures answers { IfOk result (λ _. self.new.answers ≡ self.old.answers ++ answer ∷ []) }
        ensures places { self.new.places ≡ self.old.places }
        ensures started { self.new.started ≡ self.old.started }
        ensures within { Within self.old.places self.old.answers }
    {
        let place = self.answers.len();
        self.answers.push(answer)?;
        Ok(place)
    }

    /// Gives `key` the answer at `place`.
    pub(crate) fn point(&mut self, key: K, place: usize) -> Result<(), Memory>
        requires within { place < length self.old.answers }
        ensures places { IfOk result (λ _. self.new.places ≡ insert_entry K.cmp self.old.places key place) }
        ensures answers { self.new.answers ≡ self.old.answers }
        ensures started { self.new.started ≡ self.old.started }
    {
        self.places.insert(key, place)?;
        Ok(())
    }

    /// Notes that the frame of `key` is at `place`.
    pub(crate) fn start(&mut self, key: K, place: usize) -> Result<(), Memory>
        ensures started { IfOk result (λ _. self.new.started ≡ insert_entry K.cmp self.old.started key place) }
        ensures places { self.new.places ≡ self.old.places }
        ensures answers { self.new.answers ≡ self.old.answers }
    {
        self.started.insert(key, place)?;
        Ok(())
    }

    /// Takes the answer at `place` out of the table.
    pub(crate) fn take(self, place: usize) -> Answer<K, V>
        requires within { place < length self.answers }
        ensures answer { slice_get self.answers place ≡ Some result }
    {
        let mut answers = self.answers;
        answers.swap_remove(place)
    }
}
