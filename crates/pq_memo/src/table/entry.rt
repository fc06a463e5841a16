//! What the table keeps of a key.
ghost use Rattle.std.specs.Prelude.{◌≡◌, IfOk};
ghost use Rattle.std.specs.Option.{option_map};
ghost use Rattle.pq_memo.specs.Writes.{remarked};

use crate::table::hint::Hint;
use crate::table::recorded::Recorded;
use crate::table::unpublished::Unpublished;
use pq_inputs::Durability;
use pq_rules::{Answer, Memory, Shared};
use std::marker::Model;

/// What the table keeps of a key. Contracts see a memo. The keys of a ring share their answer.
#[derive(Drop)]
pub(crate) struct Entry<K, V> {
    answer: Shared<Answer<K, V>>,
    verified: u64,
    changed: u64,
    reads: Vec<Recorded<K>>,
    durability: Durability,
    // Where to look first for the key among the keys of the answer, if that is a cycle. It need not
    // be there: no contract speaks of it.
    place: usize,
}

impl<K, V> Model for Entry<K, V> {
    ghost use Rattle.pq_memo.specs.Sound.{Memo};

    ghost Value = { Memo K V };

    ghost view = { λ e. record { answer = e.answer; verified = e.verified; changed = e.changed; reads = e.reads.items; durability = e.durability } };
}

impl<K, V> Entry<K, V> {
    /// Makes an entry. Its key is looked for first at `place` of a cycle.
    pub(crate) fn new(
        answer: Shared<Answer<K, V>>,
        verified: u64,
        changed: u64,
        reads: Vec<Recorded<K>>,
        durability: Durability,
        place: usize,
    ) -> Self
        ensures { result ≡ record { answer = answer; verified = verified; changed = changed; reads = reads.items; durability = durability } }
    {
        Entry {
            answer,
            verified,
            changed,
            reads,
            durability,
            place,
        }
    }

    /// The answer.
    pub(crate) fn answer(&self) -> &Answer<K, V>
        ensures { result.now ≡ self.now.answer }
    {
        self.answer.get()
    }

    /// The revision at which the memo was last verified.
    pub(crate) fn verified(&self) -> u64
        ensures { result ≡ self.now.verified }
    {
        self.verified
    }

    /// The revision at which the answer last changed.
    pub(crate) fn changed(&self) -> u64
        ensures { result ≡ self.now.changed }
    {
        self.changed
    }

    /// The reads, in order.
    pub(crate) fn reads(&self) -> &[Recorded<K>]
        ensures { result.now ≡ self.now.reads }
    {
        &self.reads
    }

    /// The durability.
    pub(crate) fn durability(&self) -> Durability
        ensures { result ≡ self.now.durability }
    {
        self.durability
    }

    /// Where to look first for the key in a cycle.
    pub(crate) fn place(&self) -> usize {
        self.place
    }

    /// Where to look first for the read `i`.
    pub(crate) fn hint(&self, i: usize) -> Hint {
        self.reads.get(i).map_or(Hint::Nowhere, |read| read.hint())
    }

    /// Sets the verified revision and the durability.
    pub(crate) fn mark(&mut self, revision: u64, durability: Durability)
        ensures { self.new ≡ remarked self.old revision durability }
    {
        self.verified = revision;
        self.durability = durability;
    }

    /// What was handed in for the entry, with its `key` and its `reads`.
    pub(crate) fn unpublished(self, key: K, reads: Vec<K>) -> Unpublished<K, V>
    where
        K: Drop,
        ensures key { result.key ≡ key }
        ensures answer { result.answer ≡ self.answer }
        ensures reads { result.reads.items ≡ reads.items }
    {
        let Entry { answer, .. } = self;
        Unpublished { key, answer, reads }
    }
}

impl<K: Drop, V: Drop> Entry<K, V> {
    /// The answer once more.
    pub(crate) fn share(&self) -> Result<Shared<Answer<K, V>>, Memory>
        ensures { IfOk result (λ a. a ≡ self.now.answer) }
    {
        self.answer.copy()
    }
}

/// Marks the entry in `place`, if there is one.
pub(crate) fn mark_in<K, V>(place: &mut Option<Entry<K, V>>, revision: u64, durability: Durability)
    ensures { place.new ≡ option_map (λ m. remarked m revision durability) place.old }
{
    if let Some(entry) = place {
        entry.mark(revision, durability);
    }
}
