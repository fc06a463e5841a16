//! A key of a ring, with its reads.
ghost use Rattle.std.specs.Prelude.{◌≡◌};

use std::marker::Model;

/// A key of a ring, with the reads that its rule made. Contracts see the pair.
#[derive(Drop)]
pub struct Member<K> {
    key: K,
    reads: Vec<K>,
}

impl<K> Model for Member<K> {
    ghost use Rattle.std.specs.Prelude.{List};

    ghost Value = { K × List K };

    ghost view = { λ m. (m.key, m.reads.items) };
}

impl<K> Member<K> {
    /// `key` with `reads`.
    pub fn new(key: K, reads: Vec<K>) -> Self
        // The member has the key and the reads that were handed in.
        ensures { result ≡ (key, reads.items) }
    {
        Member { key, reads }
    }

    /// The key.
    pub fn key(&self) -> &K
        // The key of the member.
        ensures { result.now ≡ self.now.0 }
    {
        &self.key
    }

    /// The reads.
    pub fn reads(&self) -> &[K]
        // The reads of the member.
        ensures { result.now ≡ self.now.1 }
    {
        &self.reads
    }

    /// The key and the reads.
    pub fn parts(self) -> (K, Vec<K>)
        // The key and the reads of the member.
        ensures { (result.0 ≡ self.0) × (result.1.items ≡ self.1) }
    {
        let Member { key, reads } = self;
        (key, reads)
    }
}
