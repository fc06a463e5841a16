//! A key of a ring, with its reads as the table keeps them.
ghost use Rattle.std.specs.Prelude.{◌≡◌};

use crate::table::hint::Hint;
use crate::table::recorded::Recorded;
use std::marker::Model;

/// A key of a ring, with the reads that its rule made. Contracts see the pair.
#[derive(Drop)]
pub(crate) struct Placed<K> {
    key: K,
    hint: Hint,
    reads: Vec<Recorded<K>>,
}

impl<K> Model for Placed<K> {
    ghost use Rattle.std.specs.Prelude.{List};

    ghost Value = { K × List K };

    ghost view = { λ p. (p.key, p.reads.items) };
}

impl<K> Placed<K> {
    /// `key` with `reads`. It is looked for first at `hint`.
    pub(crate) fn new(key: K, hint: Hint, reads: Vec<Recorded<K>>) -> Self
        ensures { result ≡ (key, reads.items) }
    {
        Placed { key, hint, reads }
    }

    /// The key.
    pub(crate) fn key(&self) -> &K
        ensures { result.now ≡ self.now.0 }
    {
        &self.key
    }

    /// Where to look first for the key.
    pub(crate) fn hint(&self) -> Hint {
        self.hint
    }

    /// The reads.
    pub(crate) fn reads(&self) -> &[Recorded<K>]
        ensures { result.now ≡ self.now.1 }
    {
        &self.reads
    }

    /// The key and the reads.
    pub(crate) fn parts(self) -> (K, Vec<Recorded<K>>)
        ensures { (result.0 ≡ self.0) × (result.1.items ≡ self.1) }
    {
        let Placed { key, reads, .. } = self;
        (key, reads)
    }
}
