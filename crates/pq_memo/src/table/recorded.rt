//! Keys as the table keeps them: slots and recorded reads share them.
ghost use Rattle.std.specs.Prelude.{◌≡◌, IfOk};

use crate::table::hint::Hint;
use pq_rules::{Memory, Shared};
use std::alloc::Global;
use std::marker::Model;

/// A recorded read of a memo, or the key of a slot. Contracts see the key.
///
/// The key and its hint are shared by the slot of the key and by the memos that read it. So a read
/// takes 8 bytes, however long its key is.
#[derive(Drop)]
pub(crate) struct Recorded<K> {
    shared: Shared<(K, Hint)>,
}

impl<K> Model for Recorded<K> {
    ghost Value = { K };

    ghost view = { λ r. r.shared.0 };
}

impl<K> Recorded<K> {
    /// The key.
    pub(crate) fn key(&self) -> &K
        ensures { result.now ≡ self.now }
    {
        &self.shared.get().0
    }

    /// Where to look first for the key.
    pub(crate) fn hint(&self) -> Hint {
        self.shared.get().1
    }
}

impl<K: Drop> Recorded<K> {
    /// `key`, which is looked for first at `hint`. If the allocation fails, `key` is dropped.
    pub(crate) fn new(alloc: Global, key: K, hint: Hint) -> Result<Self, Memory>
        ensures { IfOk result (λ r. r ≡ key) }
    {
        let shared = Shared::new(alloc, (key, hint))?;
        Ok(Recorded { shared })
    }

    /// The same key once more. It takes no memory: `Memory` says that the count of copies is used
    /// up.
    pub(crate) fn copy(&self) -> Result<Self, Memory>
        ensures { IfOk result (λ r. r ≡ self.now) }
    {
        let shared = self.shared.copy()?;
        Ok(Recorded { shared })
    }
}
