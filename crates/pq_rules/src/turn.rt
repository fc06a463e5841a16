//! What a rule does next, and what the answer of a key is.
use crate::shared::Shared;
pub use std::alloc::AllocError as Memory;
use std::alloc::Global;
use std::marker::Model;

/// What a rule does next: it asks for the answer of a key and goes on from the part once it has it,
/// or it has ended with its value.
#[derive(Drop)]
pub enum Turn<K, P, V> {
    Ask(K, P),
    Done(V),
}

/// The participants of a cycle (the Salsa book, "Cycle handling"), in the order in which they ask
/// each other: the least key first, and the last asks the first. Copies share the keys, so a copy
/// costs the same for each length. Contracts see the list of the keys.
#[derive(Drop)]
pub struct Ring<K> {
    keys: Shared<Vec<K>>,
}

impl<K> Model for Ring<K> {
    ghost use Rattle.std.specs.Prelude.{List};

    ghost Value = { List K };

    ghost view = { λ r. r.keys.items };
}

impl<K> Ring<K> {
    ghost use Rattle.std.specs.Prelude.{◌≡◌, IfOk};

    /// Makes the ring of `keys`. If the allocation fails, `keys` is dropped.
    pub fn new(alloc: Global, keys: Vec<K>) -> Result<Self, Memory>
    where
        K: Drop,
        // Contracts see the list of keys behind the pointer.
        ensures keys { IfOk result (λ r. r ≡ keys.items) }
    {
        Ok(Ring {
            keys: Shared::new(alloc, keys)?,
        })
    }

    /// The keys, the least first.
    pub fn keys(&self) -> &[K]
        // Contracts see the list of keys behind the pointer.
        ensures keys { result.now ≡ self.now }
    {
        self.keys.get()
    }

    /// The same ring once more. It takes no memory: `Memory` says that the count of copies is used
    /// up.
    pub fn copy(&self) -> Result<Self, Memory>
    where
        K: Drop,
        // A copy is equal.
        ensures copy { IfOk result (λ r. r ≡ self.now) }
    {
        Ok(Ring {
            keys: self.keys.copy()?,
        })
    }
}

/// The answer of a key: the value in which its rule ends, or the cycle of its own level into which
/// its questions lead (the Salsa book, "Cycle handling").
#[derive(Drop)]
pub enum Answer<K, V> {
    Value(V),
    Cycle(Ring<K>),
}
