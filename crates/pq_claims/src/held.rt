//! What is kept of one run: the keys that it holds, and its last wait.
//!
//! A wait names the claim that it waits for, by its number. It counts while the key's holder has
//! that number. So a release ends all waits for its key, and a later claim of the key brings none
//! of them back.
ghost use Rattle.std.specs.Prelude.{◌≡◌, ◌++◌, ◌∷◌, [], None, IfNone, option_copied, option_to_list, OnOk, OnErr};

use pq_rules::{Memory, push};
use std::alloc::Global;
use std::marker::Model;

/// A wait for `key`, which the claim number `claim` holds.
#[derive(Drop)]
pub(crate) struct Wait<K> {
    pub(crate) key: K,
    pub(crate) claim: u64,
}

/// The keys that a run holds, in the order of their claims, and its last wait.
#[derive(Drop)]
pub(crate) struct Held<K> {
    keys: Vec<K>,
    wait: Option<Wait<K>>,
}

impl<K> Model for Held<K> {
    ghost use Rattle.pq_claims.specs.aux.Table.{HeldView};

    ghost Value = { HeldView K };

    ghost view = { λ h. record { keys = h.keys.items; wait = h.wait } };
}

impl<K> Held<K> {
    /// The keys, in the order of their claims.
    pub(crate) fn keys(&self) -> &[K]
        ensures { result.now ≡ self.now.keys }
    {
        &self.keys
    }

    /// The last wait.
    pub(crate) fn wait(&self) -> Option<&Wait<K>>
        ensures { option_copied result ≡ self.now.wait }
    {
        self.wait.as_ref()
    }
}

impl<K: Drop> Held<K> {
    /// No key, and no wait. It takes no memory.
    pub(crate) fn new(alloc: Global) -> Self
        ensures { result ≡ record { keys = []; wait = None } }
    {
        Held {
            keys: Vec::new(alloc),
            wait: None,
        }
    }

    /// Adds `key` at the end.
    pub(crate) fn push(&mut self, key: K) -> Result<(), Memory>
        ensures pushed { OnOk result (self.new ≡ record { keys = self.old.keys ++ key ∷ []; wait = self.old.wait }) }
        ensures refused { OnErr result (self.new ≡ self.old) }
    {
        push(&mut self.keys, key)
    }

    /// Takes the last key out.
    pub(crate) fn pop(&mut self) -> Option<K>
        ensures keys { self.old.keys ≡ self.new.keys ++ option_to_list result }
        ensures wait { self.new.wait ≡ self.old.wait }
        ensures none { IfNone result (self.old.keys ≡ []) }
    {
        self.keys.pop()
    }

    /// Sets the wait.
    pub(crate) fn set_wait(&mut self, wait: Option<Wait<K>>)
        ensures { self.new ≡ record { keys = self.old.keys; wait = wait } }
    {
        self.wait = wait;
    }
}
