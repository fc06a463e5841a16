//! Lists that keep each item at its first place alone.
//!
//! Beside the list lies a set of its items, so that a further item takes logarithmic time. A hash
//! set would not do: whoever writes the names could make them collide.
ghost use Rattle.std.specs.Prelude.{◌≡◌, [], OnOk, slice_get};
ghost use Rattle.std.specs.Option.{option_copied};
ghost use Rattle.std.specs.Ordering.{eq_by_cmp};
ghost use Rattle.pq_links.specs.aux.Adding.{add_first};

use crate::Memory;
use std::alloc::Global;
use std::collections::BTreeSet;
use std::marker::Model;

/// Items, each once. Contracts see the list of them, each at its first place.
#[derive(Drop)]
pub(crate) struct Firsts<T: Ord> {
    items: Vec<T>,
    seen: BTreeSet<T>,
}

impl<T: Ord> Model for Firsts<T> {
    ghost use Rattle.std.specs.Prelude.{List};
    ghost use Rattle.pq_links.specs.aux.Adding.{Sees};

    ghost Value = { List T };

    ghost view = { λ f. f.items.items };

    ghost invariant = { λ f. Sees T.cmp f.seen f.items.items };
}

impl<T: Ord> Firsts<T> {
    /// Makes an empty list.
    pub(crate) fn new(alloc: Global) -> Self
        ensures empty { result ≡ [] }
    {
        Firsts {
            items: Vec::new(alloc),
            seen: BTreeSet::new(alloc),
        }
    }
}

impl<T: Ord + Drop> Firsts<T> {
    /// Adds `item`, if it is not there yet. `key` is a copy of it.
    pub(crate) fn add(&mut self, item: T, key: T) -> Result<(), Memory>
        requires copy { key ≡ item }
        ensures added { OnOk result (self.new ≡ add_first (eq_by_cmp T.cmp) self.old item) }
    {
        self.items.reserve(1)?;
        if self.seen.insert(key)? {
            self.items.push_reserved(item);
        }
        Ok(())
    }

    /// The item at `place`, if there are as many.
    pub(crate) fn at(&self, place: usize) -> Option<&T>
        ensures item { option_copied result ≡ slice_get self.now place }
    {
        self.items.get(place)
    }

    /// The items.
    pub(crate) fn into_vec(self) -> Vec<T>
        ensures items { result.items ≡ self }
    {
        self.items
    }
}
