//! Values that copies share.
ghost use Rattle.std.specs.Prelude.{◌≡◌, IfOk};

use crate::turn::Memory;
use std::alloc::Global;
use std::cmp::Ordering;
use std::marker::Model;
use std::sync::Arc;

/// A value behind a counted pointer: a copy costs no more than the count. Contracts see the value.
/// It goes to another thread where the value is `Send` and `Sync`.
#[derive(Drop)]
pub struct Shared<T> {
    value: Arc<T>,
}

impl<T> Model for Shared<T> {
    ghost use Rattle.std.specs.Arc.{arc_value};

    ghost Value = { T };

    ghost view = { λ s. arc_value s.value };
}

impl<T> Shared<T> {
    /// The value.
    pub fn get(&self) -> &T
        // Contracts see the value behind the pointer.
        ensures value { result.now ≡ self.now }
    {
        &*self.value
    }
}

impl<T: Drop> Shared<T> {
    /// Shares `value`. If the allocation fails, `value` is dropped.
    pub fn new(alloc: Global, value: T) -> Result<Self, Memory>
        // Contracts see the value behind the pointer.
        ensures value { IfOk result (λ s. s ≡ value) }
    {
        Ok(Shared {
            value: Arc::new(alloc, value)?,
        })
    }

    /// The same value once more. It takes no memory: `Memory` says that the count of copies is used
    /// up.
    pub fn copy(&self) -> Result<Self, Memory>
        // A copy is equal.
        ensures copy { IfOk result (λ s. s ≡ self.now) }
    {
        Ok(Shared {
            value: self.value.clone()?,
        })
    }
}

impl<T: PartialEq> PartialEq for Shared<T> {
    ghost eq = { T.eq };

    ghost laws = { T.laws };

    fn eq(&self, other: &Self) -> bool {
        *self.get() == *other.get()
    }
}

impl<T: Eq> Eq for Shared<T> {
    ghost laws = { T.Eq.laws };
}

impl<T: Ord> Ord for Shared<T> {
    ghost cmp = { T.cmp };

    ghost total = { T.Ord.total };

    ghost matches_partial_cmp = { T.Ord.matches_partial_cmp };

    ghost matches_eq = { T.Ord.matches_eq };

    fn cmp(&self, other: &Self) -> Ordering {
        self.get().cmp(other.get())
    }
}

impl<T: PartialOrd> PartialOrd for Shared<T> {
    ghost partial_cmp = { T.partial_cmp };

    ghost laws = { T.PartialOrd.laws };

    fn partial_cmp(&self, other: &Self) -> Option<Ordering> {
        self.get().partial_cmp(other.get())
    }
}
