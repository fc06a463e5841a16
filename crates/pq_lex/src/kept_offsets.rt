//! Lists of byte offsets: four bytes for each up to the first that needs more, and eight from
//! there on.

ghost use Rattle.std.specs.Prelude.{◌≡◌, ◌<◌, ◌==◌, [], ◌∷◌, ◌++◌, length, slice_index, IfOk};
ghost use Rattle.std.specs.Cmp.{partial_equiv_from_equiv};
ghost use Rattle.std.specs.Cmp.Lexicographic.{nat_list_eq_equiv, pointwise};

use crate::Memory;
use std::alloc::Global;
use std::marker::Model;

/// A list of byte offsets.
#[derive(Drop)]
pub(crate) struct Offsets {
    /// The offsets before the first that needs more than four bytes.
    low: Vec<u32>,
    /// That offset, and those after it.
    high: Vec<usize>,
}

impl Model for Offsets {
    ghost use Rattle.std.specs.Prelude.{List, ℕ, ◌++◌};

    ghost Value = { List ℕ };

    ghost view = { λ o. o.low.items ++ o.high.items };
}

impl PartialEq for Offsets {
    ghost eq = { pointwise ◌==◌ };

    ghost laws = { partial_equiv_from_equiv nat_list_eq_equiv };

    fn eq(&self, other: &Offsets) -> bool
        ensures { result ≡ pointwise ◌==◌ self.now other.now }
    {
        if self.len() != other.len() {
            return false;
        }
        for k in 0..self.len() {
            if self.at(k) != other.at(k) {
                return false;
            }
        }
        true
    }
}

impl Eq for Offsets {
    ghost laws = { nat_list_eq_equiv };
}

impl Offsets {
    /// No offsets, with room for `count` of them.
    pub(crate) fn with_capacity(alloc: Global, count: usize) -> Result<Offsets, Memory>
        ensures { IfOk result (λ o. o ≡ []) }
    {
        Ok(Offsets {
            low: Vec::with_capacity(alloc, count)?,
            high: Vec::new(alloc),
        })
    }

    /// How many offsets there are.
    pub(crate) fn len(&self) -> usize
        ensures { result ≡ length self.now }
    {
        self.low.len() + self.high.len()
    }

    /// The offset number `k`, from 0.
    #[inline]
    pub(crate) fn at(&self, k: usize) -> usize
        requires { k < length self.now }
        ensures { result ≡ slice_index self.now k }
    {
        let low = self.low.as_slice();
        if k < low.len() {
            low[k] as usize
        } else {
            self.high[k - low.len()]
        }
    }

    /// Adds `offset` at the end.
    #[inline]
    pub(crate) fn push(&mut self, offset: usize) -> Result<(), Memory>
        ensures { IfOk result (λ _. self.new ≡ self.old ++ offset ∷ []) }
    {
        if self.high.is_empty() && offset <= u32::MAX as usize {
            self.low.push(offset as u32)?;
        } else {
            self.high.push(offset)?;
        }
        Ok(())
    }
}
