//! Texts by their bytes from the last to the first.
ghost use Rattle.std.specs.Prelude.{◌≡◌, IfOk, reverse};
ghost use Rattle.std.proofs.Common.{rules};
ghost use Rattle.std.specs.Cmp.{partial_order_from_own_ties};
ghost use Rattle.std.specs.Cmp.Rules.{comparing};
ghost use Rattle.std.specs.Cmp.Lexicographic.{slice_cmp};
ghost use Rattle.std.specs.Str.{bytes_eq};
ghost use Rattle.std.specs.Ordering.{nat_cmp, as_partial_cmp};

use pq_names::Memory;
use std::alloc::Global;
use std::cmp::Ordering;
use std::marker::Model;

/// The bytes of a text from the last to the first, compared as bytes. Contracts see the list.
#[derive(Drop)]
pub(crate) struct Reversed {
    pub(crate) bytes: Vec<u8>,
}

impl Model for Reversed {
    ghost use Rattle.std.specs.Prelude.{List, ℕ};

    ghost Value = { List ℕ };

    ghost view = { λ r. r.bytes.items };
}

impl PartialEq for Reversed {
    ghost eq = { bytes_eq };

    ghost laws = { Prim.search (comparing, rules) };

    #[inline]
    fn eq(&self, other: &Reversed) -> bool {
        self.bytes.as_slice() == other.bytes.as_slice()
    }
}

impl Eq for Reversed {
    ghost laws = { Prim.search (comparing, rules) };
}

impl Ord for Reversed {
    ghost cmp = { slice_cmp nat_cmp };

    ghost total = { Prim.search (comparing, rules) };

    ghost matches_partial_cmp = { Prim.search (comparing, rules) };

    ghost matches_eq = { Prim.search (comparing, rules) };

    #[inline]
    fn cmp(&self, other: &Reversed) -> Ordering {
        self.bytes.as_slice().cmp(other.bytes.as_slice())
    }
}

impl PartialOrd for Reversed {
    ghost partial_cmp = { as_partial_cmp (slice_cmp nat_cmp) };

    ghost laws = { partial_order_from_own_ties (Prim.search (comparing, rules)) (Prim.search (comparing, rules)) };

    #[inline]
    fn partial_cmp(&self, other: &Reversed) -> Option<Ordering> {
        Some(self.cmp(other))
    }
}

/// The bytes of `text` from the last to the first.
pub(crate) fn reversed_bytes(alloc: Global, text: &str) -> Result<Vec<u8>, Memory>
    ensures reversed { IfOk result (λ bytes. bytes.items ≡ reverse text.now) }
{
    let mut bytes = Vec::new(alloc);
    bytes.extend_from_slice(text.as_bytes())?;
    bytes.reverse();
    Ok(bytes)
}
