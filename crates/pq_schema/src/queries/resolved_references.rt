//! The resolved references of a file as one value.
//!
//! The references of a file are found in text order, so the numbers of their items do not fall. `new`
//! tests that in one pass. From then on `of_item` finds those of an item by two binary searches.
ghost use Rattle.std.specs.Prelude.{◌≡◌, ◌≤◌, ◌<◌, ℕ, get_or, leb, length, ltb, true};
ghost use Rattle.std.specs.List.Sorted.{IsNonDecreasingBy};
ghost use Rattle.pq_schema.specs.OfItem.{IsOfItem, item_of};
ghost use Rattle.pq_schema.specs.declared.queries.resolved.ResolvedReference.{ResolvedReference};

use crate::queries::resolved::ResolvedReference;
use std::marker::Model;

/// The type references of a file, each with what it resolves to. Contracts see the list of them, and
/// `==` compares exactly that list.
#[derive(Drop)]
pub struct ResolvedReferences {
    references: Vec<ResolvedReference>,
    /// Whether the numbers of their items are known not to fall.
    rises: bool,
}

impl Model for ResolvedReferences {
    ghost use Rattle.std.specs.Prelude.{◌≡◌, List, true};
    ghost use Rattle.std.specs.List.Sorted.{IsNonDecreasingBy};
    ghost use Rattle.pq_schema.specs.OfItem.{item_of};
    ghost use Rattle.pq_schema.specs.declared.queries.resolved.ResolvedReference.{ResolvedReference};

    ghost Value = { List ResolvedReference };

    ghost view = { λ r. r.references.items };

    ghost invariant = { λ r. r.rises ≡ true → IsNonDecreasingBy item_of r.references.items };
}

/// Whether the numbers of the items of `references` do not fall.
fn items_rise(references: &[ResolvedReference]) -> bool
    ensures { result ≡ true → IsNonDecreasingBy item_of references.now }
{
    let mut last = 0;
    'references: for reference in references {
        if reference.item < last {
            return false;
        }
        last = reference.item;
    }
    true
}

/// Those of `references` that are of the item of the number `item`.
fn those_of(references: &[ResolvedReference], item: usize) -> &[ResolvedReference]
    requires { IsNonDecreasingBy item_of references.now }
    ensures of { IsOfItem references.now item result.now }
{
    let first = references.partition_point(
        |reference: &ResolvedReference| -> bool
            ensures { result ≡ ltb reference.now.item item }
        { reference.item < item },
    );
    let from = &references[first..];
    let count = from.partition_point(
        |reference: &ResolvedReference| -> bool
            ensures { result ≡ leb reference.now.item item }
        { reference.item <= item },
    );
    &from[..count]
}

impl ResolvedReferences {
    /// The references `references`.
    pub fn new(references: Vec<ResolvedReference>) -> ResolvedReferences
        // The list has the references that were handed in, in order.
        ensures { result ≡ references.items }
    {
        let rises = items_rise(&references);
        ResolvedReferences { references, rises }
    }

    /// The references, in text order.
    pub fn as_slice(&self) -> &[ResolvedReference]
        // The references of the list, in order.
        ensures { result.now ≡ self.now }
    {
        self.references.as_slice()
    }

    /// A part of the list in which all references of the item of the number `item` are, in
    /// logarithmic time.
    pub fn of_item(&self, item: usize) -> &[ResolvedReference]
        // A part of the list: what is before it and after it is of other items.
        ensures of { IsOfItem self.now item result.now }
    {
        if self.rises {
            those_of(&self.references, item)
        } else {
            &self.references
        }
    }
}

impl PartialEq for ResolvedReferences {
    ghost use Rattle.pq_schema.specs.aux.SameReferences.{same_references, references_per};

    ghost eq = { same_references };

    ghost laws = { references_per };

    fn eq(&self, other: &Self) -> bool {
        self.as_slice() == other.as_slice()
    }
}

impl Eq for ResolvedReferences {
    ghost use Rattle.pq_schema.specs.aux.SameReferences.{references_equiv};

    ghost laws = { references_equiv };
}
