//! The table of names.
ghost use Rattle.std.specs.Prelude.{◌≡◌, ◌≢◌, ℕ, ◌<◌, ◌≤◌, ◌↔◌, List, [], ◌∷◌, ◌++◌, length, slice_get, Some, IfOk, OnErr, IsErrOf, IsTrue, Contains};
ghost use Rattle.pq_names.specs.Limits.{max_names};

use crate::fault::NamesFault;
use crate::id::NameId;
use crate::order::{add, search};
use crate::text::Text;
use std::alloc::Global;
use std::marker::Model;

/// The number of names that a table takes.
pub const MAX_NAMES: usize = 1_048_576;

/// Names: texts, each kept once and known by its number.
///
/// Contracts see the list of the texts, in the order of their numbers.
#[derive(Drop)]
pub struct Names {
    texts: Vec<Text>,
    order: Vec<NameId>,
}

impl Model for Names {
    ghost use Rattle.std.specs.Prelude.{ℕ, List, length, ◌≤◌};

    ghost Value = { List (List ℕ) };

    ghost use Rattle.pq_names.specs.aux.Order.{IsOrderOf};
    ghost use Rattle.pq_names.specs.Limits.{max_names};

    ghost view = { λ n. n.texts.items };

    ghost invariant = { λ n. IsOrderOf n.order.items n.texts.items × (length n.texts.items ≤ max_names) };
}

impl Names {
    /// A table without names, which takes its memory from `alloc`.
    pub fn new(alloc: Global) -> Names
        // A new table has no name.
        ensures { result ≡ [] }
    {
        Names {
            texts: Vec::new(alloc),
            order: Vec::new(alloc),
        }
    }

    /// The number of `text`, which becomes a name where it is new.
    ///
    /// A known text has its number already, and the table stays unchanged. The number of a new text
    /// is the number of names before it. A refusal leaves the table unchanged.
    ///
    /// # Errors
    ///
    /// - `Full` exactly where the text is new and the table has `MAX_NAMES` names.
    /// - `Memory` where the text is new and an allocation fails.
    pub fn intern(&mut self, text: &str) -> Result<NameId, NamesFault>
        // `known`, `added`: A known text gets its number and nothing changes. A new text gets the
        // count of the names before it.
        ensures known { (id : ℕ) → slice_get self.old id ≡ Some text.now →
            (result ≡ Ok id) × (self.new ≡ self.old) }
        ensures added { ¬ Contains self.old text.now →
            IfOk result (λ id. (id ≡ length self.old) × (self.new ≡ self.old ++ text.now ∷ [])) }
        // `full`, `refused`: `Full` exactly for a new text in a table of 1,048,576 names. After an
        // error the table is as it was.
        ensures full { IsErrOf result NamesFault.Full ↔
            ((length self.old ≡ max_names) × ¬ Contains self.old text.now) }
        ensures refused { OnErr result (self.new ≡ self.old) }
    {
        let place = match search(&self.order, &self.texts, text) {
            Ok(place) => return Ok(self.order[place]),
            Err(place) => place,
        };
        if self.texts.len() >= MAX_NAMES {
            return Err(NamesFault::Full);
        }
        Ok(add(&mut self.order, &mut self.texts, place, text)?)
    }

    /// The number of `text`, or `None` where the table has no such name. It takes no memory.
    pub fn find(&self, text: &str) -> Option<NameId>
        // The number of the text, or `None` if it is no name: `find` and `text` are inverse to each
        // other.
        ensures { (id : ℕ) → (result ≡ Some id) ↔ (slice_get self.now id ≡ Some text.now) }
    {
        match search(&self.order, &self.texts, text) {
            Ok(place) => Some(self.order[place]),
            Err(_) => None,
        }
    }

    /// The text of the name with the number `id`.
    pub fn text(&self, id: NameId) -> &str
        // The table has a name with this number.
        requires { id < length self.now }
        // `text`, `once`: The text of the name with this number. No other number has that name.
        ensures text { slice_get self.now id ≡ Some result.now }
        ensures once { (other : ℕ) → slice_get self.now other ≡ Some result.now → other ≡ id }
    {
        self.texts[id.number() as usize].as_str()
    }

    /// Whether `text` is the name with the number `number`. It takes one comparison.
    pub fn is_at(&self, number: usize, text: &str) -> bool
        // `is`, `once`: Whether a text is the name with this number. No other number has that name
        // then.
        ensures is { IsTrue result ↔ (slice_get self.now number ≡ Some text.now) }
        ensures once { IsTrue result → (other : ℕ) → slice_get self.now other ≡ Some text.now → other ≡ number }
    {
        if number < self.texts.len() {
            return self.text(NameId::of(number as u32)) == text;
        }
        false
    }

    /// The number of names.
    pub fn len(&self) -> usize
        // `count`, `within`: The count of the names, which is at most 1,048,576.
        ensures count { result ≡ length self.now }
        ensures within { result ≤ max_names }
    {
        self.texts.len()
    }

    /// Whether the table has no names.
    pub fn is_empty(&self) -> bool
        // Whether the table has no name, both ways.
        ensures { IsTrue result ↔ (self.now ≡ []) }
    {
        self.texts.is_empty()
    }
}
