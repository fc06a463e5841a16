//! Full names that share the names of their scopes.
//!
//! A file has many names in one scope, and the scope's name can be as long as the file. So a full
//! name keeps the parts of its scope behind one pointer, which all names of the scope share. Two
//! names are compared from their last bytes to their first: names of one scope differ there, and
//! the scope is not looked at.
ghost use Rattle.std.specs.Prelude.{◌≡◌, ℕ, List, [], ◌∷◌, ◌++◌, ◌==◌, IfOk, OnOk, None, bytes_eq, codes, length, string_bytes, take, true};
ghost use Rattle.std.specs.List.{concat};
ghost use Rattle.std.specs.Cmp.Rules.{comparing};
ghost use Rattle.std.specs.Ordering.{as_partial_cmp};
ghost use Rattle.std.proofs.Common.{rules};
ghost use Rattle.pq_schema.specs.aux.NameParts.{leading, name_order};
ghost use Rattle.pq_schema.specs.aux.NameCodes.{code_of};
ghost use Rattle.pq_schema.specs.aux.RightIn.{IsRightIn, IsRoot};
ghost use Rattle.pq_schema.specs.aux.Spots.{IsPlain};

use crate::names::name_order::{compare, compare_alike};
use crate::names::spelled::{Rest, Spelled};
use pq_names::{Memory, Text};
use pq_rules::Shared;
use pq_syntax::Items;
use std::alloc::Global;
use std::cmp::Ordering;
use std::marker::Model;

/// A full name. Contracts see it as the list of its bytes.
///
/// The names of one scope share the parts of the scope's name.
#[derive(Drop)]
pub struct FullName {
    /// The parts of the scope's name, the outermost first, each with the dot after it.
    scope: Shared<Items<Text>>,
    /// The name in the scope.
    name: Text,
}

impl Model for FullName {
    ghost use Rattle.std.specs.Prelude.{List, ℕ, ◌++◌};
    ghost use Rattle.std.specs.List.{concat};

    ghost Value = { List ℕ };

    ghost view = { λ f. concat f.scope ++ f.name };
}

impl FullName {
    /// A copy, which shares the scope.
    pub fn copy(&self) -> Result<FullName, Memory>
        // A copy is equal.
        ensures copy { IfOk result (λ t. t ≡ self.now) }
    {
        Ok(FullName {
            scope: self.scope.copy()?,
            name: self.name.copy()?,
        })
    }

    /// The name `name` after the parts `scope`.
    pub(crate) fn after(scope: Shared<Items<Text>>, name: Text) -> FullName
        ensures name { result ≡ concat scope ++ name }
    {
        FullName { scope, name }
    }

    /// The text of the name, in one piece.
    pub fn text(&self, alloc: Global) -> Result<Text, Memory>
        // The text of the name.
        ensures text { IfOk result (λ t. t ≡ self.now) }
    {
        let mut text = String::new(alloc);
        self.push_to(&mut text)?;
        Text::from_string(alloc, text)
    }

    /// Appends the bytes of the name to `text`.
    pub fn push_to(&self, text: &mut String) -> Result<(), Memory>
        // The bytes of the name are appended.
        ensures bytes { OnOk result (string_bytes text.new ≡ string_bytes text.old ++ self.now) }
    {
        push_parts(text, self.scope.get().as_slice())?;
        text.push_str(self.name.as_str())?;
        Ok(())
    }

    /// Whether the name has the bytes of `text`.
    #[tactic(auto, using(crate::specs::aux::NameOrder::names_tie))]
    pub fn is(&self, text: &str) -> bool
        // Whether the name has the bytes of the text.
        ensures is { result ≡ bytes_eq self.now text.now }
    {
        let name = Spelled::new(&[], text);
        self.compare_to(name).is_eq()
    }

    /// Compares the bytes of this name and of `name` from the last to the first.
    pub(crate) fn compare_to(&self, name: Spelled<'_>) -> Ordering
        ensures order { result ≡ name_order self.now name.entry }
    {
        let own = self.spelled();
        compare(own, name)
    }

    /// Compares the bytes of this name and of `name`, which begin with the same `count` bytes, from
    /// the last to the first.
    pub(crate) fn compare_alike(&self, name: &Spelled<'_>, count: usize) -> Ordering
        requires alike { take count self.now ≡ take count name.now }
        ensures order { result ≡ name_order self.now name.now }
    {
        let own = self.spelled();
        compare_alike(&own, name, count)
    }

    /// The code of the name, which is made of at most its last 128 bytes and of their number.
    pub(crate) fn code(&self) -> u64
        ensures code { result ≡ code_of self.now }
    {
        self.spelled().code()
    }

    /// The parts of the name, each with the dot after it; without bytes it has none.
    pub(crate) fn parts(&self, alloc: Global) -> Result<Shared<Items<Text>>, Memory>
        ensures parts { IfOk result (λ ps. concat ps ≡ leading self.now) }
    {
        if self.is_empty() {
            return Shared::new(alloc, Items::new(Vec::new(alloc)));
        }
        let mut parts = copy_parts(alloc, self.scope.get().as_slice())?;
        parts.push(with_dot(alloc, self.name.as_str())?)?;
        Shared::new(alloc, Items::new(parts))
    }

    /// The bytes of the name before its last dot; without a dot it has none.
    pub(crate) fn scope(&self) -> Rest<'_>
        ensures dotted { (s n : List ℕ) → IsPlain n → self.now ≡ s ++ 46 ∷ n → result ≡ s }
        ensures plain { IsPlain self.now → result ≡ [] }
    {
        self.spelled().scope()
    }

    /// Whether the name has no bytes.
    pub(crate) fn is_empty(&self) -> bool
        ensures is { result ≡ (length self.now == 0) }
    {
        self.spelled().is_empty()
    }

    /// Whether the name is one without a dot in the package whose name with a dot is `root`. Of
    /// some names that are, the answer is `false`.
    pub(crate) fn is_in(&self, root: &Text) -> bool
        ensures inside { result ≡ true → IsRightIn self.now root.now }
    {
        if self.name.as_str().contains('.') {
            return false;
        }
        is_scope(self.scope.get().as_slice(), root)
    }

    /// The name in its pieces.
    pub(crate) fn spelled(&self) -> Spelled<'_>
        ensures pieces { result ≡ self.now }
    {
        Spelled::new(self.scope.get().as_slice(), self.name.as_str())
    }
}

impl PartialEq for FullName {
    ghost eq = { bytes_eq };

    ghost laws = { Prim.search (comparing, rules) };

    #[tactic(auto, using(crate::specs::aux::NameOrder::names_tie))]
    fn eq(&self, other: &FullName) -> bool {
        self.compare_to(other.spelled()).is_eq()
    }
}

impl Eq for FullName {
    ghost laws = { Prim.search (comparing, rules) };
}

/// The order of the bytes from the last to the first. It finds where two names of one scope differ
/// without a look at the scope.
impl Ord for FullName {
    ghost use Rattle.pq_schema.specs.aux.NameOrder.{names_total, names_tie};

    ghost cmp = { name_order };

    ghost total = { names_total };

    ghost matches_partial_cmp = { Prim.search (comparing, rules) };

    ghost matches_eq = { names_tie };

    fn cmp(&self, other: &FullName) -> Ordering {
        self.compare_to(other.spelled())
    }
}

impl PartialOrd for FullName {
    ghost use Rattle.pq_schema.specs.aux.NameOrder.{names_partial};

    ghost partial_cmp = { as_partial_cmp name_order };

    ghost laws = { names_partial };

    fn partial_cmp(&self, other: &FullName) -> Option<Ordering> {
        Some(self.cmp(other))
    }
}

/// Whether `parts` are those of the package whose name with a dot is `root`.
fn is_scope(parts: &[Text], root: &Text) -> bool
    ensures scope { result ≡ true → IsRoot (concat parts.now) root.now }
{
    if root.as_str() == "." {
        return parts.is_empty();
    }
    is_only(parts, root)
}

/// Whether `root` is the only one of `parts`.
fn is_only(parts: &[Text], root: &Text) -> bool
    ensures only { result ≡ true → concat parts.now ≡ root.now }
{
    match parts.split_first() {
        Some((first, others)) => {
            if others.is_empty() {
                return first == root;
            }
            false
        }
        None => false,
    }
}

/// `name` with a dot after it.
pub(crate) fn with_dot(alloc: Global, name: &str) -> Result<Text, Memory>
    ensures dotted { IfOk result (λ t. t ≡ name.now ++ codes ".") }
{
    let mut text = String::with_capacity(alloc, name.len().saturating_add(1))?;
    text.push_str(name)?;
    text.push_str(".")?;
    Text::from_string(alloc, text)
}

/// Appends the bytes of `parts` to `text`.
pub(crate) fn push_parts(text: &mut String, parts: &[Text]) -> Result<(), Memory>
    ensures bytes { OnOk result (string_bytes text.new ≡ string_bytes text.old ++ concat parts.now) }
{
    'parts: for part in parts {
        text.push_str(part.as_str())?;
    }
    Ok(())
}

/// Copies of `parts`, which share the long ones.
pub(crate) fn copy_parts(alloc: Global, parts: &[Text]) -> Result<Vec<Text>, Memory>
    ensures copy { IfOk result (λ ps. ps.items ≡ parts.now) }
{
    let mut copies = Vec::with_capacity(alloc, parts.len().saturating_add(1))?;
    'parts: for part in parts {
        copies.push(part.copy()?)?;
    }
    Ok(copies)
}
