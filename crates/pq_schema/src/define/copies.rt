//! Which definitions of a file have the full name of an earlier one, found by simple names alone.
//!
//! The package has the number 0, and the definitions are counted from 1. The number of a scope is
//! that of the first definition with its name. A definition is looked up by the number of its scope
//! and its own name. Where an earlier one has both, their full names are equal, and the scopes that
//! they open have one number. So for N definitions this takes N log N comparisons of simple names,
//! however long the names of their scopes are.
ghost use Rattle.std.specs.Prelude.{◌≡◌, List, ℕ, IfOk, IfSome, [], ◌∷◌, false, flat_map};
ghost use Rattle.pq_syntax.specs.Places.{places};
ghost use Rattle.pq_schema.specs.Definitions.{defined_at};
ghost use Rattle.pq_schema.specs.aux.Copies.{AddsAll, AddsName, AddsWithin, AreCopies, IsKnown, IsNumbering, full_names};

use crate::define::map_entries::entry_name;
use crate::define::outline::innermost;
use pq_names::{Memory, Text};
use pq_syntax::{Node, Stack, Statement};
use std::alloc::Global;
use std::collections::BTreeMap;

/// A name in a scope, and the number of its first definition.
#[derive(Drop)]
pub(crate) struct Numbered {
    /// The number of the scope.
    pub(crate) scope: usize,
    /// The name in the scope.
    pub(crate) name: Text,
    /// The number of the first definition with the name.
    pub(crate) number: usize,
}

/// The definitions so far, with their numbers.
#[derive(Drop)]
pub(crate) struct Numbering {
    /// The names so far, each once.
    pub(crate) names: Vec<Numbered>,
    /// By number, whether a definition before this one has its full name.
    pub(crate) copies: Vec<bool>,
    /// Where a name in the scope of a number may be in `names`.
    places: BTreeMap<(usize, Text), usize>,
}

impl Numbering {
    /// No definitions, in a package.
    fn new(alloc: Global) -> Result<Numbering, Memory>
        ensures none { IfOk result (λ n. (n.names.items ≡ []) × (n.copies.items ≡ false ∷ [])) }
    {
        Ok(Numbering {
            names: Vec::new(alloc),
            copies: vec![in alloc; false; 1]?,
            places: BTreeMap::new(alloc),
        })
    }

    /// The number of the first definition of `name` in the scope of the number `scope`, if there
    /// was one.
    fn known(&self, scope: usize, name: &Text) -> Result<Option<usize>, Memory>
        ensures known { IfOk result (λ o. IfSome o (λ n. (root : List ℕ) (names : List (List ℕ))
            → IsNumbering root names self.now → IsKnown root names scope name.now n)) }
    {
        let key = (scope, name.copy()?);
        let place = match self.places.get(&key) {
            Some(place) => *place,
            None => return Ok(None),
        };
        match self.names.get(place) {
            Some(known) => {
                if known.scope == scope && known.name == *name {
                    Ok(Some(known.number))
                } else {
                    Ok(None)
                }
            }
            None => Ok(None),
        }
    }

    /// Adds the definition of `name` in the scope of the number `scope`. Returns the number of the
    /// first definition with its full name.
    fn add(&mut self, scope: usize, name: &Text) -> Result<usize, Memory>
        ensures added { IfOk result (AddsName self.old self.new scope name.now) }
    {
        if let Some(number) = self.known(scope, name)? {
            self.copies.push(true)?;
            return Ok(number);
        }
        let number = self.copies.len();
        let key = (scope, name.copy()?);
        let name = name.copy()?;
        self.places.insert(key, self.names.len())?;
        self.names.push(Numbered {
            scope,
            name,
            number,
        })?;
        self.copies.push(false)?;
        Ok(number)
    }

    /// Adds the definition of `name` in the scope of the number `scope`, which it returns.
    fn add_within(&mut self, scope: usize, name: &Text) -> Result<usize, Memory>
        ensures added { IfOk result (AddsWithin self.old self.new scope name.now) }
    {
        self.add(scope, name)?;
        Ok(scope)
    }

    /// Adds what `statement` defines in the scope of the number `scope`. Returns the number of the
    /// scope of what it contains.
    fn add_all(
        &mut self,
        alloc: Global,
        scope: usize,
        statement: &Statement,
    ) -> Result<usize, Memory>
        ensures added { IfOk result (AddsAll self.old self.new scope statement.now) }
    {
        match statement {
            Statement::Message { name } => self.add(scope, &name.text),
            Statement::Service { name } => self.add(scope, &name.text),
            Statement::Enum { name } => self.add_within(scope, &name.text),
            Statement::Field { name, .. } => self.add_within(scope, &name.text),
            Statement::MapField { name, .. } => {
                self.add(scope, &name.text)?;
                let entry = entry_name(alloc, name.text.as_str())?;
                self.add_within(scope, &entry)
            }
            Statement::Oneof { name } => self.add_within(scope, &name.text),
            Statement::Value { name, .. } => self.add_within(scope, &name.text),
            Statement::Method { name, .. } => self.add_within(scope, &name.text),
            Statement::Import { .. }
            | Statement::Package { .. }
            | Statement::Option(_)
            | Statement::ReservedNumbers(_)
            | Statement::ReservedNames(_)
            | Statement::Extend { .. } => Ok(scope),
        }
    }
}

/// The number of the package.
const PACKAGE: usize = 0;

/// Of each definition of a file with the statements `nodes`, counted from 1, whether it is known
/// that one before it has its full name.
pub(crate) fn copies_in(alloc: Global, nodes: &[Node]) -> Result<Vec<bool>, Memory>
    ensures copies { IfOk result (λ v. (root : List ℕ)
        → AreCopies v.items (full_names (flat_map (defined_at root) (places nodes.now)))) }
{
    let mut numbering = Numbering::new(alloc)?;
    let mut stack: Stack<usize> = Stack::new(alloc);
    'items: for item in 0..nodes.len() {
        let node = &nodes[item];
        stack.close_to(node.depth);
        let scope = *innermost(&stack, &PACKAGE);
        let inside = numbering.add_all(alloc, scope, &node.statement)?;
        stack.open(node.depth, inside)?;
    }
    Ok(numbering.copies)
}
