//! A scope of a file, with what is before a name in each scope from it up to the package.
//!
//! The scopes of a file share their parts, and what is before a name in each. So to open a scope
//! costs its own name and its depth, however long the names around it are.
ghost use Rattle.std.specs.Prelude.{◌≡◌, ◌++◌, ◌<◌, [], IfOk, OnOk, get_or, length};
ghost use Rattle.std.specs.Option.{option_copied};
ghost use Rattle.pq_schema.specs.aux.Inside.{next_in, opened, opened_by};
ghost use Rattle.pq_schema.specs.aux.InPackage.{dotted};

use crate::names::enclosing::Enclosing;
use crate::names::full_name::{FullName, with_dot};
use crate::names::lead::{Lead, inner_leads};
use pq_names::{Memory, Text};
use pq_rules::Shared;
use pq_syntax::Statement;
use std::alloc::Global;
use std::marker::Model;

/// A message, a service or the package of a file, as the scope of references.
///
/// Contracts see its full name, and what is before a name in each scope from it up to the package,
/// the innermost first. The scopes of the package are not among them.
#[derive(Drop)]
pub(crate) struct Inner {
    scope: Enclosing,
    leads: Vec<Shared<Lead>>,
}

impl Model for Inner {
    ghost use Rattle.std.specs.Prelude.{List, ℕ};

    ghost Value = { List ℕ × List (List ℕ) };

    ghost view = { λ i. (i.scope, i.leads.items) };
}

/// The name `name` in the scope `scope`, unless both are empty.
fn next_in<'a>(scope: &FullName, name: &'a str) -> Option<&'a str>
    ensures next { option_copied result ≡ next_in scope.now name.now }
{
    if !name.is_empty() {
        return Some(name);
    }
    if scope.is_empty() {
        return None;
    }
    Some(name)
}

/// Adds copies of `leads`, which share them, to `out`.
fn copy_leads(leads: &[Shared<Lead>], out: &mut Vec<Shared<Lead>>) -> Result<(), Memory>
    ensures copy { OnOk result (out.new.items ≡ out.old.items ++ leads.now) }
{
    'leads: for lead in leads {
        out.push(lead.copy()?)?;
    }
    Ok(())
}

impl Inner {
    /// The package `name`.
    pub(crate) fn package(alloc: Global, name: &str) -> Result<Shared<Inner>, Memory>
        ensures package { IfOk result (λ s. s ≡ (name.now, [])) }
    {
        let text = Text::new(alloc, name)?;
        let root = with_dot(alloc, name)?;
        let inner = Inner {
            scope: Enclosing::package(alloc, &text, &root)?,
            leads: Vec::new(alloc),
        };
        Shared::new(alloc, inner)
    }

    /// The message or service `name` in this scope.
    pub(crate) fn inside(&self, alloc: Global, name: &Text) -> Result<Shared<Inner>, Memory>
        ensures inside { IfOk result (λ s. s ≡ opened name.now self.now) }
    {
        let next = next_in(self.scope.name(), name.as_str());
        let mut leads = inner_leads(alloc, self.scope.parts(), next)?;
        copy_leads(&self.leads, &mut leads)?;
        let inner = Inner {
            scope: self.scope.inside(alloc, name)?,
            leads,
        };
        Shared::new(alloc, inner)
    }

    /// The full name.
    pub(crate) fn name(&self) -> &FullName
        ensures name { result.now ≡ self.now.0 }
    {
        self.scope.name()
    }

    /// The number of scopes from this one up to the package, without that.
    pub(crate) fn depth(&self) -> usize
        ensures depth { result ≡ length self.now.1 }
    {
        self.leads.len()
    }

    /// What is before a name in the scope `at`, counted from this one outwards.
    pub(crate) fn lead(&self, at: usize) -> &Lead
        requires at { at < length self.now.1 }
        ensures lead { result.now ≡ get_or self.now.1 at [] }
    {
        self.leads[at].get()
    }
}

/// The scope of what `statement` contains, where `outer` is the scope of the statement itself.
pub(crate) fn inner_of(
    alloc: Global,
    statement: &Statement,
    outer: &Shared<Inner>,
) -> Result<Shared<Inner>, Memory>
    ensures { IfOk result (λ s. s ≡ opened_by statement.now outer.now) }
{
    match statement {
        Statement::Message { name } => outer.get().inside(alloc, &name.text),
        Statement::Service { name } => outer.get().inside(alloc, &name.text),
        Statement::Enum { .. } => outer.copy(),
        Statement::Import { .. }
        | Statement::Package { .. }
        | Statement::Option(_)
        | Statement::Field { .. }
        | Statement::MapField { .. }
        | Statement::Oneof { .. }
        | Statement::ReservedNumbers(_)
        | Statement::ReservedNames(_)
        | Statement::Value { .. }
        | Statement::Method { .. }
        | Statement::Extend { .. } => outer.copy(),
    }
}
