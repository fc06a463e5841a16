//! What the statements of a file define, by one walk.
ghost use Rattle.std.specs.Prelude.{◌≡◌, [], ◌∷◌, ◌++◌, flat_map, IfOk, OnOk};
ghost use Rattle.pq_syntax.specs.Places.{places};
ghost use Rattle.pq_schema.specs.Definitions.{defined_at, defined_by, entry_of, named};

use crate::Memory;
use crate::define::definitions::{Definition, DefinitionKind as Kind};
use crate::define::map_entries::entry_name;
use crate::define::outline::{innermost, scope_of};
use crate::names::enclosing::Enclosing;
use crate::names::full_name::FullName;
use pq_syntax::{Name, Node, Stack, Statement};
use std::alloc::Global;

/// The definitions of a file of the package `root`, in text order.
pub(crate) fn definitions_in(
    alloc: Global,
    root: &Enclosing,
    nodes: &[Node],
) -> Result<Vec<Definition>, Memory>
    ensures { IfOk result (λ v. v.items ≡ flat_map (defined_at root.now) (places nodes.now)) }
{
    let mut stack: Stack<Enclosing> = Stack::new(alloc);
    let mut definitions = Vec::with_capacity(alloc, nodes.len())?;
    'items: for item in 0..nodes.len() {
        let node = &nodes[item];
        stack.close_to(node.depth);
        let scope = innermost(&stack, root);
        let inside = scope_of(alloc, &node.statement, scope)?;
        define(alloc, scope, item, &node.statement, &mut definitions)?;
        stack.open(node.depth, inside)?;
    }
    Ok(definitions)
}

/// Adds what the item `item` defines by `statement` in the scope `scope`.
fn define(
    alloc: Global,
    scope: &Enclosing,
    item: usize,
    statement: &Statement,
    out: &mut Vec<Definition>,
) -> Result<(), Memory>
    ensures { OnOk result
        (out.new.items ≡ out.old.items ++ defined_by scope.now item statement.now) }
{
    match statement {
        Statement::Message { name } => put_named(Kind::Message, scope, item, name, out),
        Statement::Service { name } => put_named(Kind::Service, scope, item, name, out),
        Statement::Enum { name } => put_named(Kind::Enum, scope, item, name, out),
        Statement::Field { name, .. } => put_named(Kind::Field, scope, item, name, out),
        Statement::MapField { name, .. } => put_map_field(alloc, scope, item, name, out),
        Statement::Oneof { name } => put_named(Kind::Oneof, scope, item, name, out),
        Statement::Value { name, .. } => put_named(Kind::Value, scope, item, name, out),
        Statement::Method { name, .. } => put_named(Kind::Method, scope, item, name, out),
        Statement::Import { .. }
        | Statement::Package { .. }
        | Statement::Option(_)
        | Statement::ReservedNumbers(_)
        | Statement::ReservedNames(_)
        | Statement::Extend { .. } => Ok(()),
    }
}

/// Adds the definition of `full_name` by the item `item`.
fn put(
    kind: Kind,
    full_name: FullName,
    item: usize,
    out: &mut Vec<Definition>,
) -> Result<(), Memory>
    ensures { OnOk result (out.new.items ≡ out.old.items
        ++ record { full_name = full_name; kind = kind; item = item } ∷ []) }
{
    out.push(Definition {
        full_name,
        kind,
        item,
    })?;
    Ok(())
}

/// Adds the definition of `name` by the item `item` in the scope `scope`.
fn put_named(
    kind: Kind,
    scope: &Enclosing,
    item: usize,
    name: &Name,
    out: &mut Vec<Definition>,
) -> Result<(), Memory>
    ensures { OnOk result
        (out.new.items ≡ out.old.items ++ named kind scope.now name.now item ∷ []) }
{
    let full_name = scope.full_name(&name.text)?;
    put(kind, full_name, item, out)
}

/// Adds the definitions of the map field `name` and of its entries' message.
fn put_map_field(
    alloc: Global,
    scope: &Enclosing,
    item: usize,
    name: &Name,
    out: &mut Vec<Definition>,
) -> Result<(), Memory>
    ensures { OnOk result (out.new.items ≡ out.old.items
        ++ named Kind.Field scope.now name.now item
        ∷ entry_of scope.now name.now item ∷ []) }
{
    put_named(Kind::Field, scope, item, name, out)?;
    let entry = entry_name(alloc, name.text.as_str())?;
    let full_name = scope.full_name(&entry)?;
    put(Kind::Entry, full_name, item, out)
}
