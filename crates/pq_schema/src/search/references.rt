//! The type references of a file, by one walk.
ghost use Rattle.std.specs.Prelude.{◌≡◌, [], ◌∷◌, ◌++◌, bytes_eq, flat_map, IfOk, OnOk};
ghost use Rattle.pq_syntax.specs.Places.{places};
ghost use Rattle.pq_schema.specs.References.{is_one_of, references_at, references_by, references_of, scalars, type_reference};

use crate::define::outline::{innermost, package_of, scope_of};
use crate::names::enclosing::Enclosing;
use crate::names::full_name::{FullName, with_dot};
use crate::{Memory, Text};
use pq_links::TypePart;
use pq_syntax::{Name, Node, Stack, Statement};
use std::alloc::Global;

/// A type reference: a name that has to be resolved to a type.
#[derive(Drop, PartialEq, Eq)]
pub struct Reference {
    /// The number of its item: the statements of a file count from 0, in text order.
    pub item: usize,
    /// The part of the item that it is.
    pub part: TypePart,
    /// The full name of the message or service that contains the item, or the package.
    pub within: FullName,
    /// The name as written.
    pub name: Text,
}

/// The type references of a file with the statements `nodes`, in text order.
pub fn references_in(alloc: Global, nodes: &[Node]) -> Result<Vec<Reference>, Memory>
    // The type references of a file, each with its place and the message or service that contains
    // it.
    ensures references { IfOk result (λ v. v.items ≡ references_of nodes.now) }
{
    let package_name = package_of(alloc, nodes)?;
    let root = with_dot(alloc, package_name.as_str())?;
    let package = Enclosing::package(alloc, &package_name, &root)?;
    let references = references_under(alloc, &package, nodes)?;
    Ok(references)
}

/// The type references of a file of the package `root`, in text order.
fn references_under(
    alloc: Global,
    root: &Enclosing,
    nodes: &[Node],
) -> Result<Vec<Reference>, Memory>
    ensures { IfOk result
        (λ v. v.items ≡ flat_map (references_at root.now) (places nodes.now)) }
{
    let mut stack: Stack<Enclosing> = Stack::new(alloc);
    let mut references = Vec::new(alloc);
    'items: for item in 0..nodes.len() {
        let node = &nodes[item];
        stack.close_to(node.depth);
        let scope = innermost(&stack, root);
        let inside = scope_of(alloc, &node.statement, scope)?;
        refer(scope, item, &node.statement, &mut references)?;
        stack.open(node.depth, inside)?;
    }
    Ok(references)
}

/// Adds the references of the item `item` with the statement `statement`, used in the scope
/// `scope`.
fn refer(
    scope: &Enclosing,
    item: usize,
    statement: &Statement,
    out: &mut Vec<Reference>,
) -> Result<(), Memory>
    ensures { OnOk result
        (out.new.items ≡ out.old.items ++ references_by scope.now item statement.now) }
{
    match statement {
        Statement::Field { type_name, .. } => put_type(scope, item, type_name, out),
        Statement::MapField { value, .. } => put_type(scope, item, value, out),
        Statement::Method { input, output, .. } => {
            put(TypePart::Input, scope, item, &input.type_name, out)?;
            put(TypePart::Output, scope, item, &output.type_name, out)
        }
        Statement::Import { .. }
        | Statement::Package { .. }
        | Statement::Option(_)
        | Statement::Message { .. }
        | Statement::Oneof { .. }
        | Statement::ReservedNumbers(_)
        | Statement::ReservedNames(_)
        | Statement::Enum { .. }
        | Statement::Value { .. }
        | Statement::Service { .. }
        | Statement::Extend { .. } => Ok(()),
    }
}

/// Adds the reference of a field's type, unless that is a scalar.
fn put_type(
    scope: &Enclosing,
    item: usize,
    name: &Name,
    out: &mut Vec<Reference>,
) -> Result<(), Memory>
    ensures { OnOk result
        (out.new.items ≡ out.old.items ++ type_reference item scope.now name.now.text) }
{
    if is_scalar(name.text.as_str()) {
        return Ok(());
    }
    put(TypePart::Type, scope, item, name, out)
}

/// Adds the reference that the part `part` of the item `item` is.
fn put(
    part: TypePart,
    scope: &Enclosing,
    item: usize,
    name: &Name,
    out: &mut Vec<Reference>,
) -> Result<(), Memory>
    ensures { OnOk result (out.new.items ≡ out.old.items
        ++ record { item = item; part = part; within = scope.now; name = name.now.text } ∷ []) }
{
    out.push(Reference {
        item,
        part,
        within: scope.name().copy()?,
        name: name.text.copy()?,
    })?;
    Ok(())
}

/// Whether `name` is the name of a scalar type.
pub(crate) fn is_scalar(name: &str) -> bool
    ensures { result ≡ is_one_of scalars name.now }
{
    is_scalar_word(name.as_bytes())
}

/// Whether `name` has the bytes of `word`.
#[inline(always)]
fn is_word(name: &[u8], word: &[u8]) -> bool
    ensures { result ≡ bytes_eq word.now name.now }
{
    word == name
}

/// Whether `name` is the name of a scalar type. The first byte rules out most names.
fn is_scalar_word(name: &[u8]) -> bool
    ensures { result ≡ is_one_of scalars name.now }
{
    if name.is_empty() {
        return false;
    }
    match name[0] {
        b'b' => is_word(name, b"bool") || is_word(name, b"bytes"),
        b'd' => is_word(name, b"double"),
        b'f' => {
            is_word(name, b"float") || is_word(name, b"fixed64") || is_word(name, b"fixed32")
        }
        b'i' => is_word(name, b"int64") || is_word(name, b"int32"),
        b's' => {
            is_word(name, b"string")
                || is_word(name, b"sfixed32")
                || is_word(name, b"sfixed64")
                || is_word(name, b"sint32")
                || is_word(name, b"sint64")
        }
        b'u' => is_word(name, b"uint64") || is_word(name, b"uint32"),
        _ => false,
    }
}
