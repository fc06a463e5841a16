//! The types of fields and methods as descriptors tell them.
ghost use Rattle.std.specs.Prelude.{◌≡◌, ◌++◌, Some, cond, codes, IfOk};
ghost use Rattle.pq_proto.specs.Types.{enum_type, field_type, key_type, message_type, no_type, referred, scalar_number, type_to};
ghost use Rattle.pq_proto.specs.aux.Views.{type_of};

use crate::Memory;
use crate::descriptor::references::References;
use pq_links::TypePart;
use pq_schema::{FullName, Resolution};
use std::alloc::Global;

/// A type as descriptors tell it.
#[derive(Drop)]
pub(crate) struct TypeName {
    /// The number of its kind.
    pub(crate) number: u64,
    /// Its full name with a leading dot, unless it is a scalar.
    pub(crate) name: Option<String>,
}

/// The type of a reference that resolves to nothing.
fn no_type() -> TypeName
    ensures { type_of result ≡ no_type }
{
    TypeName {
        number: 11,
        name: None,
    }
}

/// The number of the scalar type `name`, if it is one.
fn scalar_number(name: &str) -> Option<u64>
    ensures { result ≡ scalar_number name.now }
{
    match name {
        "double" => Some(1),
        "float" => Some(2),
        "int64" => Some(3),
        "uint64" => Some(4),
        "int32" => Some(5),
        "fixed64" => Some(6),
        "fixed32" => Some(7),
        "bool" => Some(8),
        "string" => Some(9),
        "bytes" => Some(12),
        "uint32" => Some(13),
        "sfixed32" => Some(15),
        "sfixed64" => Some(16),
        "sint32" => Some(17),
        "sint64" => Some(18),
        _ => None,
    }
}

/// The type of the full name `full`.
fn named_type(alloc: Global, full: &FullName, is_enum: bool) -> Result<TypeName, Memory>
    ensures { IfOk result (λ t. type_of t
        ≡ record { number = cond is_enum enum_type message_type; name = Some (codes "." ++ full.now) }) }
{
    let mut name = String::from_str(alloc, ".")?;
    full.push_to(&mut name)?;
    Ok(TypeName {
        number: if is_enum { 14 } else { 11 },
        name: Some(name),
    })
}

/// The message type of the full name `full`.
pub(crate) fn message_type(alloc: Global, full: &str) -> Result<TypeName, Memory>
    ensures { IfOk result (λ t. type_of t
        ≡ record { number = message_type; name = Some (codes "." ++ full.now) }) }
{
    let mut name = String::from_str(alloc, ".")?;
    name.push_str(full)?;
    Ok(TypeName {
        number: 11,
        name: Some(name),
    })
}

/// The type that a reference resolves to with `resolution`.
fn type_to(alloc: Global, resolution: &Resolution) -> Result<TypeName, Memory>
    ensures { IfOk result (λ t. type_of t ≡ type_to resolution.now) }
{
    match resolution {
        Resolution::Type(target) => named_type(alloc, &target.full_name, target.is_enum),
        Resolution::NotFound | Resolution::NotVisible(_) | Resolution::NotAType => Ok(no_type()),
    }
}

/// The type that the part `part` of the item `item` refers to.
pub(crate) fn referred(
    alloc: Global,
    references: &References<'_>,
    item: usize,
    part: TypePart,
) -> Result<TypeName, Memory>
    ensures { IfOk result (λ t. type_of t ≡ referred references.now item part) }
{
    match references.first(item, part) {
        Some(reference) => type_to(alloc, &reference.resolution),
        None => Ok(no_type()),
    }
}

/// The type `name` of a field or of the values of a map field, the item `item`.
pub(crate) fn field_type(
    alloc: Global,
    references: &References<'_>,
    item: usize,
    name: &str,
) -> Result<TypeName, Memory>
    ensures { IfOk result (λ t. type_of t ≡ field_type references.now item name.now) }
{
    match scalar_number(name) {
        Some(number) => Ok(TypeName { number, name: None }),
        None => referred(alloc, references, item, TypePart::Type),
    }
}

/// The type `name` of the keys of a map field.
pub(crate) fn key_type(name: &str) -> TypeName
    ensures { type_of result ≡ key_type name.now }
{
    match scalar_number(name) {
        Some(number) => TypeName { number, name: None },
        None => no_type(),
    }
}
