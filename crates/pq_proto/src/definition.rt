//! The definition of what stands at a place of a file.
ghost use Rattle.std.specs.Prelude.{◌≡◌, IfOk};
ghost use Rattle.pq_links.specs.Files.{nodes_of};
ghost use Rattle.pq_proto.specs.Definition.{definition_at, holds, type_item};

use crate::Memory;
use crate::files::{only_at, span_in};
use pq_lex::Span;
use pq_links::{ParsedFile, Part};
use pq_names::Text;
use pq_schema::{Resolution, ResolvedReference, ResolvedReferences};
use std::alloc::Global;

/// An item of a file that defines a type.
#[derive(Drop, PartialEq, Eq)]
pub struct TypeItem {
    /// The file.
    pub file: Text,
    /// The number of the item: the statements of a file count from 0, in text order.
    pub item: usize,
}

/// Whether `offset` lies in `span`, both ends included.
fn holds(span: Option<Span>, offset: usize) -> bool
    ensures { result ≡ holds span offset }
{
    match span {
        Some(span) => span.start <= offset && offset <= span.end,
        None => false,
    }
}

/// The file and the item of the type that a reference resolves to with `resolution`.
fn type_item(resolution: &Resolution) -> Result<Option<TypeItem>, Memory>
    ensures { IfOk result (λ t. t ≡ type_item resolution.now) }
{
    match resolution {
        Resolution::Type(target) => Ok(Some(TypeItem {
            file: target.file.copy()?,
            item: target.item,
        })),
        Resolution::NotFound | Resolution::NotVisible(_) | Resolution::NotAType => Ok(None),
    }
}

/// The type that is referred to at the offset `offset` of a file that is read as `file`, if it is one
/// of the references `references`. The first of them that holds the offset decides.
fn first_at(
    file: &ParsedFile,
    references: &[ResolvedReference],
    offset: usize,
) -> Result<Option<TypeItem>, Memory>
    ensures { IfOk result (λ t. t ≡ definition_at (nodes_of file.now) offset references.now) }
{
    'references: for reference in references {
        if holds(
            span_in(file, reference.item, Part::Type(reference.part)),
            offset,
        ) {
            return type_item(&reference.resolution);
        }
    }
    Ok(None)
}

/// Those of the references `references` that can hold `offset`, in a file that is read as `file`,
/// and perhaps others.
fn near<'a>(
    file: &ParsedFile,
    references: &'a ResolvedReferences,
    offset: usize,
) -> &'a [ResolvedReference]
    ensures same { definition_at (nodes_of file.now) offset result.now
        ≡ definition_at (nodes_of file.now) offset references.now }
{
    match only_at(file, offset) {
        Some(item) => references.of_item(item),
        None => references.as_slice(),
    }
}

/// The type that is referred to at the offset `offset` of a file that is read as `file` and has the
/// resolved references `references` (Language Server Protocol 3.17, "Goto Definition Request").
/// The first reference that holds the offset decides; both of its ends belong to it.
///
/// `None` where no reference holds the offset, or it resolves to no type. Only `Memory` is an
/// error, after an allocation failure.
pub fn definition_at(
    file: &ParsedFile,
    references: &ResolvedReferences,
    offset: usize,
) -> Result<Option<TypeItem>, Memory>
    // The file and item of the type that the first reference which holds the offset resolves to,
    // both ends included; `None` if there is none.
    ensures { IfOk result (λ t. t ≡ definition_at (nodes_of file.now) offset references.now) }
{
    first_at(file, near(file, references, offset), offset)
}
