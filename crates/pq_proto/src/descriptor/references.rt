//! The resolved references of a file, with a look-up in constant time.
//!
//! For each item and each part a table has the index of its first reference. A descriptor tells the
//! fields of a message before those of the messages in it, so it does not follow the list.
ghost use Rattle.std.specs.Prelude.{◌≡◌, ℕ, ◌<◌, ◌≤◌, ◌&&◌, cond, get_or, length, nat_eq, slice_get, IfOk};
ghost use Rattle.std.specs.Option.{option_copied, option_map_or};
ghost use Rattle.pq_proto.specs.Types.{is_part, no_type, referred, type_to};
ghost use Rattle.pq_proto.specs.aux.Firsts.{IsFirsts, first_at};

use crate::Memory;
use pq_links::TypePart;
use pq_schema::ResolvedReference;
use std::alloc::Global;
use std::marker::Model;

/// The resolved references of a file. Contracts see the list of them.
#[derive(Drop)]
pub(crate) struct References<'a> {
    references: &'a [ResolvedReference],
    /// For each item the index of the first reference that is its type.
    types: Vec<usize>,
    /// For each item the index of the first reference that is its input type.
    inputs: Vec<usize>,
    /// For each item the index of the first reference that is its output type.
    outputs: Vec<usize>,
}

impl<'a> Model for References<'a> {
    ghost use Rattle.std.specs.Prelude.{List};
    ghost use Rattle.pq_schema.specs.declared.queries.resolved.ResolvedReference.{ResolvedReference as Resolved};
    ghost use Rattle.pq_links.specs.declared.places.TypePart.TheVariants as parts;
    ghost use Rattle.pq_proto.specs.aux.Firsts.{IsFirsts};

    ghost Value = { List Resolved };

    ghost view = { λ r. r.references.now };

    ghost invariant = { λ r. IsFirsts r.references.now parts.Type r.types.items
        × IsFirsts r.references.now parts.Input r.inputs.items
        × IsFirsts r.references.now parts.Output r.outputs.items };
}

/// Whether `a` and `b` are the same part of a statement.
fn is_part(a: TypePart, b: TypePart) -> bool
    ensures { result ≡ is_part a b }
{
    match a {
        TypePart::Type => matches!(b, TypePart::Type),
        TypePart::Input => matches!(b, TypePart::Input),
        TypePart::Output => matches!(b, TypePart::Output),
    }
}

/// Whether `reference` is the part `part` of the item `item`.
fn is_reference(reference: &ResolvedReference, item: usize, part: TypePart) -> bool
    ensures { result ≡ (nat_eq reference.now.item item && is_part reference.now.part part) }
{
    reference.item == item && is_part(reference.part, part)
}

/// The first of the references `references` that is the part `part` of the item `item`.
fn find<'a>(
    references: &'a [ResolvedReference],
    item: usize,
    part: TypePart,
) -> Option<&'a ResolvedReference>
    ensures { referred references.now item part
        ≡ option_map_or (λ r. type_to r.resolution) (option_copied result) no_type }
{
    'references: for reference in references {
        if is_reference(reference, item, part) {
            return Some(reference);
        }
    }
    None
}

/// Puts `index` at the item of `reference`, if that is of the part `part` and has a place.
fn put_first(firsts: &mut Vec<usize>, reference: &ResolvedReference, part: TypePart, index: usize)
    ensures len { length firsts.new.items ≡ length firsts.old.items }
    ensures put { (n : ℕ) → n < length firsts.old.items → get_or firsts.new.items n 0
        ≡ cond (nat_eq reference.now.item n && is_part reference.now.part part) index (get_or firsts.old.items n 0) }
{
    let item = reference.item;
    if item >= firsts.len() {
        return;
    }
    if !is_part(reference.part, part) {
        return;
    }
    firsts[item] = index;
}

/// For each of the first `count` items the index of the first of `references` that is its part
/// `part`, or the number of references.
fn firsts_of(
    alloc: Global,
    references: &[ResolvedReference],
    part: TypePart,
    count: usize,
) -> Result<Vec<usize>, Memory>
    ensures firsts { IfOk result (λ v. IsFirsts references.now part v.items) }
    ensures len { IfOk result (λ v. length v.items ≡ count) }
{
    let mut firsts = vec![in alloc; references.len(); count]?;
    let mut index = references.len();
    'references: while index > 0 {
        index -= 1;
        put_first(&mut firsts, &references[index], part, index);
    }
    Ok(firsts)
}

/// The reference at `index`, if there is one.
fn at<'a>(references: &'a [ResolvedReference], index: usize) -> Option<&'a ResolvedReference>
    ensures { option_copied result ≡ slice_get references.now index }
{
    references.get(index)
}

impl<'a> References<'a> {
    /// The references `references` of a file with `count` statements. It takes time linear in both.
    pub(crate) fn new(
        alloc: Global,
        references: &'a [ResolvedReference],
        count: usize,
    ) -> Result<References<'a>, Memory>
        ensures { IfOk result (λ r. r ≡ references.now) }
    {
        let types = firsts_of(alloc, references, TypePart::Type, count)?;
        let inputs = firsts_of(alloc, references, TypePart::Input, count)?;
        let outputs = firsts_of(alloc, references, TypePart::Output, count)?;
        Ok(References {
            references,
            types,
            inputs,
            outputs,
        })
    }

    /// For each item the index of the first reference that is its part `part`.
    fn firsts(&self, part: TypePart) -> &[usize]
        ensures { IsFirsts self.now part result.now }
    {
        match part {
            TypePart::Type => self.types.as_slice(),
            TypePart::Input => self.inputs.as_slice(),
            TypePart::Output => self.outputs.as_slice(),
        }
    }

    /// The first reference that is the part `part` of the item `item`.
    pub(crate) fn first(&self, item: usize, part: TypePart) -> Option<&ResolvedReference>
        ensures { referred self.now item part
            ≡ option_map_or (λ r. type_to r.resolution) (option_copied result) no_type }
    {
        let firsts = self.firsts(part);
        if item >= firsts.len() {
            return find(self.references, item, part);
        }
        at(self.references, firsts[item])
    }
}
