//! The errors of type references: names that resolve to no type, or to one that does not fit.
ghost use Rattle.std.specs.Prelude.{◌≡◌, ◌++◌, flat_map, IfOk, slice_get};
ghost use Rattle.std.specs.Option.{option_copied};
ghost use Rattle.pq_checks.specs.Faults.{is_method, named_type, resolution_faults, reference_faults};

use crate::Memory;
use crate::errors::code::Code;
use crate::errors::fault::Fault;
use crate::errors::said::{At, around_file, push, say_name};
use crate::errors::tell::{both, tell_name};
use pq_links::{Part, TypePart};
use pq_schema::{Resolution, ResolvedReference};
use pq_syntax::{Name, Node, Statement};
use std::alloc::Global;

/// Whether a type reference of the part `part` is one of a method.
fn is_method(part: TypePart) -> bool
    ensures method { result ≡ is_method part }
{
    match part {
        TypePart::Type => false,
        TypePart::Input | TypePart::Output => true,
    }
}

/// The name of the type that the part `part` of the statement `statement` is.
fn named_type(part: TypePart, statement: &Statement) -> Option<&Name>
    ensures name { option_copied result ≡ named_type part statement.now }
{
    match (part, statement) {
        (TypePart::Type, Statement::Field { type_name, .. }) => Some(type_name),
        (TypePart::Type, Statement::MapField { value, .. }) => Some(value),
        (TypePart::Input, Statement::Method { input, .. }) => Some(&input.type_name),
        (TypePart::Output, Statement::Method { output, .. }) => Some(&output.type_name),
        _ => None,
    }
}

/// Adds the errors of the type reference with the name `text`, the type `part` of the item `item`,
/// which resolves to `resolution`.
fn push_resolution(
    alloc: Global,
    faults: &mut Vec<Fault>,
    item: usize,
    part: TypePart,
    text: &str,
    resolution: &Resolution,
) -> Result<(), Memory>
    ensures said { IfOk result (λ _. faults.new.items
        ≡ faults.old.items ++ resolution_faults item part text.now resolution.now) }
{
    let place = At {
        item,
        part: Part::Type(part),
    };
    match resolution {
        Resolution::NotFound => {
            let code = Code::TypeNotFound;
            say_name(alloc, faults, place, code, "type ", text, " is not found")
        }
        Resolution::NotVisible(file) => {
            let file = file.as_str();
            let text = around_file(
                alloc,
                "type ",
                text,
                " is in ",
                file,
                ", which is not imported",
            )?;
            push(faults, place, Code::TypeNotImported, text)
        }
        Resolution::NotAType => {
            let code = Code::NotAType;
            say_name(alloc, faults, place, code, "", text, " is not a type")
        }
        Resolution::Type(target) => {
            let wrong = both(is_method(part), target.is_enum);
            let code = Code::NotAMessage;
            tell_name(
                alloc,
                faults,
                wrong,
                place,
                code,
                "",
                text,
                " is not a message",
            )
        }
    }
}

/// The statement of the number `item`.
fn statement_at(nodes: &[Node], item: usize) -> Option<&Node>
    ensures statement { option_copied result ≡ slice_get nodes.now item }
{
    nodes.get(item)
}

/// Adds the errors of the type reference `reference` of the statements `nodes`.
fn push_reference(
    alloc: Global,
    faults: &mut Vec<Fault>,
    nodes: &[Node],
    reference: &ResolvedReference,
) -> Result<(), Memory>
    ensures said { IfOk result (λ _. faults.new.items
        ≡ faults.old.items ++ reference_faults nodes.now reference.now) }
{
    match statement_at(nodes, reference.item) {
        Some(node) => match named_type(reference.part, &node.statement) {
            Some(name) => push_resolution(
                alloc,
                faults,
                reference.item,
                reference.part,
                name.text.as_str(),
                &reference.resolution,
            ),
            None => Ok(()),
        },
        None => Ok(()),
    }
}

/// Adds the errors of the type references `references` of the statements `nodes`.
pub(crate) fn push_reference_faults(
    alloc: Global,
    faults: &mut Vec<Fault>,
    nodes: &[Node],
    references: &[ResolvedReference],
) -> Result<(), Memory>
    ensures said { IfOk result (λ _. faults.new.items
        ≡ faults.old.items ++ flat_map (reference_faults nodes.now) references.now) }
{
    'references: for reference in references {
        push_reference(alloc, faults, nodes, reference)?;
    }
    Ok(())
}
