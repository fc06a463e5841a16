//! The errors of definitions: full names that are defined twice, in the file or in others that it
//! sees.
//!
//! The names of a file's definitions are sorted already, and a walk over them finds those that are
//! repeated. A definition at file level is looked up in the other files whose package its name can be
//! in. They are found once for all definitions of a file. A file that sees no other file needs no
//! look-up.
ghost use Rattle.std.specs.Prelude.{◌≡◌, ◌++◌, flat_map, IfOk, [], Some};
ghost use Rattle.std.specs.List.{list_any};
ghost use Rattle.pq_links.specs.declared.places.Part.TheVariants.{Name};
ghost use Rattle.pq_checks.specs.Earlier.{of_each_after};
ghost use Rattle.pq_checks.specs.Faults.{twice_faults, deepest, is_at_top, other_faults, elsewhere_faults};
ghost use Rattle.pq_schema.specs.Others.{other_files};
ghost use Rattle.pq_schema.specs.Repeated.{AreRepeated};
ghost use Rattle.pq_checks.specs.aux.Views.{is_other, twice_line};

use crate::Memory;
use crate::errors::code::Code;
use crate::errors::fault::Fault;
use crate::errors::said::{At, around_name, push};
use pq_links::Part;
use pq_names::Text;
use pq_schema::{Definition, DefinitionKind, Defs, OtherFiles, Scope};
use pq_syntax::Node;
use std::alloc::Global;

/// The place of the name of the definition `definition`.
fn name_of(definition: &Definition) -> At
    ensures { result ≡ record { item = definition.now.item; part = Name } }
{
    At {
        item: definition.item,
        part: Part::Name,
    }
}

/// Adds the error of the definition `definition` if its full name is `repeated`.
fn push_twice(
    alloc: Global,
    faults: &mut Vec<Fault>,
    definition: &Definition,
    repeated: bool,
) -> Result<(), Memory>
    ensures said { IfOk result (λ _. faults.new.items ≡ faults.old.items ++ twice_line repeated definition.now) }
{
    if repeated {
        let text = around_name(alloc, &definition.full_name, " is already defined", "")?;
        return push(faults, name_of(definition), Code::DefinedTwice, text);
    }
    Ok(())
}

/// Adds an error for each of `definitions` that `repeated` tells of.
fn push_repeated(
    alloc: Global,
    faults: &mut Vec<Fault>,
    definitions: &[Definition],
    repeated: &[bool],
) -> Result<(), Memory>
    requires { AreRepeated repeated.now definitions.now }
    ensures said { IfOk result (λ _. faults.new.items
        ≡ faults.old.items ++ of_each_after twice_faults [] definitions.now) }
{
    'each: for i in 0..definitions.len() {
        push_twice(alloc, faults, &definitions[i], repeated[i])?;
    }
    Ok(())
}

/// Adds an error for each of the definitions of `defs` whose full name one before it has.
pub(crate) fn push_twice_faults(
    alloc: Global,
    faults: &mut Vec<Fault>,
    defs: &Defs,
) -> Result<(), Memory>
    ensures said { IfOk result (λ _. faults.new.items
        ≡ faults.old.items ++ of_each_after twice_faults [] defs.now.definitions) }
{
    let repeated = defs.repeated(alloc)?;
    push_repeated(alloc, faults, defs.definitions(), &repeated)
}

/// The depth of a statement at file level that defines something of the kind `kind`, `None` where
/// such a definition is never at file level.
fn deepest(kind: DefinitionKind) -> Option<u8>
    ensures depth { result ≡ deepest kind }
{
    match kind {
        DefinitionKind::Message | DefinitionKind::Enum | DefinitionKind::Service => Some(0),
        DefinitionKind::Value => Some(1),
        DefinitionKind::Field
        | DefinitionKind::Oneof
        | DefinitionKind::Method
        | DefinitionKind::Entry => None,
    }
}

/// Whether the definition `definition` of a file with the statements `nodes` is at file level.
fn is_at_top(nodes: &[Node], definition: &Definition) -> bool
    ensures top { result ≡ is_at_top nodes.now definition.now }
{
    match deepest(definition.kind) {
        Some(depth) => match nodes.get(definition.item) {
            Some(node) => node.depth == depth,
            None => false,
        },
        None => false,
    }
}

/// Adds the error of the definition `definition`, which the file `other` has too.
fn push_other(
    alloc: Global,
    faults: &mut Vec<Fault>,
    definition: &Definition,
    other: &Text,
) -> Result<(), Memory>
    ensures said { IfOk result (λ _. faults.new.items
        ≡ faults.old.items ++ other_faults (Some other.now) definition.now) }
{
    let text = around_name(
        alloc,
        &definition.full_name,
        " is already defined in ",
        other.as_str(),
    )?;
    push(faults, name_of(definition), Code::DefinedElsewhere, text)
}

/// Adds the error of the definition `definition` if it is at file level and one of the other files
/// `others` has its full name.
fn push_elsewhere(
    alloc: Global,
    faults: &mut Vec<Fault>,
    others: &OtherFiles<'_>,
    nodes: &[Node],
    definition: &Definition,
) -> Result<(), Memory>
    ensures said { IfOk result (λ _. faults.new.items
        ≡ faults.old.items ++ elsewhere_faults others.now nodes.now definition.now) }
{
    if !is_at_top(nodes, definition) {
        return Ok(());
    }
    match others.first_other(alloc, &definition.full_name)? {
        Some(other) => push_other(alloc, faults, definition, other),
        None => Ok(()),
    }
}

/// Adds an error for each of `definitions` at file level whose full name one of the other files
/// `others` has.
fn push_each_elsewhere(
    alloc: Global,
    faults: &mut Vec<Fault>,
    others: &OtherFiles<'_>,
    nodes: &[Node],
    definitions: &[Definition],
) -> Result<(), Memory>
    ensures said { IfOk result (λ _. faults.new.items ≡ faults.old.items
        ++ flat_map (elsewhere_faults others.now nodes.now) definitions.now) }
{
    'definitions: for definition in definitions {
        push_elsewhere(alloc, faults, others, nodes, definition)?;
    }
    Ok(())
}

/// The number of `definitions` that are at file level.
fn count_at_top(nodes: &[Node], definitions: &[Definition]) -> usize {
    let mut count = 0usize;
    'definitions: for definition in definitions {
        if is_at_top(nodes, definition) {
            count = count.saturating_add(1);
        }
    }
    count
}

/// Whether the file `file` sees another file by its scope `scope`.
fn sees_another(file: &str, scope: &Scope) -> bool
    ensures sees { result ≡ list_any (is_other file.now) scope.now.visible }
{
    'files: for visible in scope.visible() {
        if visible.file.get().as_str() != file {
            return true;
        }
    }
    false
}

/// Adds an error for each definition of `defs` at file level whose full name another file has that
/// the file `file` with the statements `nodes` sees by its scope `scope`.
pub(crate) fn push_elsewhere_faults(
    alloc: Global,
    faults: &mut Vec<Fault>,
    file: &str,
    scope: &Scope,
    nodes: &[Node],
    defs: &Defs,
) -> Result<(), Memory>
    ensures said { IfOk result (λ _. faults.new.items ≡ faults.old.items
        ++ flat_map (elsewhere_faults (other_files file.now scope.now) nodes.now) defs.now.definitions) }
{
    if !sees_another(file, scope) {
        return Ok(());
    }
    let lookups = count_at_top(nodes, defs.definitions());
    let others = scope.others(alloc, file, defs, lookups)?;
    push_each_elsewhere(alloc, faults, &others, nodes, defs.definitions())
}
