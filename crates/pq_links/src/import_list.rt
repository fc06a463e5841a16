//! The imports of a file, read off its tree: each pair of name and publicity once.
//!
//! A text can import the same file tens of thousands of times. With each pair once, the links of
//! its file are joined once. The list takes N log N time for N import statements.
ghost use Rattle.std.specs.Prelude.{◌≡◌, Option, Some, None, cond, IfOk, OnOk, option_copied, option_to_list};
ghost use Rattle.std.specs.Ordering.{eq_by_cmp};
ghost use Rattle.std.specs.Str.{is_utf8};
ghost use Rattle.pq_links.specs.Files.{file_imports, imports_of, import_by, import_of, is_public};
ghost use Rattle.pq_links.specs.aux.Adding.{add_first, add_firsts};
ghost use Rattle.pq_links.specs.contracts.links.ImportOrd.TheImpl as import_order;

use crate::Memory;
use crate::file_items::FileItems;
use crate::firsts::Firsts;
use crate::links::Import;
use pq_rules::{Shared, Text};
use pq_syntax::{ImportKind, Items, Node, Statement};
use std::alloc::Global;

/// The text of `bytes`, if they are UTF-8.
fn as_text(bytes: &[u8]) -> Option<&str>
    ensures text { option_copied result ≡ cond (is_utf8 bytes.now) (Some bytes.now) None }
{
    match str::from_utf8(bytes) {
        Ok(text) => Some(text),
        Err(_) => None,
    }
}

/// Whether an import of this kind is public.
fn is_public(kind: ImportKind) -> bool
    ensures public { result ≡ is_public kind }
{
    match kind {
        ImportKind::Public => true,
        ImportKind::Plain => false,
        ImportKind::Weak => false,
    }
}

/// The import of the file named `file`, if the name is UTF-8.
fn import_named(alloc: Global, kind: ImportKind, file: &[u8]) -> Result<Option<Import>, Memory>
    ensures import { IfOk result (λ i. i ≡ import_by kind file.now) }
{
    match as_text(file) {
        Some(name) => Ok(Some(Import {
            file: Text::new(alloc, name)?,
            is_public: is_public(kind),
        })),
        None => Ok(None),
    }
}

/// The import that `statement` is, if any.
fn import_in(alloc: Global, statement: &Statement) -> Result<Option<Import>, Memory>
    ensures import { IfOk result (λ i. i ≡ import_of statement.now) }
{
    match statement {
        Statement::Import { kind, file } => import_named(alloc, *kind, file.value.as_slice()),
        _ => Ok(None),
    }
}

/// Adds the import that `statement` is, if any, and if it is not there yet.
fn add_import(
    imports: &mut Firsts<Import>,
    alloc: Global,
    statement: &Statement,
) -> Result<(), Memory>
    ensures added { OnOk result (imports.new ≡ add_firsts (eq_by_cmp import_order.ghosts.cmp) imports.old (option_to_list (import_of statement.now))) }
{
    if let Some(import) = import_in(alloc, statement)? {
        let key = import.copy()?;
        imports.add(import, key)?;
    }
    Ok(())
}

/// The imports among the statements `nodes`, each pair of name and publicity once.
fn imports_in(alloc: Global, nodes: &[Node]) -> Result<Items<Import>, Memory>
    ensures imports { IfOk result (λ is. is ≡ imports_of nodes.now) }
{
    let mut imports = Firsts::new(alloc);
    'each_node: for node in nodes {
        add_import(&mut imports, alloc, &node.statement)?;
    }
    Ok(Items::new(imports.into_vec()))
}

/// The imports of a file that is `items` without spans, `None` where it is absent.
pub(crate) fn imports_of_file(
    alloc: Global,
    items: &FileItems,
) -> Result<Option<Shared<Items<Import>>>, Memory>
    ensures imports { IfOk result (λ is. is ≡ file_imports items.now) }
{
    let imports = match items {
        FileItems::Tree(file) | FileItems::Fault(file) | FileItems::Other(file) => {
            imports_in(alloc, file.as_slice())?
        }
        FileItems::Absent => return Ok(None),
    };
    Ok(Some(Shared::new(alloc, imports)?))
}
