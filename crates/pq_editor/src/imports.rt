//! The imports of a text, with the places of their strings.
ghost use Rattle.std.specs.Prelude.{◌≡◌, ◌++◌, cond, map, Some, None, IfOk, OnOk, option_copied, option_map, option_to_list};
ghost use Rattle.std.specs.Str.{is_utf8};
ghost use Rattle.pq_editor.specs.Imports.{nodes_of, if_utf8, strings_of, strings_in, placed, imports_of as imports_of_text, imported_names as names_imported};

use crate::Memory;
use pq_lex::{LineIndex, Position};
use pq_names::Text;
use pq_syntax::{File, Node, Parsed, Statement, Strings, parse, read_loosely};
use std::alloc::Global;

/// An import of a text.
#[derive(Debug, Drop, PartialEq, Eq)]
pub struct Import {
    /// The name of the file that is imported.
    pub name: Text,
    /// The start of the import's first string.
    pub start: Position,
    /// The end of its last string.
    pub end: Position,
}

/// The statements of `text`: those of its tree or, if it has an error, those that its braces show.
fn nodes_of(alloc: Global, text: &str) -> Result<File, Memory>
    ensures { IfOk result (λ file. file ≡ nodes_of text.now) }
{
    match parse(alloc, text)? {
        Parsed::Tree(file) => Ok(file),
        Parsed::Fault { .. } => read_loosely(alloc, text),
    }
}

/// The text of `bytes`, if they are UTF-8.
fn as_text(bytes: &[u8]) -> Option<&str>
    ensures { option_copied result ≡ cond (is_utf8 bytes.now) (Some bytes.now) None }
{
    match str::from_utf8(bytes) {
        Ok(text) => Some(text),
        Err(_) => None,
    }
}

/// Adds the import of the strings `file` in a text with these `lines`, if its name is UTF-8.
fn add_placed(
    imports: &mut Vec<Import>,
    alloc: Global,
    lines: &LineIndex,
    file: &Strings,
) -> Result<(), Memory>
    ensures { OnOk result (imports.new.items ≡ imports.old.items ++ option_to_list (option_map (placed lines.now) (if_utf8 file.now))) }
{
    if let Some(name) = as_text(file.value.as_slice()) {
        imports.push(Import {
            name: Text::new(alloc, name)?,
            start: lines.position(file.span.start),
            end: lines.position(file.span.end),
        })?;
    }
    Ok(())
}

/// Adds the import that `statement` is, if it is one, in a text with these `lines`.
fn add_import(
    imports: &mut Vec<Import>,
    alloc: Global,
    lines: &LineIndex,
    statement: &Statement,
) -> Result<(), Memory>
    ensures { OnOk result (imports.new.items ≡ imports.old.items ++ option_to_list (option_map (placed lines.now) (strings_of statement.now))) }
{
    match statement {
        Statement::Import { file, .. } => add_placed(imports, alloc, lines, file),
        _ => Ok(()),
    }
}

/// Adds the name that the strings `file` are, if it is UTF-8.
fn add_text(names: &mut Vec<Text>, alloc: Global, file: &Strings) -> Result<(), Memory>
    ensures { OnOk result (names.new.items ≡ names.old.items ++ option_to_list (option_map (λ s. s.value) (if_utf8 file.now))) }
{
    if let Some(name) = as_text(file.value.as_slice()) {
        names.push(Text::new(alloc, name)?)?;
    }
    Ok(())
}

/// Adds the name of the import that `statement` is, if it is one.
fn add_name(names: &mut Vec<Text>, alloc: Global, statement: &Statement) -> Result<(), Memory>
    ensures { OnOk result (names.new.items ≡ names.old.items ++ option_to_list (option_map (λ s. s.value) (strings_of statement.now))) }
{
    match statement {
        Statement::Import { file, .. } => add_text(names, alloc, file),
        _ => Ok(()),
    }
}

/// The imports among the statements `nodes` of a text with these `lines`, in text order.
fn imports_in(alloc: Global, lines: &LineIndex, nodes: &[Node]) -> Result<Vec<Import>, Memory>
    ensures { IfOk result (λ imports. imports.items ≡ map (placed lines.now) (strings_in nodes.now)) }
{
    let mut imports = Vec::new(alloc);
    'nodes: for node in nodes {
        add_import(&mut imports, alloc, lines, &node.statement)?;
    }
    Ok(imports)
}

/// The names of the imports among the statements `nodes`, in text order.
fn names_in(alloc: Global, nodes: &[Node]) -> Result<Vec<Text>, Memory>
    ensures { IfOk result (λ names. names.items ≡ map (λ file. file.value) (strings_in nodes.now)) }
{
    let mut names = Vec::new(alloc);
    'nodes: for node in nodes {
        add_name(&mut names, alloc, &node.statement)?;
    }
    Ok(names)
}

/// The imports of `text` in text order, each as often as it is written: those of its tree or, if it
/// has an error, those that its braces show (proto3 language specification, "Import Statement"). An
/// import whose name is not UTF-8 is left out. Positions are lines and UTF-16 columns, each from 0
/// (LSP 3.17, "Position").
///
/// It takes time and memory linear in the text. Only `Memory` is an error, after an allocation
/// failure.
pub fn imports_of(alloc: Global, text: &str) -> Result<Vec<Import>, Memory>
    // The imports of the text, in text order, with the positions of their strings.
    ensures { IfOk result (λ imports. imports.items ≡ imports_of_text text.now) }
{
    let file = nodes_of(alloc, text)?;
    let lines = LineIndex::new(alloc, text)?;
    imports_in(alloc, &lines, file.as_slice())
}

/// The names of the imports of `text`, in the order of [`imports_of`], without positions.
///
/// It takes time and memory linear in the text. Only `Memory` is an error, after an allocation
/// failure.
pub fn imported_names(alloc: Global, text: &str) -> Result<Vec<Text>, Memory>
    // The names of the text's imports, in text order, each as often as it is written.
    ensures { IfOk result (λ names. names.items ≡ names_imported text.now) }
{
    let file = nodes_of(alloc, text)?;
    names_in(alloc, file.as_slice())
}
