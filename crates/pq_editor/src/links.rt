//! Imports as links.
ghost use Rattle.std.specs.Prelude.{◌≡◌, ◌∷◌, [], ◌++◌, IfOk, OnOk, map, option_map, string_bytes};
ghost use Rattle.std.specs.List.{find};
ghost use Rattle.serde_json.specs.View.{view};
ghost use Rattle.pq_editor.specs.Json.{list_data};
ghost use Rattle.pq_editor.specs.Links.{is_until as is_until_position, holds as holds_position, link_data, start_data, links_text as text_of_links, start_text};

use crate::Memory;
use crate::imports::Import;
use crate::places::range_value;
use pq_lex::Position;
use serde_json::{Value, json};
use std::alloc::Global;

/// A link of a document (LSP 3.17, "DocumentLink").
#[derive(Debug, Drop)]
pub struct Link {
    /// The start of the text that is linked.
    pub start: Position,
    /// Its end.
    pub end: Position,
    /// The URI of the document that the link leads to.
    pub uri: String,
}

/// Whether `position` is `other` or before it.
fn is_until(position: Position, other: Position) -> bool
    ensures { result ≡ is_until_position position other }
{
    position.line < other.line
        || (position.line == other.line && position.character <= other.character)
}

/// Whether `position` is within the strings of `import`, or at their end.
fn holds(position: Position, import: &Import) -> bool
    ensures { result ≡ holds_position position import.now }
{
    is_until(import.start, position) && is_until(position, import.end)
}

/// The first of `imports` whose strings are at the position `line`, `character`, both from 0 and in
/// UTF-16 columns (LSP 3.17, "Position"). An editor can put the caret after the last quote, so the end
/// of the strings counts too. It is `None` if no strings are there. It takes one step for each import.
pub fn import_at(imports: &[Import], line: usize, character: usize) -> Option<&Import>
    // The first of the imports whose strings hold the position, both ends included.
    ensures { option_map (λ i. i.now) result ≡ find (holds_position (record { line = line; character = character })) imports.now }
{
    let position = Position { line, character };
    'imports: for import in imports {
        if holds(position, import) {
            return Some(import);
        }
    }
    None
}

/// The value of `link`.
fn link_value(alloc: Global, link: &Link) -> Result<Value, Memory>
    ensures { IfOk result (λ v. view v ≡ link_data link.now) }
{
    let range = range_value(alloc, link.start, link.end)?;
    let target = link.uri.as_str();
    json!(in alloc; {"range": range, "target": target})
}

/// The values of `links`.
fn link_values(alloc: Global, links: &[Link]) -> Result<Vec<Value>, Memory>
    ensures { IfOk result (λ values. map view values.items ≡ map link_data links.now) }
{
    let mut values = Vec::new(alloc);
    'links: for link in links {
        values.push(link_value(alloc, link)?)?;
    }
    Ok(values)
}

/// The array of `links`.
fn links_value(alloc: Global, links: &[Link]) -> Result<Value, Memory>
    ensures { IfOk result (λ v. view v ≡ list_data (map link_data links.now)) }
{
    let values = link_values(alloc, links)?;
    Ok(Value::Array(values))
}

/// The result of `textDocument/documentLink` (LSP 3.17, "Document Link Request"): the JSON array of
/// `links`, in their order.
///
/// It takes time and memory linear in the text. Only `Memory` is an error, after an allocation
/// failure.
#[tactic(auto, using(crate::proofs::NoFloats::links_have_no_float))]
pub fn links_text(alloc: Global, links: &[Link]) -> Result<String, Memory>
    // The text of the array of the links.
    ensures { IfOk result (λ s. string_bytes s ≡ text_of_links links.now) }
{
    links_value(alloc, links)?.to_string(alloc)
}

/// The location of the first position of the file of `uri`.
fn start_value(alloc: Global, uri: &str) -> Result<Value, Memory>
    ensures { IfOk result (λ v. view v ≡ start_data uri.now) }
{
    let start = Position {
        line: 0,
        character: 0,
    };
    let range = range_value(alloc, start, start)?;
    json!(in alloc; {"range": range, "uri": uri})
}

/// The result of `textDocument/definition` at the string of an import (LSP 3.17, "Goto Definition
/// Request", "Location"): the first position of the file of `uri`.
///
/// Only `Memory` is an error, after an allocation failure.
pub fn start_of_file_text(alloc: Global, uri: &str) -> Result<String, Memory>
    // The text of the location from 0:0 to 0:0 in the file of the URI.
    ensures { IfOk result (λ s. string_bytes s ≡ start_text uri.now) }
{
    start_value(alloc, uri)?.to_string(alloc)
}
