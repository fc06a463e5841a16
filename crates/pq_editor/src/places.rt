//! Positions and ranges as JSON values (LSP 3.17, "Position", "Range").
ghost use Rattle.std.specs.Prelude.{◌≡◌, IfOk};
ghost use Rattle.serde_json.specs.View.{view};
ghost use Rattle.pq_editor.specs.Json.{position_data, range_data};

use crate::Memory;
use pq_lex::Position;
use serde_json::{Value, json};
use std::alloc::Global;

/// The position `position`.
fn position_value(alloc: Global, position: Position) -> Result<Value, Memory>
    ensures { IfOk result (λ v. view v ≡ position_data position) }
{
    json!(in alloc; {"character": position.character, "line": position.line})
}

/// The range from `start` to `end`.
pub(crate) fn range_value(alloc: Global, start: Position, end: Position) -> Result<Value, Memory>
    ensures { IfOk result (λ v. view v ≡ range_data start end) }
{
    let start = position_value(alloc, start)?;
    let end = position_value(alloc, end)?;
    json!(in alloc; {"end": end, "start": start})
}
