//! The parameters of requests and notifications.
ghost use Rattle.std.specs.Prelude.{◌≡◌, option_map, string_bytes};
ghost use Rattle.serde_json.specs.View.{view};
ghost use Rattle.pq_session.specs.Session.{text_member, document_text as text_of_document, coordinate, place_named};

use pq_proto::Place;
use serde_json::Value;

/// The largest line and the largest column of a position.
const MAX_COORDINATE: u64 = 2_147_483_647;

/// The string member `name` of `value`.
pub(crate) fn text_member<'a>(value: Option<&'a Value>, name: &str) -> Option<&'a str>
    ensures { option_map (λ text. text.now) result ≡ text_member name.now (option_map (λ d. view d.now) value.entry) }
{
    value?.get(name)?.as_str()
}

/// The string member `name` of `params.textDocument` (LSP 3.17, "TextDocumentIdentifier",
/// "TextDocumentItem").
pub(crate) fn document_text<'a>(params: Option<&'a Value>, name: &str) -> Option<&'a str>
    ensures { option_map (λ text. text.now) result ≡ text_of_document name.now (option_map (λ d. view d.now) params.entry) }
{
    text_member(params?.get("textDocument"), name)
}

/// The string member `name` of `params.textDocument`, moved out of `params`.
pub(crate) fn take_document_text(params: Option<Value>, name: &str) -> Option<String>
    ensures { option_map string_bytes result ≡ text_of_document name.now (option_map view params) }
{
    let mut params = params?;
    let text = params.get_mut("textDocument")?.get_mut(name)?;
    match text.take() {
        Value::String(text) => Some(text),
        _ => None,
    }
}

/// The member `name` of `position`, if it is an integer from 0 to `MAX_COORDINATE`.
pub(crate) fn coordinate(position: &Value, name: &str) -> Option<usize>
    ensures { result ≡ coordinate name.now (view position.now) }
{
    let number = position.get(name)?.as_u64()?;
    if number <= MAX_COORDINATE {
        Some(number as usize)
    } else {
        None
    }
}

/// The place of `params.position`, if it is readable (LSP 3.17, "TextDocumentPositionParams").
pub(crate) fn place_named(params: Option<&Value>) -> Option<Place>
    ensures { result ≡ place_named (option_map (λ d. view d.now) params.entry) }
{
    let position = params?.get("position")?;
    let line = coordinate(position, "line")?;
    let character = coordinate(position, "character")?;
    Some(Place { line, character })
}
