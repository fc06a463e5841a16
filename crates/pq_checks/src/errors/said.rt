//! How an error is said: the pieces of its message joined, and the error put after the others.
ghost use Rattle.std.specs.Prelude.{◌≡◌, [], ◌∷◌, ◌++◌, IfOk, string_bytes};
ghost use Rattle.pq_checks.specs.Faults.{at, quoted};

use crate::Memory;
use crate::errors::code::Code;
use crate::errors::fault::Fault;
use pq_links::Part;
use pq_names::Text;
use pq_schema::FullName;
use std::alloc::Global;

/// A place: a part of an item.
#[derive(Clone, Copy)]
pub(crate) struct At {
    /// The number of the item.
    pub(crate) item: usize,
    /// Its part.
    pub(crate) part: Part,
}

/// Adds the error of the code `code` at `place` with the message `text`.
pub(crate) fn push(faults: &mut Vec<Fault>, place: At, code: Code, text: Text) -> Result<(), Memory>
    ensures said { IfOk result (λ _. faults.new.items ≡ faults.old.items ++ at place.item place.part code text ∷ []) }
{
    faults.push(Fault {
        item: place.item,
        part: place.part,
        code,
        text,
    })?;
    Ok(())
}

/// Adds the error of the code `code` at `place` with the message `text`.
pub(crate) fn tell(
    alloc: Global,
    faults: &mut Vec<Fault>,
    place: At,
    code: Code,
    text: &str,
) -> Result<(), Memory>
    ensures said { IfOk result (λ _. faults.new.items ≡ faults.old.items ++ at place.item place.part code text.now ∷ []) }
{
    let text = Text::new(alloc, text)?;
    push(faults, place, code, text)
}

/// The text `before`, then `name` between quotation marks, then `after`.
fn quoting(alloc: Global, before: &str, name: &str, after: &str) -> Result<String, Memory>
    ensures text { IfOk result
        (λ t. string_bytes t ≡ before.now ++ quoted name.now ++ after.now) }
{
    let inner = name.len().saturating_add(2);
    let outer = before.len().saturating_add(after.len());
    let mut text = String::with_capacity(alloc, inner.saturating_add(outer))?;
    text.push_str(before)?;
    text.push('"')?;
    text.push_str(name)?;
    text.push('"')?;
    text.push_str(after)?;
    Ok(text)
}

/// The text `before`, then `name` between quotation marks, then `after`.
fn around(alloc: Global, before: &str, name: &str, after: &str) -> Result<Text, Memory>
    ensures text { IfOk result (λ t. t ≡ before.now ++ quoted name.now ++ after.now) }
{
    let text = quoting(alloc, before, name, after)?;
    Text::from_string(alloc, text)
}

/// Adds the error of the code `code` at `place`, whose message is `before`, then `name` between
/// quotation marks, then `after`.
pub(crate) fn say_name(
    alloc: Global,
    faults: &mut Vec<Fault>,
    place: At,
    code: Code,
    before: &str,
    name: &str,
    after: &str,
) -> Result<(), Memory>
    ensures said { IfOk result (λ _. faults.new.items ≡ faults.old.items ++ at place.item place.part code (before.now ++ quoted name.now ++ after.now) ∷ []) }
{
    let text = around(alloc, before, name, after)?;
    push(faults, place, code, text)
}

/// The text `before`, then `name` between quotation marks, then `after`, `file` and `last`.
pub(crate) fn around_file(
    alloc: Global,
    before: &str,
    name: &str,
    after: &str,
    file: &str,
    last: &str,
) -> Result<Text, Memory>
    ensures text { IfOk result
        (λ t. t ≡ before.now ++ quoted name.now ++ after.now ++ file.now ++ last.now) }
{
    let mut text = quoting(alloc, before, name, after)?;
    text.push_str(file)?;
    text.push_str(last)?;
    Text::from_string(alloc, text)
}

/// `full_name` between quotation marks, then `after` and `file`.
pub(crate) fn around_name(
    alloc: Global,
    full_name: &FullName,
    after: &str,
    file: &str,
) -> Result<Text, Memory>
    ensures text { IfOk result (λ t. t ≡ quoted full_name.now ++ after.now ++ file.now) }
{
    let mut text = String::new(alloc);
    text.push('"')?;
    full_name.push_to(&mut text)?;
    text.push('"')?;
    text.push_str(after)?;
    text.push_str(file)?;
    Text::from_string(alloc, text)
}
