//! How an error is added if it holds, with a number or a name in its message.
ghost use Rattle.std.specs.Prelude.{◌≡◌, ◌++◌, ◌&&◌, IfOk};
ghost use Rattle.std.specs.Fmt.{signed_decimal};
ghost use Rattle.pq_checks.specs.Faults.{at, number_text, quoted, when};

use crate::Memory;
use crate::errors::code::Code;
use crate::errors::fault::Fault;
use crate::errors::said::{At, push, say_name, tell};
use pq_names::Text;
use std::alloc::Global;

/// Whether both hold.
pub(crate) fn both(one: bool, other: bool) -> bool
    ensures { result ≡ (one && other) }
{
    one && other
}

/// Adds the error of the code `code` with the message `text` at `place`, if `holds`.
pub(crate) fn tell_if(
    alloc: Global,
    faults: &mut Vec<Fault>,
    holds: bool,
    place: At,
    code: Code,
    text: &str,
) -> Result<(), Memory>
    ensures { IfOk result (λ _. faults.new.items ≡ faults.old.items ++ when holds (at place.item place.part code text.now)) }
{
    if holds {
        return tell(alloc, faults, place, code, text);
    }
    Ok(())
}

/// The message `before`, `number` and `after`; without a number it is `before` and `after`.
fn of_number(alloc: Global, before: &str, number: Option<i64>, after: &str) -> Result<Text, Memory>
    ensures { IfOk result (λ t. t ≡ before.now ++ number_text number ++ after.now) }
{
    let text = match number {
        Some(number) => format!(in alloc; "{before}{number}{after}")?,
        None => format!(in alloc; "{before}{after}")?,
    };
    Text::from_string(alloc, text)
}

/// Adds the error of the code `code` at `place`, if `holds`. Its message has `number` in it.
pub(crate) fn tell_number(
    alloc: Global,
    faults: &mut Vec<Fault>,
    holds: bool,
    place: At,
    code: Code,
    before: &str,
    number: Option<i64>,
    after: &str,
) -> Result<(), Memory>
    ensures { IfOk result (λ _. faults.new.items ≡ faults.old.items ++ when holds (at place.item place.part code (before.now ++ number_text number ++ after.now))) }
{
    if holds {
        let text = of_number(alloc, before, number, after)?;
        return push(faults, place, code, text);
    }
    Ok(())
}

/// Adds the error of the code `code` at `place`, if `holds`. Its message has `name` in it.
pub(crate) fn tell_name(
    alloc: Global,
    faults: &mut Vec<Fault>,
    holds: bool,
    place: At,
    code: Code,
    before: &str,
    name: &str,
    after: &str,
) -> Result<(), Memory>
    ensures { IfOk result (λ _. faults.new.items ≡ faults.old.items ++ when holds (at place.item place.part code (before.now ++ quoted name.now ++ after.now))) }
{
    if holds {
        return say_name(alloc, faults, place, code, before, name, after);
    }
    Ok(())
}
