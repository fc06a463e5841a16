//! Errors P120 to P123: the numbers of fields.
ghost use Rattle.std.specs.Prelude.{◌≡◌, ◌++◌, ◌&&◌, [], is_some, map, IfOk};
ghost use Rattle.pq_checks.specs.Earlier.{of_each_after};
ghost use Rattle.pq_checks.specs.Faults.{field_faults, field_number_faults, is_for_protobuf};
ghost use Rattle.pq_checks.specs.aux.Seen.{member_seen};

use crate::Memory;
use crate::errors::code::Code;
use crate::errors::fault::Fault;
use crate::errors::said::At;
use crate::errors::tell::{both, tell_if, tell_number};
use crate::lines::cover::is_covered;
use crate::lines::range_lines::reserved_keys;
use crate::tree::members::{Member, Reserved};
use crate::tree::numbers::field_number;
use pq_links::Part;
use std::alloc::Global;
use std::collections::BTreeSet;

/// The first field number that is kept for protobuf itself.
const FIRST_OF_PROTOBUF: i64 = 19_000;

/// The last field number that is kept for protobuf itself.
const LAST_OF_PROTOBUF: i64 = 19_999;

/// Whether `number` is kept for protobuf itself.
fn is_for_protobuf(number: Option<i64>) -> bool
    ensures { result ≡ is_for_protobuf number }
{
    match number {
        Some(number) => number >= FIRST_OF_PROTOBUF && number <= LAST_OF_PROTOBUF,
        None => false,
    }
}

/// Adds the errors of the field `field` of the number `number`: `repeated` is whether an earlier
/// field has the number, and `covered` whether it is reserved, if there is one.
fn push_lines(
    alloc: Global,
    faults: &mut Vec<Fault>,
    field: &Member<'_>,
    number: Option<i64>,
    repeated: bool,
    covered: bool,
) -> Result<(), Memory>
    ensures { IfOk result (λ _. faults.new.items ≡ faults.old.items
        ++ field_faults number (repeated && is_some number) (covered && is_some number) (member_seen field.now)) }
{
    let place = At {
        item: field.item,
        part: Part::Number,
    };
    let is_number = number.is_some();
    let twice = both(repeated, is_number);
    let reserved = both(covered, is_number);
    let text = "field number must be from 1 to 536870911";
    let code = Code::FieldNumberOutOfRange;
    tell_if(alloc, faults, !is_number, place, code, text)?;
    let text = "field numbers 19000 to 19999 are reserved";
    let code = Code::FieldNumberOfProtobuf;
    tell_if(alloc, faults, is_for_protobuf(number), place, code, text)?;
    let before = "field number ";
    let code = Code::FieldNumberTwice;
    tell_number(
        alloc,
        faults,
        twice,
        place,
        code,
        before,
        number,
        " is used twice",
    )?;
    let code = Code::FieldNumberReserved;
    tell_number(
        alloc,
        faults,
        reserved,
        place,
        code,
        before,
        number,
        " is reserved",
    )
}

/// Adds the errors of the numbers of `fields`, where `reserved` lists the reserved ranges.
pub(crate) fn push_field_number_faults(
    alloc: Global,
    faults: &mut Vec<Fault>,
    fields: &[Member<'_>],
    reserved: &[Reserved],
) -> Result<(), Memory>
    ensures { IfOk result (λ _. faults.new.items ≡ faults.old.items ++ of_each_after (field_number_faults reserved.now) [] (map member_seen fields.now)) }
{
    let taken = reserved_keys(alloc, reserved)?;
    let mut seen = BTreeSet::new(alloc);
    'each: for field in fields {
        let number = field_number(field.number);
        let key = (field.owner, number);
        let is_new = seen.insert(key)?;
        let covered = is_covered(taken.as_slice(), key);
        push_lines(alloc, faults, field, number, !is_new, covered)?;
    }
    Ok(())
}
