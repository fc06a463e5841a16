//! Errors P131 to P134: the numbers of enum values.
ghost use Rattle.std.specs.Prelude.{◌≡◌, ◌++◌, ◌&&◌, not, is_some, [], map, IfOk};
ghost use Rattle.pq_checks.specs.Earlier.{of_each_after};
ghost use Rattle.pq_checks.specs.Faults.{is_zero, value_faults, value_number_faults};
ghost use Rattle.pq_checks.specs.aux.Seen.{member_seen, opted_seen};

use crate::Memory;
use crate::errors::code::Code;
use crate::errors::fault::Fault;
use crate::errors::said::At;
use crate::errors::tell::{both, tell_if, tell_number};
use crate::lines::aliases::{aliases, allows};
use crate::lines::cover::is_covered;
use crate::lines::range_lines::reserved_keys;
use crate::tree::members::{Member, Opted, Reserved};
use crate::tree::numbers::enum_number;
use pq_links::Part;
use std::alloc::Global;
use std::collections::BTreeSet;

/// Whether `number` is 0.
fn is_zero(number: Option<i64>) -> bool
    ensures { result ≡ is_zero number }
{
    match number {
        Some(number) => number == 0,
        None => false,
    }
}

/// What is looked up of an enum value.
#[derive(Clone, Copy)]
pub(crate) struct Known {
    /// Whether it is the first of its enum.
    first: bool,
    /// Whether an earlier value of its enum has its number, if it has one.
    repeated: bool,
    /// Whether its enum allows that.
    allowed: bool,
    /// Whether its number is reserved, if it has one.
    covered: bool,
}

/// Adds the errors of the enum value `value` of the number `number`, of which `known` is looked up.
fn push_lines(
    alloc: Global,
    faults: &mut Vec<Fault>,
    value: &Member<'_>,
    number: Option<i64>,
    known: Known,
) -> Result<(), Memory>
    ensures { IfOk result (λ _. faults.new.items ≡ faults.old.items
        ++ value_faults number known.first ((known.repeated && is_some number) && not known.allowed) (known.covered && is_some number) (member_seen value.now)) }
{
    let place = At {
        item: value.item,
        part: Part::Number,
    };
    let is_number = number.is_some();
    let is_zero = is_zero(number);
    let wrong_first = both(known.first, !is_zero);
    let twice = both(both(known.repeated, is_number), !known.allowed);
    let reserved = both(known.covered, is_number);
    let text = "the first enum value must be 0";
    let code = Code::FirstValueNotZero;
    tell_if(alloc, faults, wrong_first, place, code, text)?;
    let text = "enum number must be from -2147483648 to 2147483647";
    let code = Code::EnumNumberOutOfRange;
    tell_if(alloc, faults, !is_number, place, code, text)?;
    let before = "enum number ";
    let after = " is used twice without allow_alias";
    let code = Code::EnumNumberTwice;
    tell_number(alloc, faults, twice, place, code, before, number, after)?;
    let code = Code::EnumNumberReserved;
    tell_number(
        alloc,
        faults,
        reserved,
        place,
        code,
        before,
        number,
        " is reserved",
    )
}

/// Adds the errors of the numbers of the enum values `values`, where `reserved` lists the reserved
/// ranges and `options` the option statements.
pub(crate) fn push_value_number_faults(
    alloc: Global,
    faults: &mut Vec<Fault>,
    values: &[Member<'_>],
    reserved: &[Reserved],
    options: &[Opted<'_>],
) -> Result<(), Memory>
    ensures { IfOk result (λ _. faults.new.items ≡ faults.old.items
        ++ of_each_after (value_number_faults reserved.now (map opted_seen options.now)) [] (map member_seen values.now)) }
{
    let taken = reserved_keys(alloc, reserved)?;
    let aliases = aliases(alloc, options)?;
    let mut seen = BTreeSet::new(alloc);
    let mut begun = BTreeSet::new(alloc);
    'each: for value in values {
        let number = enum_number(value.number);
        let key = (value.owner, number);
        let is_first = begun.insert(value.owner)?;
        let is_new = seen.insert(key)?;
        let allowed = allows(&aliases, value.owner);
        let covered = is_covered(taken.as_slice(), key);
        let known = Known {
            first: is_first,
            repeated: !is_new,
            allowed,
            covered,
        };
        push_lines(alloc, faults, value, number, known)?;
    }
    Ok(())
}
