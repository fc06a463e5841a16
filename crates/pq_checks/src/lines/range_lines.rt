//! Error P125, and the ranges that are reserved.
ghost use Rattle.std.specs.Prelude.{◌≡◌, ◌++◌, flat_map, IfOk};
ghost use Rattle.pq_checks.specs.Faults.{range_faults};
ghost use Rattle.pq_checks.specs.aux.Cover.{Climbs, is_covered};
ghost use Rattle.pq_checks.specs.aux.Lines.{Key as NumberKey, key_cmp, stair_of};

use crate::Memory;
use crate::errors::code::Code;
use crate::errors::fault::Fault;
use crate::errors::said::At;
use crate::errors::tell::tell_if;
use crate::lines::cover::stairs;
use crate::tree::members::Reserved;
use crate::tree::numbers::bounds_of;
use pq_links::Part;
use std::alloc::Global;

/// A number of a message or an enum: the number of its statement, and the number.
pub(crate) type Key = (Option<usize>, Option<i64>);

/// Adds the error of the reserved range `reserved`, if it reserves nothing.
fn push_range(alloc: Global, faults: &mut Vec<Fault>, reserved: Reserved) -> Result<(), Memory>
    ensures { IfOk result (λ _. faults.new.items ≡ faults.old.items ++ range_faults reserved) }
{
    let is_bad = bounds_of(reserved.in_enum, reserved.range).is_none();
    let text = "reserved range is empty or out of range";
    tell_if(
        alloc,
        faults,
        is_bad,
        At {
            item: reserved.item,
            part: Part::Range(reserved.nth),
        },
        Code::BadRange,
        text,
    )
}

/// Adds an error for each of the reserved ranges `reserved` that reserves nothing.
pub(crate) fn push_range_faults(
    alloc: Global,
    faults: &mut Vec<Fault>,
    reserved: &[Reserved],
) -> Result<(), Memory>
    ensures { IfOk result (λ _. faults.new.items ≡ faults.old.items ++ flat_map range_faults reserved.now) }
{
    'each: for range in reserved {
        push_range(alloc, faults, *range)?;
    }
    Ok(())
}

/// Adds the first and the last key that the reserved range `reserved` reserves, if any.
fn push_stair(stairs: &mut Vec<(Key, Key)>, reserved: Reserved) -> Result<(), Memory>
    ensures { IfOk result (λ _. stairs.new.items ≡ stairs.old.items ++ stair_of reserved) }
{
    if let Some(bounds) = bounds_of(reserved.in_enum, reserved.range) {
        let first = (reserved.owner, Some(bounds.first));
        let last = (reserved.owner, Some(bounds.last));
        stairs.push((first, last))?;
    }
    Ok(())
}

/// The first and the last key of each of the reserved ranges `reserved`.
fn keys_of(alloc: Global, reserved: &[Reserved]) -> Result<Vec<(Key, Key)>, Memory>
    ensures { IfOk result (λ s. s.items ≡ flat_map stair_of reserved.now) }
{
    let mut stairs = Vec::new(alloc);
    'each: for range in reserved {
        push_stair(&mut stairs, *range)?;
    }
    Ok(stairs)
}

/// The keys that the ranges `reserved` reserve: `is_covered` tells whether they do a key.
pub(crate) fn reserved_keys(alloc: Global, reserved: &[Reserved]) -> Result<Vec<(Key, Key)>, Memory>
    ensures climbs { IfOk result (λ s. Climbs key_cmp s.items) }
    ensures same { IfOk result (λ s. (k : NumberKey) → is_covered key_cmp s.items k ≡ is_covered key_cmp (flat_map stair_of reserved.now) k) }
{
    let keys = keys_of(alloc, reserved)?;
    stairs(alloc, keys)
}
