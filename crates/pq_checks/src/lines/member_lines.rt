//! Errors P120 to P135: the members of messages and enums, and what these reserve.
//!
//! What the errors speak of is read off the statements of `spots`. For N statements the checks take
//! N log N time.
ghost use Rattle.std.specs.Prelude.{◌≡◌, ◌++◌, map, IfOk};
ghost use Rattle.pq_checks.specs.Faults.{enumeration_table, message_table};
ghost use Rattle.pq_checks.specs.Line.{all_said};
ghost use Rattle.pq_checks.specs.Members.{ranges, reserved_names};
ghost use Rattle.pq_checks.specs.aux.Seen.{name_seen};
ghost use Rattle.pq_checks.specs.aux.Spots.{sited_in};

use crate::Memory;
use crate::errors::code::Code;
use crate::errors::fault::Fault;
use crate::lines::body_lines::push_body_faults;
use crate::lines::field_lines::push_field_number_faults;
use crate::lines::name_lines::push_name_faults;
use crate::lines::range_lines::push_range_faults;
use crate::lines::value_lines::push_value_number_faults;
use crate::tree::members::{
    Kind, Reserved, ReservedName, fields, of_kind, options, ranges, reserved_names, values,
};
use crate::tree::spots::Spot;
use std::alloc::Global;

/// Adds errors P120 to P126 of a file with the statements `spots`, the reserved ranges `reserved` and
/// the reserved names `names`.
fn push_message_faults<'a>(
    alloc: Global,
    faults: &mut Vec<Fault>,
    spots: &[Spot<'a>],
    reserved: &[Reserved],
    names: &[ReservedName<'a>],
) -> Result<(), Memory>
    requires ranges { reserved.now ≡ ranges (sited_in spots.now) }
    requires names { map name_seen names.now ≡ reserved_names (sited_in spots.now) }
    ensures { IfOk result
        (λ _. faults.new.items ≡ faults.old.items ++ all_said (message_table (sited_in spots.now))) }
{
    let fields = fields(alloc, spots)?;
    let fields = fields.as_slice();
    let oneofs = of_kind(alloc, spots, Kind::Oneof)?;
    let oneofs = oneofs.as_slice();
    let before = "field name ";
    let text = "oneof has no field";
    push_field_number_faults(alloc, faults, fields, reserved)?;
    push_name_faults(
        alloc,
        faults,
        fields,
        names,
        Code::FieldNameReserved,
        before,
    )?;
    push_range_faults(alloc, faults, reserved)?;
    push_body_faults(alloc, faults, oneofs, fields, Code::EmptyOneof, text)
}

/// Adds errors P130 to P135 of a file with the statements `spots`, the reserved ranges `reserved` and
/// the reserved names `names`.
fn push_enumeration_faults<'a>(
    alloc: Global,
    faults: &mut Vec<Fault>,
    spots: &[Spot<'a>],
    reserved: &[Reserved],
    names: &[ReservedName<'a>],
) -> Result<(), Memory>
    requires ranges { reserved.now ≡ ranges (sited_in spots.now) }
    requires names { map name_seen names.now ≡ reserved_names (sited_in spots.now) }
    ensures { IfOk result
        (λ _. faults.new.items ≡ faults.old.items ++ all_said (enumeration_table (sited_in spots.now))) }
{
    let values = values(alloc, spots)?;
    let values = values.as_slice();
    let enums = of_kind(alloc, spots, Kind::Enum)?;
    let enums = enums.as_slice();
    let options = options(alloc, spots)?;
    let options = options.as_slice();
    let text = "enum has no value";
    let before = "enum value name ";
    push_body_faults(alloc, faults, enums, values, Code::EmptyEnum, text)?;
    push_value_number_faults(alloc, faults, values, reserved, options)?;
    push_name_faults(
        alloc,
        faults,
        values,
        names,
        Code::EnumValueNameReserved,
        before,
    )
}

/// Adds errors P120 to P135 of a file with the statements `spots`.
pub(crate) fn push_member_faults(
    alloc: Global,
    faults: &mut Vec<Fault>,
    spots: &[Spot<'_>],
) -> Result<(), Memory>
    ensures said { IfOk result (λ _. faults.new.items ≡ faults.old.items
        ++ all_said (message_table (sited_in spots.now) ++ enumeration_table (sited_in spots.now))) }
{
    let ranges = ranges(alloc, spots)?;
    let ranges = ranges.as_slice();
    let names = reserved_names(alloc, spots)?;
    let names = names.as_slice();
    push_message_faults(alloc, faults, spots, ranges, names)?;
    push_enumeration_faults(alloc, faults, spots, ranges, names)
}
