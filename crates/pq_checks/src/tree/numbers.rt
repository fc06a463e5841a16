//! The numbers of fields and of enum values, and the ranges of them that are reserved.
ghost use Rattle.std.specs.Prelude.{◌≡◌};
ghost use Rattle.pq_checks.specs.Numbers.{bounds_of, enum_limits, field_limits, last_in, number_in};
ghost use Rattle.pq_checks.specs.Owners.{limits_by};

use pq_syntax::{Number, Range, RangeEnd};

/// The greatest field number.
const GREATEST_FIELD: u64 = 536_870_911;

/// The greatest number of an enum value.
const GREATEST_VALUE: u64 = 2_147_483_647;

/// The first and the last number of a range that is not empty.
#[derive(Clone, Copy)]
pub(crate) struct Bounds {
    pub(crate) first: i64,
    pub(crate) last: i64,
}

/// The number of a field, or `None` if it is outside the limits.
pub(crate) fn field_number(number: Number) -> Option<i64>
    ensures { result ≡ number_in field_limits number }
{
    match number.value {
        Some(value) if !number.negative && value >= 1 && value <= GREATEST_FIELD => {
            Some(value as i64)
        }
        _ => None,
    }
}

/// The number of an enum value, or `None` if it is outside the limits.
pub(crate) fn enum_number(number: Number) -> Option<i64>
    ensures { result ≡ number_in enum_limits number }
{
    match number.value {
        Some(value) => {
            if number.negative {
                if value <= GREATEST_VALUE + 1 {
                    Some(-(value as i64))
                } else {
                    None
                }
            } else if value <= GREATEST_VALUE {
                Some(value as i64)
            } else {
                None
            }
        }
        None => None,
    }
}

/// A number of an enum or of a message, or `None` if it is outside the limits.
pub(crate) fn number_of(in_enum: bool, number: Number) -> Option<i64>
    ensures { result ≡ number_in (limits_by in_enum) number }
{
    if in_enum {
        enum_number(number)
    } else {
        field_number(number)
    }
}

/// The greatest number of an enum or of a message.
fn greatest(in_enum: bool) -> i64
    ensures { result ≡ (limits_by in_enum).greatest }
{
    if in_enum {
        GREATEST_VALUE as i64
    } else {
        GREATEST_FIELD as i64
    }
}

/// The last number of a range from `first` to `end`, or `None` if it is outside the limits.
fn last_of(in_enum: bool, first: Number, end: RangeEnd) -> Option<i64>
    ensures { result ≡ last_in (limits_by in_enum) first end }
{
    match end {
        RangeEnd::Alone => number_of(in_enum, first),
        RangeEnd::To(last) => number_of(in_enum, last),
        RangeEnd::Max => Some(greatest(in_enum)),
    }
}

/// The bounds of the range `range` of an enum or of a message, or `None` if it reserves nothing.
pub(crate) fn bounds_of(in_enum: bool, range: Range) -> Option<Bounds>
    ensures { result ≡ bounds_of (limits_by in_enum) range }
{
    let Some(first) = number_of(in_enum, range.first) else {
        return None;
    };
    let Some(last) = last_of(in_enum, range.first, range.last) else {
        return None;
    };
    if first <= last {
        Some(Bounds { first, last })
    } else {
        None
    }
}
