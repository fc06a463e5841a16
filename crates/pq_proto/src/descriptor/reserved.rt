//! Reserved numbers and names as descriptors tell them.
ghost use Rattle.std.specs.Prelude.{◌≡◌, pos, ◌<◌, [], ◌∷◌, ◌++◌, Some, None, cond, map, flat_map, option_copied, IfOk, OnOk};
ghost use Rattle.std.specs.Str.{is_utf8};
ghost use Rattle.serde_json.specs.Data.{string};
ghost use Rattle.pq_proto.specs.Reserved.{integer, integer_data, last_of, name_texts, names_data, names_of, range_data, ranges_data, ranges_of};
ghost use Rattle.pq_proto.specs.aux.Printed.{tokens_of, values_of};
ghost use Rattle.pq_proto.specs.aux.Rests.{left};

use crate::Memory;
use crate::bodies::{Body, Held};
use crate::printing::lists::{Part, print_list};
use crate::printing::printer::Printer;
use pq_syntax::{Number, Range, RangeEnd, Statement, Strings};
use std::alloc::Global;

/// Prints the number `n`.
pub(crate) fn print_integer(alloc: Global, out: &mut Printer, n: &Number) -> Result<(), Memory>
    ensures { OnOk result (out.new ≡ out.old ++ tokens_of (integer_data (integer n.now))) }
{
    let value = n.value.unwrap_or(0);
    if n.negative && value > 0 {
        let text = format!(in alloc; "-{value}")?;
        out.number(text.as_str())?;
        return Ok(());
    }
    out.unsigned(value)?;
    Ok(())
}

/// Prints the last number of the range `range`, where `max` stands for `greatest`.
fn print_last(alloc: Global, out: &mut Printer, greatest: u64, range: &Range) -> Result<(), Memory>
    ensures { OnOk result (out.new
        ≡ out.old ++ tokens_of (integer_data (last_of (pos greatest) range.now range.now.last))) }
{
    match &range.last {
        RangeEnd::Alone => print_integer(alloc, out, &range.first),
        RangeEnd::To(last) => print_integer(alloc, out, last),
        RangeEnd::Max => out.unsigned(greatest),
    }
}

/// Prints the pair of the first and the last number of the range `range`.
fn print_range(alloc: Global, out: &mut Printer, greatest: u64, range: &Range) -> Result<(), Memory>
    ensures { OnOk result (out.new ≡ out.old ++ tokens_of (range_data (pos greatest) range.now)) }
{
    out.begin_array()?;
    print_integer(alloc, out, &range.first)?;
    print_last(alloc, out, greatest, range)?;
    out.end_array()?;
    Ok(())
}

/// Prints the ranges `ranges`, one after the other.
fn print_ranges(
    alloc: Global,
    out: &mut Printer,
    greatest: u64,
    ranges: &[Range],
) -> Result<(), Memory>
    ensures { OnOk result (out.new
        ≡ out.old ++ values_of (map (range_data (pos greatest)) ranges.now)) }
{
    'each: for range in ranges {
        print_range(alloc, out, greatest, range)?;
    }
    Ok(())
}

/// The text of `bytes`, if they are UTF-8.
pub(crate) fn as_text(bytes: &[u8]) -> Option<&str>
    ensures text { option_copied result ≡ cond (is_utf8 bytes.now) (Some bytes.now) None }
{
    match str::from_utf8(bytes) {
        Ok(text) => Some(text),
        Err(_) => None,
    }
}

/// Prints `name`, if it is UTF-8.
fn print_name(out: &mut Printer, name: &Strings) -> Result<(), Memory>
    ensures { OnOk result (out.new ≡ out.old
        ++ values_of (cond (is_utf8 name.now.value) (string name.now.value ∷ []) [])) }
{
    match as_text(name.value.as_slice()) {
        Some(text) => out.text(text),
        None => Ok(()),
    }
}

/// Prints those of the names `names` that are UTF-8, one after the other.
fn print_names(out: &mut Printer, names: &[Strings]) -> Result<(), Memory>
    ensures { OnOk result (out.new
        ≡ out.old ++ values_of (map (λ t. string t) (name_texts names.now))) }
{
    'names: for name in names {
        print_name(out, name)?;
    }
    Ok(())
}

/// The ranges that a body reserves. `greatest` is the number that `max` stands for.
#[derive(Drop)]
struct Ranges {
    greatest: u64,
}

impl Part for Ranges {
    ghost made = { λ s item _. map (range_data (pos s.greatest)) (ranges_of item.node.statement) };

    fn print(&self, alloc: Global, out: &mut Printer, held: &Held<'_>) -> Result<(), Memory> {
        if let Statement::ReservedNumbers(ranges) = &held.node.statement {
            print_ranges(alloc, out, self.greatest, ranges.as_slice())?;
        }
        Ok(())
    }
}

/// The names that a body reserves.
#[derive(Drop)]
struct ReservedNames;

impl Part for ReservedNames {
    ghost made = { λ _ item _. map (λ t. string t) (names_of item.node.statement) };

    fn print(&self, _alloc: Global, out: &mut Printer, held: &Held<'_>) -> Result<(), Memory> {
        if let Statement::ReservedNames(names) = &held.node.statement {
            print_names(out, names.as_slice())?;
        }
        Ok(())
    }
}

/// Prints the list of the ranges that `body` reserves, where `max` stands for `greatest`.
pub(crate) fn print_ranges_in(
    alloc: Global,
    out: &mut Printer,
    greatest: u64,
    body: &Body<'_>,
) -> Result<(), Memory>
    ensures { OnOk result (out.new
        ≡ out.old ++ tokens_of (ranges_data (pos greatest) (left body.now))) }
{
    print_list(alloc, out, body, &Ranges { greatest })
}

/// Prints the list of the names that `body` reserves.
pub(crate) fn print_names_in(
    alloc: Global,
    out: &mut Printer,
    body: &Body<'_>,
) -> Result<(), Memory>
    ensures { OnOk result (out.new ≡ out.old ++ tokens_of (names_data (left body.now))) }
{
    print_list(alloc, out, body, &ReservedNames)
}
