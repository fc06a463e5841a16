//! What the checks look at in a tree: fields, enum values, imports, options, what is reserved, and the
//! numbers of all statements of a kind.
ghost use Rattle.std.specs.Prelude.{◌≡◌, ◌++◌, IfOk, map};
ghost use Rattle.std.specs.List.{enumerate_from};
ghost use Rattle.pq_checks.specs.Members.{field_at, fields, import_at, imports, is_of, member_at, name_at, of_kind_at, of_kind, option_at, option_statements, range_at, ranges, reserved_name, reserved_names, reserved_range, value_at, values};
ghost use Rattle.pq_checks.specs.aux.Seen.{import_seen, member_seen, name_seen, opted_seen};
ghost use Rattle.pq_checks.specs.aux.Spots.{in_spot, seen, sited_in};

use crate::Memory;
use crate::tree::spots::Spot;
use pq_syntax::{Name, Number, Range, Setting, Statement, Strings};
use std::alloc::Global;

/// A kind of statements that the checks list by their numbers.
#[derive(Clone, Copy)]
pub(crate) enum Kind {
    Package,
    Oneof,
    Enum,
    Extend,
}

/// A field or an enum value.
#[derive(Clone, Copy)]
pub(crate) struct Member<'a> {
    /// The number of its statement.
    pub(crate) item: usize,
    /// The number of the message or enum whose member it is.
    pub(crate) owner: Option<usize>,
    /// The number of the statement in whose body it is.
    pub(crate) holder: Option<usize>,
    pub(crate) name: &'a Name,
    pub(crate) number: Number,
}

/// A reserved range.
#[derive(Clone, Copy)]
pub(crate) struct Reserved {
    /// The number of its statement.
    pub(crate) item: usize,
    /// Its number among the ranges of its statement, from 0.
    pub(crate) nth: usize,
    /// The number of the message or enum that reserves it.
    pub(crate) owner: Option<usize>,
    /// Whether its bounds are numbers of an enum.
    pub(crate) in_enum: bool,
    pub(crate) range: Range,
}

/// A reserved name.
#[derive(Clone, Copy)]
pub(crate) struct ReservedName<'a> {
    /// The number of the message or enum that reserves it.
    pub(crate) owner: Option<usize>,
    pub(crate) value: &'a Strings,
}

/// An import.
#[derive(Clone, Copy)]
pub(crate) struct ImportName<'a> {
    /// The number of its statement.
    pub(crate) item: usize,
    /// The name of its file.
    pub(crate) name: &'a Strings,
}

/// An option statement.
#[derive(Clone, Copy)]
pub(crate) struct Opted<'a> {
    /// The number of the statement in whose body it is.
    pub(crate) holder: Option<usize>,
    pub(crate) setting: &'a Setting,
}

/// The member with `name` and `number` that the statement at `spot` is.
fn member_of<'a>(spot: Spot<'a>, name: &'a Name, number: Number) -> Member<'a>
    ensures { member_seen result ≡ member_at (seen spot.entry) name.entry.now number }
{
    Member {
        item: spot.item,
        owner: spot.around.owner,
        holder: spot.around.holder,
        name,
        number,
    }
}

/// Adds the field at `spot`, if any.
fn push_field<'a>(members: &mut Vec<Member<'a>>, spot: Spot<'a>) -> Result<(), Memory>
    ensures { IfOk result (λ _. map member_seen members.new.items ≡ map member_seen members.old.items ++ in_spot field_at spot.entry) }
{
    let (name, number) = match &spot.node.statement {
        Statement::Field { name, number, .. } => (name, number),
        Statement::MapField { name, number, .. } => (name, number),
        _ => return Ok(()),
    };
    members.push(member_of(spot, name, *number))?;
    Ok(())
}

/// The fields at `spots`, in text order.
pub(crate) fn fields<'a>(alloc: Global, spots: &[Spot<'a>]) -> Result<Vec<Member<'a>>, Memory>
    ensures fields { IfOk result (λ ms. map member_seen ms.items ≡ fields (sited_in spots.now)) }
{
    let mut members = Vec::new(alloc);
    'spots: for i in 0..spots.len() {
        let spot = &spots[i];
        push_field(&mut members, *spot)?;
    }
    Ok(members)
}

/// Adds the enum value at `spot`, if any.
fn push_value<'a>(members: &mut Vec<Member<'a>>, spot: Spot<'a>) -> Result<(), Memory>
    ensures { IfOk result (λ _. map member_seen members.new.items ≡ map member_seen members.old.items ++ in_spot value_at spot.entry) }
{
    if let Statement::Value { name, number, .. } = &spot.node.statement {
        members.push(member_of(spot, name, *number))?;
    }
    Ok(())
}

/// The enum values at `spots`, in text order.
pub(crate) fn values<'a>(alloc: Global, spots: &[Spot<'a>]) -> Result<Vec<Member<'a>>, Memory>
    ensures values { IfOk result (λ ms. map member_seen ms.items ≡ values (sited_in spots.now)) }
{
    let mut members = Vec::new(alloc);
    'spots: for i in 0..spots.len() {
        let spot = &spots[i];
        push_value(&mut members, *spot)?;
    }
    Ok(members)
}

/// Whether `statement` is of the kind `kind`.
fn is_of(statement: &Statement, kind: Kind) -> bool
    ensures { result ≡ is_of statement.now kind }
{
    match statement {
        Statement::Package { .. } => matches!(kind, Kind::Package),
        Statement::Oneof { .. } => matches!(kind, Kind::Oneof),
        Statement::Enum { .. } => matches!(kind, Kind::Enum),
        Statement::Extend { .. } => matches!(kind, Kind::Extend),
        _ => false,
    }
}

/// Adds the number of the statement at `spot` if it is of the kind `kind`.
fn push_of_kind(items: &mut Vec<usize>, spot: Spot<'_>, kind: Kind) -> Result<(), Memory>
    ensures { IfOk result (λ _. items.new.items ≡ items.old.items ++ in_spot (of_kind_at kind) spot.entry) }
{
    if is_of(&spot.node.statement, kind) {
        items.push(spot.item)?;
    }
    Ok(())
}

/// The numbers of the statements of the kind `kind` at `spots`, in text order. Each call is a loop of
/// its own, with one test of a statement.
#[inline(always)]
pub(crate) fn of_kind(alloc: Global, spots: &[Spot<'_>], kind: Kind) -> Result<Vec<usize>, Memory>
    ensures items { IfOk result (λ ns. ns.items ≡ of_kind kind (sited_in spots.now)) }
{
    let mut items = Vec::new(alloc);
    'spots: for i in 0..spots.len() {
        let spot = &spots[i];
        push_of_kind(&mut items, *spot, kind)?;
    }
    Ok(items)
}

/// Adds the import at `spot`, if any.
fn push_import<'a>(imports: &mut Vec<ImportName<'a>>, spot: Spot<'a>) -> Result<(), Memory>
    ensures { IfOk result (λ _. map import_seen imports.new.items ≡ map import_seen imports.old.items ++ in_spot import_at spot.entry) }
{
    if let Statement::Import { file, .. } = &spot.node.statement {
        imports.push(ImportName {
            item: spot.item,
            name: file,
        })?;
    }
    Ok(())
}

/// The imports at `spots`, in text order.
pub(crate) fn imports<'a>(alloc: Global, spots: &[Spot<'a>]) -> Result<Vec<ImportName<'a>>, Memory>
    ensures imports { IfOk result (λ is. map import_seen is.items ≡ imports (sited_in spots.now)) }
{
    let mut imports = Vec::new(alloc);
    'spots: for i in 0..spots.len() {
        let spot = &spots[i];
        push_import(&mut imports, *spot)?;
    }
    Ok(imports)
}

/// Adds the reserved ranges `ranges` of the statement at `spot`.
fn push_ranges(reserved: &mut Vec<Reserved>, spot: Spot<'_>, ranges: &[Range]) -> Result<(), Memory>
    ensures { IfOk result (λ _. reserved.new.items ≡ reserved.old.items ++ map (reserved_range (seen spot.entry)) (enumerate_from 0 ranges.now)) }
{
    'each: for nth in 0..ranges.len() {
        let range = &ranges[nth];
        reserved.push(Reserved {
            item: spot.item,
            nth,
            owner: spot.around.owner,
            in_enum: spot.around.in_enum,
            range: *range,
        })?;
    }
    Ok(())
}

/// Adds the reserved ranges at `spot`.
fn push_reserved(reserved: &mut Vec<Reserved>, spot: Spot<'_>) -> Result<(), Memory>
    ensures { IfOk result (λ _. reserved.new.items ≡ reserved.old.items ++ in_spot range_at spot.entry) }
{
    match &spot.node.statement {
        Statement::ReservedNumbers(ranges) => push_ranges(reserved, spot, ranges.as_slice()),
        _ => Ok(()),
    }
}

/// The reserved ranges at `spots`, in text order.
pub(crate) fn ranges(alloc: Global, spots: &[Spot<'_>]) -> Result<Vec<Reserved>, Memory>
    ensures ranges { IfOk result (λ rs. rs.items ≡ ranges (sited_in spots.now)) }
{
    let mut reserved = Vec::new(alloc);
    'spots: for i in 0..spots.len() {
        let spot = &spots[i];
        push_reserved(&mut reserved, *spot)?;
    }
    Ok(reserved)
}

/// Adds the reserved names `values` of the message or enum `owner`.
fn push_names<'a>(
    names: &mut Vec<ReservedName<'a>>,
    owner: Option<usize>,
    values: &'a [Strings],
) -> Result<(), Memory>
    ensures { IfOk result (λ _. map name_seen names.new.items ≡ map name_seen names.old.items ++ map (reserved_name owner) values.entry.now) }
{
    'each: for value in values {
        names.push(ReservedName { owner, value })?;
    }
    Ok(())
}

/// Adds the reserved names at `spot`.
fn push_reserved_names<'a>(names: &mut Vec<ReservedName<'a>>, spot: Spot<'a>) -> Result<(), Memory>
    ensures { IfOk result (λ _. map name_seen names.new.items ≡ map name_seen names.old.items ++ in_spot name_at spot.entry) }
{
    match &spot.node.statement {
        Statement::ReservedNames(values) => {
            push_names(names, spot.around.owner, values.as_slice())
        }
        _ => Ok(()),
    }
}

/// The reserved names at `spots`, in text order.
pub(crate) fn reserved_names<'a>(
    alloc: Global,
    spots: &[Spot<'a>],
) -> Result<Vec<ReservedName<'a>>, Memory>
    ensures names { IfOk result (λ ns. map name_seen ns.items ≡ reserved_names (sited_in spots.now)) }
{
    let mut names = Vec::new(alloc);
    'spots: for i in 0..spots.len() {
        let spot = &spots[i];
        push_reserved_names(&mut names, *spot)?;
    }
    Ok(names)
}

/// Adds the option statement at `spot`, if any.
fn push_option<'a>(options: &mut Vec<Opted<'a>>, spot: Spot<'a>) -> Result<(), Memory>
    ensures { IfOk result (λ _. map opted_seen options.new.items ≡ map opted_seen options.old.items ++ in_spot option_at spot.entry) }
{
    if let Statement::Option(setting) = &spot.node.statement {
        options.push(Opted {
            holder: spot.around.holder,
            setting,
        })?;
    }
    Ok(())
}

/// The option statements at `spots`, in text order.
pub(crate) fn options<'a>(alloc: Global, spots: &[Spot<'a>]) -> Result<Vec<Opted<'a>>, Memory>
    ensures options { IfOk result (λ os. map opted_seen os.items ≡ option_statements (sited_in spots.now)) }
{
    let mut options = Vec::new(alloc);
    'spots: for i in 0..spots.len() {
        let spot = &spots[i];
        push_option(&mut options, *spot)?;
    }
    Ok(options)
}
