//! Errors P020 to P022 and P101: skipped constructs, and a second package.
ghost use Rattle.std.specs.Prelude.{◌≡◌, ◌++◌, [], flat_map, IfOk};
ghost use Rattle.std.specs.List.{enumerate_from};
ghost use Rattle.pq_checks.specs.Earlier.{of_each_after};
ghost use Rattle.pq_checks.specs.Faults.{constant_faults, extend_faults, kind_faults, package_faults, unread_table};
ghost use Rattle.pq_checks.specs.Line.{all_said};
ghost use Rattle.pq_checks.specs.Members.{constant_at, of_kind};
ghost use Rattle.pq_checks.specs.aux.Lines.{package_line};
ghost use Rattle.pq_checks.specs.aux.Seen.{constants_in, setting_faults};
ghost use Rattle.pq_checks.specs.aux.Spots.{in_spot, sited_in};
ghost use Rattle.pq_checks.specs.declared.tree.members.Kind.TheVariants.{Package};

use crate::Memory;
use crate::errors::code::Code;
use crate::errors::fault::Fault;
use crate::errors::said::{At, tell};
use crate::tree::members::{Kind, of_kind};
use crate::tree::spots::Spot;
use pq_links::Part;
use pq_syntax::{ConstantKind, Setting, Statement};
use std::alloc::Global;

/// Adds the errors of a constant of the kind `kind`, that of the option `nth` of the item `item`.
fn push_kind(
    alloc: Global,
    faults: &mut Vec<Fault>,
    kind: ConstantKind,
    item: usize,
    nth: usize,
) -> Result<(), Memory>
    ensures { IfOk result (λ _. faults.new.items ≡ faults.old.items ++ kind_faults kind item nth) }
{
    let place = At {
        item,
        part: Part::Constant(nth),
    };
    match kind {
        ConstantKind::Aggregate => {
            let text = "aggregate option value is not read";
            tell(alloc, faults, place, Code::AggregateConstant, text)
        }
        ConstantKind::Float => {
            let text = "float literal is not read";
            tell(alloc, faults, place, Code::FloatConstant, text)
        }
        ConstantKind::Identifier | ConstantKind::Integer | ConstantKind::Text => Ok(()),
    }
}

/// Adds the errors of the constants of the options `settings` of the item `item`.
fn push_settings(
    alloc: Global,
    faults: &mut Vec<Fault>,
    item: usize,
    settings: &[Setting],
) -> Result<(), Memory>
    ensures { IfOk result (λ _. faults.new.items ≡ faults.old.items ++ flat_map (setting_faults item) (enumerate_from 0 settings.now)) }
{
    'settings: for nth in 0..settings.len() {
        let setting = &settings[nth];
        push_kind(alloc, faults, setting.constant.kind, item, nth)?;
    }
    Ok(())
}

/// Adds the errors of the constants of the options of the statement of `spot`.
#[tactic(auto, using(crate::proofs::SaidOfParts::of_settings))]
fn push_constants(alloc: Global, faults: &mut Vec<Fault>, spot: Spot<'_>) -> Result<(), Memory>
    ensures { IfOk result (λ _. faults.new.items ≡ faults.old.items ++ flat_map constant_faults (in_spot constant_at spot.entry)) }
{
    match &spot.node.statement {
        Statement::Option(setting) => {
            push_kind(alloc, faults, setting.constant.kind, spot.item, 0)
        }
        Statement::Field { options, .. } => push_settings(
            alloc,
            faults,
            spot.item,
            options.as_slice(),
        ),
        Statement::MapField { options, .. } => push_settings(
            alloc,
            faults,
            spot.item,
            options.as_slice(),
        ),
        Statement::Value { options, .. } => push_settings(
            alloc,
            faults,
            spot.item,
            options.as_slice(),
        ),
        _ => Ok(()),
    }
}

/// Adds the errors of the constants of the options of the statements `spots`.
fn push_all_constants(
    alloc: Global,
    faults: &mut Vec<Fault>,
    spots: &[Spot<'_>],
) -> Result<(), Memory>
    ensures { IfOk result (λ _. faults.new.items ≡ faults.old.items ++ flat_map constants_in spots.now) }
{
    'spots: for i in 0..spots.len() {
        let spot = &spots[i];
        push_constants(alloc, faults, *spot)?;
    }
    Ok(())
}

/// Adds the errors of the extend blocks `extends`.
fn push_extends(alloc: Global, faults: &mut Vec<Fault>, extends: &[usize]) -> Result<(), Memory>
    ensures { IfOk result (λ _. faults.new.items ≡ faults.old.items ++ flat_map extend_faults extends.now) }
{
    'extends: for extend in extends {
        let text = "extend block is not read";
        let place = At {
            item: *extend,
            part: Part::Whole,
        };
        tell(alloc, faults, place, Code::ExtendBlock, text)?;
    }
    Ok(())
}

/// Adds the errors of a file with the statements `spots` about skipped constructs.
pub(crate) fn push_unread_faults(
    alloc: Global,
    faults: &mut Vec<Fault>,
    spots: &[Spot<'_>],
) -> Result<(), Memory>
    ensures said { IfOk result (λ _. faults.new.items ≡ faults.old.items ++ all_said (unread_table (sited_in spots.now))) }
{
    let extends = of_kind(alloc, spots, Kind::Extend)?;
    push_all_constants(alloc, faults, spots)?;
    push_extends(alloc, faults, extends.as_slice())
}

/// Adds the errors of the packages `later`, of which none is the first.
fn push_later(alloc: Global, faults: &mut Vec<Fault>, later: &[usize]) -> Result<(), Memory>
    ensures { IfOk result (λ _. faults.new.items ≡ faults.old.items ++ flat_map package_line later.now) }
{
    'later: for package in later {
        let text = "package is given twice";
        let place = At {
            item: *package,
            part: Part::Name,
        };
        tell(alloc, faults, place, Code::PackageTwice, text)?;
    }
    Ok(())
}

/// Adds the errors of a file with the statements `spots` about its packages.
pub(crate) fn push_package_faults(
    alloc: Global,
    faults: &mut Vec<Fault>,
    spots: &[Spot<'_>],
) -> Result<(), Memory>
    ensures said { IfOk result (λ _. faults.new.items ≡ faults.old.items ++ of_each_after package_faults [] (of_kind Package (sited_in spots.now))) }
{
    let packages = of_kind(alloc, spots, Kind::Package)?;
    match packages.split_first() {
        Some((_, later)) => push_later(alloc, faults, later),
        None => Ok(()),
    }
}
