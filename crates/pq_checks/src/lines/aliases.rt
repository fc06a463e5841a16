//! Which enums allow two values with one number: the last option `allow_alias` of each counts.
ghost use Rattle.std.specs.Prelude.{◌≡◌, ℕ, Option, Some, cond, codes, map, IfOk};
ghost use Rattle.std.specs.BTreeMap.{get, is_at};
ghost use Rattle.std.specs.Option.{option_cmp};
ghost use Rattle.std.specs.Ordering.{nat_cmp};
ghost use Rattle.pq_checks.specs.Faults.{allows_alias, is_alias_of, is_named, is_true};
ghost use Rattle.pq_checks.specs.aux.Seen.{allowed, opted_seen};

use crate::Memory;
use crate::tree::members::Opted;
use pq_syntax::{Constant, ConstantKind, NamePart};
use std::alloc::Global;
use std::collections::BTreeMap;

/// Whether enums allow aliases, by the numbers of their statements.
pub(crate) type Aliases = BTreeMap<Option<usize>, bool>;

/// Whether an option's name with the parts `parts` is `allow_alias`.
fn is_allow_alias(parts: &[NamePart]) -> bool
    ensures { result ≡ is_named (codes "allow_alias") parts.now }
{
    match parts {
        [part] => !part.is_extension && part.text.as_str() == "allow_alias",
        _ => false,
    }
}

/// Whether `constant` is the identifier `true`.
fn is_true(constant: &Constant) -> bool
    ensures { result ≡ is_true constant.now }
{
    match constant.kind {
        ConstantKind::Identifier => constant.text.as_str() == "true",
        _ => false,
    }
}

/// Sets whether the enum of the number `holder` allows aliases.
fn set(aliases: &mut Aliases, holder: Option<usize>, allowed: bool) -> Result<(), Memory>
    ensures set { IfOk result (λ _. (e : Option ℕ) → get (option_cmp nat_cmp) aliases.new e ≡ cond (is_at (option_cmp nat_cmp holder) e) (Some allowed) (get (option_cmp nat_cmp) aliases.old e)) }
{
    aliases.insert(holder, allowed)?;
    Ok(())
}

/// Sets what the option `option` says, if it is `allow_alias`.
fn add_option(aliases: &mut Aliases, option: &Opted<'_>) -> Result<(), Memory>
    ensures added { IfOk result (λ _. (e : Option ℕ) → allowed aliases.new e
        ≡ cond (is_alias_of e (opted_seen option.now)) (is_true option.now.setting.now.constant) (allowed aliases.old e)) }
{
    if is_allow_alias(option.setting.parts.as_slice()) {
        return set(aliases, option.holder, is_true(&option.setting.constant));
    }
    Ok(())
}

/// What the options `options` say.
pub(crate) fn aliases(alloc: Global, options: &[Opted<'_>]) -> Result<Aliases, Memory>
    ensures allowed { IfOk result (λ m. (e : Option ℕ) → allowed m e ≡ allows_alias (map opted_seen options.now) e) }
{
    let mut aliases = BTreeMap::new(alloc);
    'each: for option in options {
        add_option(&mut aliases, option)?;
    }
    Ok(aliases)
}

/// Whether the enum of the number `enumeration` allows aliases.
pub(crate) fn allows(aliases: &Aliases, enumeration: Option<usize>) -> bool
    ensures { result ≡ allowed aliases.now enumeration }
{
    match aliases.get(&enumeration) {
        Some(allowed) => *allowed,
        None => false,
    }
}
