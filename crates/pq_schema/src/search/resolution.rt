//! What a name resolves to.
ghost use Rattle.std.specs.Prelude.{◌≡◌, ◌⊎◌, IfOk};
ghost use Rattle.pq_schema.specs.Resolution.{is_enum, resolved, resolution_of, target};
ghost use Rattle.pq_schema.specs.aux.Hits.{lookup_at};
ghost use Rattle.pq_schema.specs.declared.search.resolution.ResolveFault.TheVariants.{Memory as OutOfMemory};

use crate::define::definitions::DefinitionKind;
use crate::names::full_name::FullName;
use crate::scope::named::Place;
use crate::scope::scope::Scope;
use crate::search::search::{Outcome, look_up};
use pq_names::{Memory, Text};
use std::alloc::{AllocError, Global};

/// The type that a name resolves to.
#[derive(Drop, PartialEq, Eq)]
pub struct Target {
    /// The file that defines it.
    pub file: Text,
    /// Its full name, without a leading dot.
    pub full_name: FullName,
    /// Whether it is an enum; else it is a message.
    pub is_enum: bool,
    /// The number of the item that defines it, in its file.
    pub item: usize,
}

/// Why a name resolves to no type.
#[derive(Drop, PartialEq, Eq)]
pub enum ResolveFault {
    /// No visible file defines the name, and no type of a file that is reached has it.
    NotFound,
    /// No visible file defines the name; a type of this file, which is not imported, has it.
    NotVisible(Text),
    /// The name is a package, or a definition other than a message or an enum.
    NotAType,
    /// An allocation failed.
    Memory,
}

/// What a type reference resolves to.
#[derive(Drop, PartialEq, Eq)]
pub enum Resolution {
    /// A type.
    Type(Target),
    /// As `ResolveFault::NotFound`.
    NotFound,
    /// As `ResolveFault::NotVisible`.
    NotVisible(Text),
    /// As `ResolveFault::NotAType`.
    NotAType,
}

impl From<AllocError> for ResolveFault {
    ghost from_gives = { λ _ fault. fault ≡ OutOfMemory };

    fn from(_refused: AllocError) -> ResolveFault {
        ResolveFault::Memory
    }
}

/// The type that `name` resolves to in the message, service or package `within` of a file with the
/// scope `scope`.
///
/// # Errors
///
/// - `NotFound`, `NotVisible` and `NotAType` exactly where the definition of resolution says so.
/// - `Memory` where an allocation fails.
pub fn resolve(
    alloc: Global,
    scope: &Scope,
    within: &str,
    name: &str,
) -> Result<Target, ResolveFault>
    // The target or the refusal that the definition of resolution gives, or `Memory`.
    ensures resolved { (result ≡ Err ResolveFault.Memory)
        ⊎ (result ≡ resolved scope.now within.now name.now) }
{
    let reach = scope.reached_files(alloc)?;
    match look_up(alloc, scope.visible_files(), &reach, within, name)? {
        Outcome::Type(place) => Ok(target_at(place)?),
        Outcome::NotFound => Err(ResolveFault::NotFound),
        Outcome::NotVisible(file) => Err(ResolveFault::NotVisible(file.copy()?)),
        Outcome::NotAType => Err(ResolveFault::NotAType),
    }
}

/// The type that the definition at `place` defines.
fn target_at(place: Place<'_>) -> Result<Target, Memory>
    ensures is { IfOk result (λ t. t ≡ target place.entry.file.now place.entry.definition.now) }
{
    let definition = place.definition;
    Ok(Target {
        file: place.file.copy()?,
        full_name: definition.full_name.copy()?,
        is_enum: is_enum(definition.kind),
        item: definition.item,
    })
}

/// Whether the kind `kind` of a type is that of enums.
fn is_enum(kind: DefinitionKind) -> bool
    ensures is { result ≡ is_enum kind }
{
    matches!(kind, DefinitionKind::Enum)
}

/// What a name resolves to where the search ends in `outcome`.
pub(crate) fn resolution_at(outcome: Outcome<'_>) -> Result<Resolution, Memory>
    ensures resolution { IfOk result (λ r. r ≡ resolution_of (lookup_at outcome.entry)) }
{
    match outcome {
        Outcome::Type(place) => Ok(Resolution::Type(target_at(place)?)),
        Outcome::NotFound => Ok(Resolution::NotFound),
        Outcome::NotVisible(file) => Ok(Resolution::NotVisible(file.copy()?)),
        Outcome::NotAType => Ok(Resolution::NotAType),
    }
}
