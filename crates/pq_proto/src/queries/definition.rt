//! The query of the definition of what is at a place of a file.
ghost use Rattle.std.specs.Prelude.{◌≡◌, IfOk};
ghost use Rattle.pq_links.specs.Files.{nodes_of};
ghost use Rattle.pq_proto.specs.Compile.{location_of, offset_at};
ghost use Rattle.pq_proto.specs.Definition.{definition_at};
ghost use Rattle.pq_proto.specs.aux.Outputs.{definition_advances, definition_falls, definition_left, definition_starts, output_level, parsed_read, references_turn, resolved_read, target_turn};

use crate::Memory;
use crate::definition::{TypeItem, definition_at};
use crate::files::{offset_at, place_at, span_in};
use crate::key::{Place, ProtoKey};
use crate::queries::answers::{parsed_in, resolved_in};
use crate::value::{Location, ProtoValue};
use pq_links::{ParsedFile, Part};
use pq_names::Text;
use pq_rules::{Answer, Query, Shared, Turn};
use std::alloc::Global;

/// What the rule of a definition does with the next answer.
#[derive(Drop)]
pub enum DefinitionPart {
    /// The answer is what the file is read as. The fields are its name and the place.
    ReadFile(Text, Place),
    /// The answer is the resolved references of the file. The fields are the offset of the place
    /// and what the file is read as.
    ReadResolved(usize, Shared<ParsedFile>),
    /// The answer is what the file of the type is read as.
    ReadTarget(TypeItem),
}

/// Where the type that is referred to at a place of a file is defined (Language Server Protocol
/// 3.17, "Goto Definition Request"). A place after the line's end is that end, and both ends of a
/// reference belong to it. The definition is `None` where the file has no such line or no reference
/// is there, and where that resolves to no type.
#[derive(Drop)]
pub struct DefinitionQuery;

/// The location of the name of the type `target`, whose file is read as `file`.
fn location_of(target: TypeItem, file: &ParsedFile) -> Option<Location>
    ensures location { result ≡ location_of target file.now }
{
    match span_in(file, target.item, Part::Name) {
        Some(span) => Some(Location {
            file: target.file,
            start: place_at(file, span.start),
            end: place_at(file, span.end),
        }),
        None => None,
    }
}

/// The turn after what the file `file` is read as, for the place `place` in it.
fn after_file(
    file: &Text,
    place: Place,
    answer: &Answer<ProtoKey, ProtoValue>,
) -> Result<Turn<ProtoKey, DefinitionPart, Option<Location>>, Memory>
    ensures turn { IfOk result (λ t. t ≡ references_turn file.now (parsed_read answer.now) (offset_at (parsed_read answer.now) place)) }
{
    let parsed = match parsed_in(answer) {
        Some(parsed) => parsed,
        None => return Ok(Turn::Done(None)),
    };
    match offset_at(parsed.get(), place) {
        Some(offset) => Ok(Turn::Ask(
            ProtoKey::Resolved(file.copy()?),
            DefinitionPart::ReadResolved(offset, parsed.copy()?),
        )),
        None => Ok(Turn::Done(None)),
    }
}

/// The turn after the resolved references of a file that is read as `file`, for `offset` in it.
fn after_references(
    offset: usize,
    file: &ParsedFile,
    answer: &Answer<ProtoKey, ProtoValue>,
) -> Result<Turn<ProtoKey, DefinitionPart, Option<Location>>, Memory>
    ensures turn { IfOk result (λ t. t ≡ target_turn (definition_at (nodes_of file.now) offset (resolved_read answer.now))) }
{
    let references = match resolved_in(answer) {
        Some(references) => references.get(),
        None => return Ok(Turn::Done(None)),
    };
    match definition_at(file, references, offset)? {
        Some(target) => Ok(Turn::Ask(
            ProtoKey::Parse(target.file.copy()?),
            DefinitionPart::ReadTarget(target),
        )),
        None => Ok(Turn::Done(None)),
    }
}

/// The location of the type `target`, whose file was read by `answer`.
fn after_target(target: TypeItem, answer: &Answer<ProtoKey, ProtoValue>) -> Option<Location>
    ensures location { result ≡ location_of target (parsed_read answer.now) }
{
    match parsed_in(answer) {
        Some(file) => location_of(target, file.get()),
        None => None,
    }
}

impl Query for DefinitionQuery {
    type Key = (Text, Place);

    type Value = Option<Location>;

    type Part = DefinitionPart;

    type AnyKey = ProtoKey;

    type AnyAnswer = Answer<ProtoKey, ProtoValue>;

    const LEVEL: u8 = 10;

    ghost LEVEL = { output_level };

    ghost starts = { λ s k. definition_starts k.0 k.1 };

    ghost advances = { λ s p a. definition_advances p a };

    ghost lefts = { λ s p. definition_left p };

    ghost falls = { λ s p a q r e. definition_falls p a q r e };

    fn start(
        &self,
        _alloc: Global,
        key: &(Text, Place),
    ) -> Result<Turn<ProtoKey, DefinitionPart, Option<Location>>, Memory> {
        Ok(Turn::Ask(
            ProtoKey::Parse(key.0.copy()?),
            DefinitionPart::ReadFile(key.0.copy()?, key.1),
        ))
    }

    fn advance(
        &self,
        _alloc: Global,
        part: DefinitionPart,
        answer: &Answer<ProtoKey, ProtoValue>,
    ) -> Result<Turn<ProtoKey, DefinitionPart, Option<Location>>, DefinitionPart> {
        match part {
            DefinitionPart::ReadFile(file, place) => match after_file(&file, place, answer) {
                Ok(turn) => Ok(turn),
                Err(_) => Err(DefinitionPart::ReadFile(file, place)),
            },
            DefinitionPart::ReadResolved(offset, file) => {
                match after_references(offset, file.get(), answer) {
                    Ok(turn) => Ok(turn),
                    Err(_) => Err(DefinitionPart::ReadResolved(offset, file)),
                }
            }
            DefinitionPart::ReadTarget(target) => Ok(Turn::Done(after_target(target, answer))),
        }
    }

    fn left(&self, part: &DefinitionPart) -> (u32, u64) {
        match part {
            DefinitionPart::ReadFile(_, _) => (2, 0),
            DefinitionPart::ReadResolved(_, _) => (1, 0),
            DefinitionPart::ReadTarget(_) => (0, 0),
        }
    }
}
