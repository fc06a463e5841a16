//! The query of a file's descriptor.
ghost use Rattle.std.specs.Prelude.{◌≡◌, IfOk};
ghost use Rattle.pq_checks.specs.Codes.{severity};
ghost use Rattle.pq_proto.specs.Compile.{has_tree, is_failed, is_severe};
ghost use Rattle.pq_proto.specs.aux.Outputs.{descriptor_advances, descriptor_falls, descriptor_left, descriptor_starts, faults_read, items_read, bare_turn, output_level, tree_turn};

use crate::Memory;
use crate::descriptor::descriptor_text;
use crate::key::ProtoKey;
use crate::queries::answers::{faults_in, items_in, references_in};
use crate::value::ProtoValue;
use pq_checks::{Code, Fault, Severity};
use pq_links::FileItems;
use pq_names::Text;
use pq_rules::{Answer, Query, Shared, Turn};
use std::alloc::Global;

/// What the rule of a file's descriptor does with the next answer.
#[derive(Drop)]
pub enum DescriptorPart {
    /// The answer is the errors of the file by the table. The field is its name.
    ReadChecks(Text),
    /// The answer is the tree of the file without spans. The field is its name.
    ReadItems(Text),
    /// The answer is the resolved references of the file. The fields are its name and its tree
    /// without spans.
    ReadResolved(Text, Shared<FileItems>),
}

/// The descriptor of a file as a text. It is `null` for a file without a tree, and for one with an
/// error of the severity of errors.
#[derive(Drop)]
pub struct DescriptorQuery;

/// Whether the severity of `code` is that of errors.
fn is_severe(code: Code) -> bool
    ensures severe { result ≡ is_severe (severity code) }
{
    match code.severity() {
        Severity::Error => true,
        Severity::Information => false,
    }
}

/// Whether one of `faults` is of the severity of errors.
fn is_failed(faults: &[Fault]) -> bool
    ensures failed { result ≡ is_failed faults.now }
{
    faults.iter().any(|fault| is_severe(fault.code))
}

/// Whether a file that is `items` without spans has a tree.
fn has_tree(items: &FileItems) -> bool
    ensures tree { result ≡ has_tree items.now }
{
    matches!(items, FileItems::Tree(_))
}

/// The turn after the errors of the file `file`.
fn after_checks(
    alloc: Global,
    file: &Text,
    answer: &Answer<ProtoKey, ProtoValue>,
) -> Result<Turn<ProtoKey, DescriptorPart, Text>, Memory>
    ensures turn { IfOk result (λ t. t ≡ bare_turn file.now (is_failed (faults_read answer.now))) }
{
    if is_failed(faults_in(answer)) {
        return Ok(Turn::Done(Text::new(alloc, "null")?));
    }
    Ok(Turn::Ask(
        ProtoKey::Items(file.copy()?),
        DescriptorPart::ReadItems(file.copy()?),
    ))
}

/// The turn after the answer that the file `file` is `items` without spans.
fn after_tree(
    alloc: Global,
    file: &Text,
    items: &Shared<FileItems>,
) -> Result<Turn<ProtoKey, DescriptorPart, Text>, Memory>
    ensures turn { IfOk result (λ t. t ≡ tree_turn file.now items.now (has_tree items.now)) }
{
    if !has_tree(items.get()) {
        return Ok(Turn::Done(Text::new(alloc, "null")?));
    }
    Ok(Turn::Ask(
        ProtoKey::Resolved(file.copy()?),
        DescriptorPart::ReadResolved(file.copy()?, items.copy()?),
    ))
}

/// The turn after the tree of the file `file` without spans.
fn after_items(
    alloc: Global,
    file: &Text,
    answer: &Answer<ProtoKey, ProtoValue>,
) -> Result<Turn<ProtoKey, DescriptorPart, Text>, Memory>
    ensures turn { IfOk result (λ t. t ≡ tree_turn file.now (items_read answer.now) (has_tree (items_read answer.now))) }
{
    match items_in(answer) {
        Some(items) => after_tree(alloc, file, items),
        None => Ok(Turn::Done(Text::new(alloc, "null")?)),
    }
}

impl Query for DescriptorQuery {
    type Key = Text;

    type Value = Text;

    type Part = DescriptorPart;

    type AnyKey = ProtoKey;

    type AnyAnswer = Answer<ProtoKey, ProtoValue>;

    const LEVEL: u8 = 10;

    ghost LEVEL = { output_level };

    ghost starts = { λ s f. descriptor_starts f };

    ghost advances = { λ s p a. descriptor_advances p a };

    ghost lefts = { λ s p. descriptor_left p };

    ghost falls = { λ s p a q r e. descriptor_falls p a q r e };

    fn start(
        &self,
        _alloc: Global,
        key: &Text,
    ) -> Result<Turn<ProtoKey, DescriptorPart, Text>, Memory> {
        Ok(Turn::Ask(
            ProtoKey::Checks(key.copy()?),
            DescriptorPart::ReadChecks(key.copy()?),
        ))
    }

    fn advance(
        &self,
        alloc: Global,
        part: DescriptorPart,
        answer: &Answer<ProtoKey, ProtoValue>,
    ) -> Result<Turn<ProtoKey, DescriptorPart, Text>, DescriptorPart> {
        match part {
            DescriptorPart::ReadChecks(file) => match after_checks(alloc, &file, answer) {
                Ok(turn) => Ok(turn),
                Err(_) => Err(DescriptorPart::ReadChecks(file)),
            },
            DescriptorPart::ReadItems(file) => match after_items(alloc, &file, answer) {
                Ok(turn) => Ok(turn),
                Err(_) => Err(DescriptorPart::ReadItems(file)),
            },
            DescriptorPart::ReadResolved(file, items) => {
                match descriptor_text(
                    alloc,
                    file.as_str(),
                    items.get().nodes(),
                    references_in(answer),
                ) {
                    Ok(text) => Ok(Turn::Done(text)),
                    Err(_) => Err(DescriptorPart::ReadResolved(file, items)),
                }
            }
        }
    }

    fn left(&self, part: &DescriptorPart) -> (u32, u64) {
        match part {
            DescriptorPart::ReadChecks(_) => (2, 0),
            DescriptorPart::ReadItems(_) => (1, 0),
            DescriptorPart::ReadResolved(_, _) => (0, 0),
        }
    }
}
