//! What is read of an answer of the rule set. An answer of another kind reads as that of an absent
//! file.
ghost use Rattle.std.specs.Prelude.{◌≡◌, [], option_copied, unwrap_or};
ghost use Rattle.pq_links.specs.declared.file_items.FileItems.TheVariants.{Absent as NoItems};
ghost use Rattle.pq_links.specs.declared.files.ParsedFile.TheVariants.{Absent};
ghost use Rattle.pq_proto.specs.aux.Outputs.{faults_read, items_read, parsed_read, resolved_read};

use crate::key::ProtoKey;
use crate::value::ProtoValue;
use pq_checks::Fault;
use pq_links::{FileItems, ParsedFile};
use pq_rules::{Answer, Shared};
use pq_schema::{ResolvedReference, ResolvedReferences};
use pq_syntax::Items;

/// What `answer` says that a file is read as.
pub(crate) fn parsed_in<'a>(
    answer: &'a Answer<ProtoKey, ProtoValue>,
) -> Option<&'a Shared<ParsedFile>>
    ensures parsed { unwrap_or (option_copied result) Absent ≡ parsed_read answer.now }
{
    match answer {
        Answer::Value(ProtoValue::Parse(file)) => Some(file),
        _ => None,
    }
}

/// What `answer` says that a file is read as, without spans.
pub(crate) fn items_in<'a>(
    answer: &'a Answer<ProtoKey, ProtoValue>,
) -> Option<&'a Shared<FileItems>>
    ensures items { unwrap_or (option_copied result) NoItems ≡ items_read answer.now }
{
    match answer {
        Answer::Value(ProtoValue::Items(items)) => Some(items),
        _ => None,
    }
}

/// The resolved references that `answer` holds.
pub(crate) fn resolved_in<'a>(
    answer: &'a Answer<ProtoKey, ProtoValue>,
) -> Option<&'a Shared<ResolvedReferences>>
    ensures references { unwrap_or (option_copied result) [] ≡ resolved_read answer.now }
{
    match answer {
        Answer::Value(ProtoValue::Resolved(references)) => Some(references),
        _ => None,
    }
}

/// The errors of a file that `answer` holds.
pub(crate) fn checked_in<'a>(
    answer: &'a Answer<ProtoKey, ProtoValue>,
) -> Option<&'a Shared<Items<Fault>>>
    ensures faults { unwrap_or (option_copied result) [] ≡ faults_read answer.now }
{
    match answer {
        Answer::Value(ProtoValue::Checks(faults)) => Some(faults),
        _ => None,
    }
}

/// The errors of a file that `answer` holds, as a slice.
pub(crate) fn faults_in<'a>(answer: &'a Answer<ProtoKey, ProtoValue>) -> &'a [Fault]
    ensures faults { result.now ≡ faults_read answer.now }
{
    match checked_in(answer) {
        Some(faults) => faults.get().as_slice(),
        None => &[],
    }
}

/// The resolved references that `answer` holds, as a slice.
pub(crate) fn references_in<'a>(answer: &'a Answer<ProtoKey, ProtoValue>) -> &'a [ResolvedReference]
    ensures references { result.now ≡ resolved_read answer.now }
{
    match resolved_in(answer) {
        Some(references) => references.get().as_slice(),
        None => &[],
    }
}
