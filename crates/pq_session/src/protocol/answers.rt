//! The texts of replies, by the outcome of the request and by the kind of its answer.
ghost use Rattle.std.specs.Prelude.{◌≡◌, IfOk, string_bytes};
ghost use Rattle.pq_session.specs.Labels.{label_model};
ghost use Rattle.pq_session.specs.Reply.{located_text as text_of_located, location_text as text_of_location};
ghost use Rattle.pq_session.specs.aux.Shown.{printed_text};
ghost use Rattle.pq_session.specs.Replies.{value_text as text_of_value, answer_text as text_of_answer, reply_text as text_of_reply};

use crate::protocol::locations::print_location;
use crate::protocol::refusals::Refusal;
use crate::protocol::replies::{cancelled_text, null_text, refusal_text};
use crate::protocol::reports::print_report;
use crate::protocol::results::{descriptor_text, print_start, result_text};
use crate::protocol::root::Root;
use crate::protocol::severities::Reader;
use pq_checks::Diagnosed;
use pq_core::{Label, Outcome, Reply, Want};
use pq_proto::{Location, Printer, ProtoKey, ProtoValue};
use pq_rules::Answer;
use std::alloc::{AllocError, Global};

/// The bytes for which there is room at first, for a response and for each of its diagnostics.
const EACH: usize = 256;

/// The response that reports to `reader` the diagnostics `diagnosed` of a file at a revision of the
/// sources.
pub(crate) fn diagnostics_text(
    alloc: Global,
    label: &Label,
    reader: Reader,
    looked: &str,
    diagnosed: &Diagnosed,
    revision: u64,
) -> Result<String, AllocError>
    ensures { IfOk result (λ s. string_bytes s
        ≡ printed_text (label_model label.now) reader looked.now diagnosed.now revision) }
{
    let count = diagnosed.diagnostics.as_slice().len();
    let room = count.saturating_mul(EACH).saturating_add(EACH);
    let mut out = Printer::with_capacity(alloc, room)?;
    print_start(&mut out, label)?;
    print_report(alloc, &mut out, reader, looked, diagnosed, revision)?;
    out.end_object()?;
    Ok(out.into_string())
}

/// The response of a definition at the range of `location`, in the file of `uri`.
pub(crate) fn located_text(
    alloc: Global,
    uri: &str,
    label: &Label,
    location: &Location,
) -> Result<String, AllocError>
    ensures { IfOk result (λ s. string_bytes s
        ≡ text_of_located (label_model label.now) uri.now location.now) }
{
    let start = location.start.position();
    let end = location.end.position();
    let mut out = Printer::new(alloc);
    print_start(&mut out, label)?;
    print_location(&mut out, uri, start, end)?;
    out.end_object()?;
    Ok(out.into_string())
}

/// The response of a definition at `location`, with the URI that its file has below `root`.
fn location_text(
    alloc: Global,
    root: &Root,
    label: &Label,
    location: &Location,
) -> Result<String, AllocError>
    ensures { IfOk result (λ s. string_bytes s
        ≡ text_of_location (label_model label.now) root.now location.now) }
{
    let uri = root.uri_of(alloc, location.file.as_str())?;
    located_text(alloc, uri.as_str(), label, location)
}

/// The response of `value`, which a key has at `revision`. A value that no request asks for gives
/// null.
fn value_text(
    alloc: Global,
    root: &Root,
    label: &Label,
    revision: u64,
    value: &ProtoValue,
) -> Result<String, AllocError>
    ensures { IfOk result (λ s. string_bytes s
        ≡ text_of_value root.now (label_model label.now) revision value.now) }
{
    match value {
        ProtoValue::Diagnostics(diagnosed) => {
            diagnostics_text(alloc, label, Reader::Any, "", diagnosed.get(), revision)
        }
        ProtoValue::Symbols(symbols) => result_text(alloc, label, symbols.as_str()),
        ProtoValue::Definition(Some(location)) => location_text(alloc, root, label, location),
        ProtoValue::Definition(None) => null_text(alloc, label),
        ProtoValue::Descriptor(descriptor) => {
            descriptor_text(alloc, label, descriptor.as_str(), revision)
        }
        _ => null_text(alloc, label),
    }
}

/// The response of `answer`, which a key has at `revision`.
pub(crate) fn answer_text(
    alloc: Global,
    root: &Root,
    label: &Label,
    revision: u64,
    answer: &Answer<ProtoKey, ProtoValue>,
) -> Result<String, AllocError>
    ensures { IfOk result (λ s. string_bytes s
        ≡ text_of_answer root.now (label_model label.now) revision answer.now) }
{
    match answer {
        Answer::Value(value) => value_text(alloc, root, label, revision, value),
        Answer::Cycle(_) => null_text(alloc, label),
    }
}

/// The text of the reply to a request: the whole body of its response (JSON-RPC 2.0, "Response
/// object"). The URI of a definition is below `root`, the root of the client's session.
///
/// An answer is printed by the kind of its value: the report of the diagnostics, with the revision
/// as its `resultId`; the list of the symbols; the location of the definition, or null; the
/// descriptor, with the revision. A plain reply has the text of its request. A cancelled one is the
/// error -32801 with the two revisions, a starved one the error -32603, and a withdrawn one the error
/// -32800. The stamp of an answer is not printed.
///
/// Diagnostics and locations are printed into the reply. A text of an answer is copied into it, and
/// not read again. Only `Memory` is an error, after
/// an allocation failure.
pub fn reply_text<M>(
    alloc: Global,
    root: &Root,
    reply: &Reply<ProtoKey, ProtoValue, M>,
) -> Result<String, AllocError>
    // The text of a reply by its outcome: an answer, the fixed text, content modified with both
    // revisions, request cancelled, or out of memory.
    ensures { IfOk result (λ s. string_bytes s ≡ text_of_reply root.now reply.now) }
{
    let request = reply.request();
    let label = &request.label;
    match (reply.outcome(), &request.want) {
        (Outcome::Answered(answer, _), _) => {
            answer_text(alloc, root, label, reply.revision().number(), answer.get())
        }
        (Outcome::Plain, Want::Fixed(text)) => String::from_str(alloc, text.as_str()),
        (Outcome::Plain, Want::Demand(_)) => null_text(alloc, label),
        (Outcome::Cancelled { started, seen }, _) => {
            cancelled_text(alloc, label, started.number(), seen.number())
        }
        (Outcome::Starved, _) => refusal_text(alloc, label, Refusal::OutOfMemory),
        (Outcome::Withdrawn, _) => refusal_text(alloc, label, Refusal::RequestCancelled),
    }
}
