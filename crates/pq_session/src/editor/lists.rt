//! The list of the diagnostics that a reply answers, as it is sent to an editor.
//!
//! The list is printed once, in time linear in its text.
ghost use Rattle.std.specs.Prelude.{◌≡◌, option_map, string_bytes, IfOk};
ghost use Rattle.pq_session.specs.Editor.{shown_list as list_shown, list_of, answered_diagnostics as diagnostics_answered, outcome_value};

use crate::protocol::reports::print_list;
use crate::protocol::severities::{Reader, has_unread};
use pq_checks::Diagnosed;
use pq_core::{Outcome, Reply};
use pq_proto::{Printer, ProtoKey, ProtoValue};
use pq_rules::Answer;
use std::alloc::{AllocError, Global};
use std::marker::Model;

/// The diagnostics of a file as an editor is shown them: a JSON array of them (LSP 3.17,
/// "Diagnostic"), and the revision at which they hold.
#[derive(Debug, Drop)]
pub struct DiagnosticList {
    pub(crate) revision: u64,
    pub(crate) text: String,
}

impl Model for DiagnosticList {
    ghost use Rattle.std.specs.Prelude.{string_bytes};
    ghost use Rattle.pq_session.specs.Editor.{ListView};

    ghost Value = { ListView };

    ghost view = { λ list. record { revision = list.revision; text = string_bytes list.text } };
}

impl DiagnosticList {
    /// The number of the revision of the sources at which the diagnostics hold.
    pub fn revision(&self) -> u64
        // The revision at which the list holds.
        ensures { result ≡ self.now.revision }
    {
        self.revision
    }

    /// The JSON array of the diagnostics, without white space.
    pub fn text(&self) -> &str
        // The text of the list.
        ensures { result.now ≡ self.now.text }
    {
        self.text.as_str()
    }
}

/// The value of a request that ended in `outcome`, if it was answered with one.
pub(crate) fn outcome_value<M>(outcome: &Outcome<ProtoKey, ProtoValue, M>) -> Option<&ProtoValue>
    ensures { option_map (λ value. value.now) result ≡ outcome_value outcome.now }
{
    match outcome {
        Outcome::Answered(answer, _) => match answer.get() {
            Answer::Value(value) => Some(value),
            Answer::Cycle(_) => None,
        },
        _ => None,
    }
}

/// The diagnostics that `reply` answers, if it answers some.
pub(crate) fn answered_diagnostics<M>(reply: &Reply<ProtoKey, ProtoValue, M>) -> Option<&Diagnosed>
    ensures { option_map (λ d. d.now) result ≡ diagnostics_answered reply.now }
{
    match outcome_value(reply.outcome())? {
        ProtoValue::Diagnostics(diagnosed) => Some(diagnosed.get()),
        _ => None,
    }
}

/// The JSON array of the diagnostics `diagnosed`.
fn shown_list(alloc: Global, looked: &str, diagnosed: &Diagnosed) -> Result<String, AllocError>
    ensures { IfOk result (λ text. string_bytes text ≡ list_shown looked.now diagnosed.now) }
{
    let unread = has_unread(diagnosed.diagnostics.as_slice());
    let mut out = Printer::new(alloc);
    print_list(
        alloc,
        &mut out,
        Reader::Editor { unread },
        looked,
        diagnosed,
    )?;
    Ok(out.into_string())
}

/// The list of the diagnostics that `reply` answers, at the revision of `reply`. It is `None` for each
/// reply that answers no diagnostics: a cancelled, starved, withdrawn or plain one, and an answer of
/// another kind.
///
/// The parts of the file that are not read (P020, P021, P022) are left out, since they are correct.
/// An import of a file with a syntax error (P104) is left out, since that file shows the error itself.
/// Where there is one, the names of types that resolve to nothing (P150) have the severity of
/// information (LSP 3.17, "DiagnosticSeverity"). Each other error has the severity of its code.
///
/// The message of an import that is not found (P102) is followed by `looked`, as [`looked_in`] makes
/// it. Each other error has its own message.
///
/// Only `Memory` is an error, after an allocation failure.
///
/// [`looked_in`]: crate::looked_in
pub fn diagnostic_list<M>(
    alloc: Global,
    looked: &str,
    reply: &Reply<ProtoKey, ProtoValue, M>,
) -> Result<Option<DiagnosticList>, AllocError>
    // The list of the diagnostics that a reply answers, at the revision of the reply; `None` for a
    // reply that answers none. P020, P021 and P022 are not in the list. Where an import has a syntax
    // error, P104 is not in the list, and P150 is information. The text `looked` follows the message of
    // P102.
    ensures { IfOk result (λ list. list ≡ list_of looked.now reply.now) }
{
    match answered_diagnostics(reply) {
        Some(diagnosed) => Ok(Some(DiagnosticList {
            revision: reply.revision().number(),
            text: shown_list(alloc, looked, diagnosed)?,
        })),
        None => Ok(None),
    }
}
