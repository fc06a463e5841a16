//! The diagnostics of files that are not read.
ghost use Rattle.std.specs.Prelude.{◌≡◌, IfOk, string_bytes};
ghost use Rattle.serde_json.specs.View.{view};
ghost use Rattle.pq_editor.specs.Faults.{fault_message, fault_data, fault_items, list_text, report_data, report_text};

use crate::Memory;
use crate::places::range_value;
use pq_lex::Position;
use serde_json::{Value, json};
use std::alloc::Global;

/// Why a file is not read.
#[derive(Clone, Copy, Debug, PartialEq, Eq)]
pub enum FileFault {
    /// Its text has more than 1,048,576 bytes.
    TooLong,
    /// Its text is not UTF-8.
    NotUtf8,
    /// More than 65,536 files are open or imported.
    TooMany,
}

impl FileFault {
    /// What is said of the file.
    pub fn message(self) -> &'static str
        // The message of the refusal, with the limit that the file passes.
        ensures { result.now ≡ fault_message self }
    {
        match self {
            FileFault::TooLong => {
                "the file is not checked: its text has more than 1048576 bytes"
            }
            FileFault::NotUtf8 => "the file is not checked: its text is not UTF-8",
            FileFault::TooMany => {
                "the file is not checked: more than 65536 files are open or imported"
            }
        }
    }
}

/// The diagnostic of a file that is not read.
fn fault_value(alloc: Global, fault: FileFault) -> Result<Value, Memory>
    ensures { IfOk result (λ v. view v ≡ fault_data fault) }
{
    let start = Position {
        line: 0,
        character: 0,
    };
    let range = range_value(alloc, start, start)?;
    let message = fault.message();
    json!(in alloc; {"message": message, "range": range, "severity": 1u64, "source": "proto"})
}

/// The list of the diagnostics of a file that is not read.
fn items_value(alloc: Global, fault: FileFault) -> Result<Value, Memory>
    ensures { IfOk result (λ v. view v ≡ fault_items fault) }
{
    let diagnostic = fault_value(alloc, fault)?;
    json!(in alloc; [diagnostic])
}

/// The report of a file that is not read.
fn report_value(alloc: Global, fault: FileFault) -> Result<Value, Memory>
    ensures { IfOk result (λ v. view v ≡ report_data fault) }
{
    let items = items_value(alloc, fault)?;
    json!(in alloc; {"items": items, "kind": "full"})
}

/// The JSON array of the diagnostics of a file that is not read (LSP 3.17, "Diagnostic"): one error at
/// the first position, with the message of `fault` and no code.
///
/// Only `Memory` is an error, after an allocation failure.
pub fn fault_list(alloc: Global, fault: FileFault) -> Result<String, Memory>
    // The list of one error, which says why the file is not read.
    ensures { IfOk result (λ s. string_bytes s ≡ list_text fault) }
{
    items_value(alloc, fault)?.to_string(alloc)
}

/// The result of `textDocument/diagnostic` about a file that is not read (LSP 3.17,
/// "FullDocumentDiagnosticReport"): the list of [`fault_list`], without a `resultId`.
///
/// Only `Memory` is an error, after an allocation failure.
pub fn fault_report(alloc: Global, fault: FileFault) -> Result<String, Memory>
    // The full report of that list.
    ensures { IfOk result (λ s. string_bytes s ≡ report_text fault) }
{
    report_value(alloc, fault)?.to_string(alloc)
}
