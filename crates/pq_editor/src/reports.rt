//! The report of the diagnostics of all files.
//!
//! The list of each file was printed before. It is put in as it is, and not read.
ghost use Rattle.std.specs.Prelude.{◌≡◌, ◌++◌, IfOk, OnOk, Some, codes, option_map, string_bytes};
ghost use Rattle.serde_json.specs.Data.{string};
ghost use Rattle.serde_json.specs.View.{view};
ghost use Rattle.serde_json.specs.Written.{compact_text};
ghost use Rattle.pq_editor.specs.Reports.{version_text as text_of_version, kind_text, rest_text as text_of_rest, file_text, later_text, files_text, workspace_text as text_of_workspace};

use crate::Memory;
use serde_json::Value;
use std::alloc::Global;

/// The diagnostics of one file, for the report of all files.
#[derive(Debug, Drop)]
pub struct FileReport {
    /// The URI of the file.
    pub uri: String,
    /// The number that is the `resultId` of its list.
    pub result: u64,
    /// The JSON array of its diagnostics, or `None` if the editor has it.
    pub list: Option<String>,
    /// The version of its document, or `None` if it is not open.
    pub version: Option<i64>,
}

/// `text` as a JSON string.
fn json_string(alloc: Global, text: &str) -> Result<String, Memory>
    ensures { IfOk result (λ s. string_bytes s ≡ compact_text (string text.now)) }
{
    Value::try_from_str(alloc, text)?.to_string(alloc)
}

/// The JSON text of the version of a document.
fn version_text(alloc: Global, version: Option<i64>) -> Result<String, Memory>
    ensures { IfOk result (λ s. string_bytes s ≡ text_of_version version) }
{
    match version {
        Some(version) => format!(in alloc; "{version}"),
        None => String::from_str(alloc, "null"),
    }
}

/// The members of `report` after its kind, and its end.
fn rest_text(alloc: Global, report: &FileReport) -> Result<String, Memory>
    ensures { IfOk result (λ s. string_bytes s ≡ text_of_rest report.now) }
{
    let result = report.result;
    let uri = json_string(alloc, report.uri.as_str())?;
    let version = version_text(alloc, report.version)?;
    format!(in alloc; ",\"resultId\":\"{result}\",\"uri\":{uri},\"version\":{version}}}")
}

/// Adds the start of the report of a file that has the list `list`.
fn push_full(out: &mut String, list: &str) -> Result<(), Memory>
    ensures { OnOk result (string_bytes out.new ≡ string_bytes out.old ++ kind_text (Some list.now)) }
{
    out.push_str("{\"items\":")?;
    out.push_str(list)?;
    out.push_str(",\"kind\":\"full\"")?;
    Ok(())
}

/// Adds the report of a file up to its kind.
fn push_kind(out: &mut String, list: &Option<String>) -> Result<(), Memory>
    ensures { OnOk result (string_bytes out.new ≡ string_bytes out.old ++ kind_text (option_map string_bytes list.now)) }
{
    match list {
        Some(list) => push_full(out, list.as_str()),
        None => {
            out.push_str("{\"kind\":\"unchanged\"")?;
            Ok(())
        }
    }
}

/// Adds the report of one file.
fn push_file(out: &mut String, alloc: Global, report: &FileReport) -> Result<(), Memory>
    ensures { OnOk result (string_bytes out.new ≡ string_bytes out.old ++ file_text report.now) }
{
    let rest = rest_text(alloc, report)?;
    push_kind(out, &report.list)?;
    out.push_str(rest.as_str())?;
    Ok(())
}

/// Adds the report of one file after a comma.
fn push_later(out: &mut String, alloc: Global, report: &FileReport) -> Result<(), Memory>
    ensures { OnOk result (string_bytes out.new ≡ string_bytes out.old ++ (codes "," ++ file_text report.now)) }
{
    out.push_str(",")?;
    push_file(out, alloc, report)
}

/// Adds the reports of files, each after a comma.
fn push_each(out: &mut String, alloc: Global, reports: &[FileReport]) -> Result<(), Memory>
    ensures { OnOk result (string_bytes out.new ≡ string_bytes out.old ++ later_text reports.now) }
{
    'reports: for report in reports {
        push_later(out, alloc, report)?;
    }
    Ok(())
}

/// Adds the reports of files, with commas between.
fn push_files(out: &mut String, alloc: Global, reports: &[FileReport]) -> Result<(), Memory>
    ensures { OnOk result (string_bytes out.new ≡ string_bytes out.old ++ files_text reports.now) }
{
    match reports.split_first() {
        Some((first, rest)) => {
            push_file(out, alloc, first)?;
            push_each(out, alloc, rest)
        }
        None => Ok(()),
    }
}

/// The result of `workspace/diagnostic` (LSP 3.17, "WorkspaceDiagnosticReport"): the reports of the
/// files of `reports`, in their order. A file with a list has a full report, and a file without one has
/// not changed. Lists are JSON texts, and are put in as they are.
///
/// It takes time and memory linear in the text. Only `Memory` is an error, after an allocation
/// failure.
pub fn workspace_text(alloc: Global, reports: &[FileReport]) -> Result<String, Memory>
    // The text of the report, into which the printed lists are put.
    ensures { IfOk result (λ s. string_bytes s ≡ text_of_workspace reports.now) }
{
    let mut out = String::from_str(alloc, "{\"items\":[")?;
    push_files(&mut out, alloc, reports)?;
    out.push_str("]}")?;
    Ok(out)
}
