//! The report of the diagnostics of a file (LSP 3.17, "Diagnostic",
//! "RelatedFullDocumentDiagnosticReport"), printed token by token.
//!
//! Each function takes to whom it prints, as `severities` says. `Any` gets each diagnostic as it is.
//! An editor gets those that it is shown, with the severities of `severities`. The message of an
//! import that is not found is then followed by the text `looked`, which names the folders.
ghost use Rattle.std.specs.Prelude.{◌≡◌, ◌++◌, ◌∷◌, [], codes, cond, OnOk};
ghost use Rattle.json.specs.Token.{key, string};
ghost use Rattle.pq_proto.specs.aux.Printed.{tokens_of, values_of};
ghost use Rattle.pq_session.specs.Editor.{is_missing as is_missing_code, shown_message, item_data};
ghost use Rattle.pq_session.specs.aux.Shown.{shown_tokens, printed_data, printed_items, printed_report};

use crate::protocol::severities::{Reader, is_shown, severity_of, shown_severity};
use pq_checks::{Code, Diagnosed, Diagnostic};
use pq_links::ParsedFile;
use pq_proto::{Printer, position_in, print_range};
use std::alloc::{AllocError, Global};

/// Whether `code` is that of an import that is not found.
fn is_missing(code: Code) -> bool
    ensures { result ≡ is_missing_code code }
{
    matches!(code, Code::ImportNotFound)
}

/// Prints the message `message` and `looked` as one text.
fn print_both(
    alloc: Global,
    out: &mut Printer,
    message: &str,
    looked: &str,
) -> Result<(), AllocError>
    ensures { OnOk result (out.new ≡ out.old ++ (key (codes "message") ∷ string (message.now ++ looked.now) ∷ [])) }
{
    let mut text = String::from_str(alloc, message)?;
    text.push_str(looked)?;
    out.text_member("message", text.as_str())
}

/// Prints the member `message` of `diagnostic`: its message, and `looked` after it where an import is
/// not found.
fn print_message(
    alloc: Global,
    out: &mut Printer,
    looked: &str,
    diagnostic: &Diagnostic,
) -> Result<(), AllocError>
    ensures { OnOk result (out.new ≡ out.old ++ (key (codes "message") ∷ string (shown_message looked.now diagnostic.now) ∷ [])) }
{
    let message = diagnostic.text.as_str();
    if is_missing(diagnostic.code) {
        return print_both(alloc, out, message, looked);
    }
    out.text_member("message", message)
}

/// Prints the diagnostic `diagnostic` of a file that is read as `file`, with a severity of this
/// number.
fn print_diagnostic(
    alloc: Global,
    out: &mut Printer,
    severity: u64,
    looked: &str,
    file: &ParsedFile,
    diagnostic: &Diagnostic,
) -> Result<(), AllocError>
    ensures { OnOk result (out.new ≡ out.old ++ tokens_of (item_data severity (shown_message looked.now diagnostic.now) file.now diagnostic.now)) }
{
    let start = position_in(file, diagnostic.start);
    let end = position_in(file, diagnostic.end);
    out.begin_object()?;
    out.text_member("code", diagnostic.code.as_str())?;
    print_message(alloc, out, looked, diagnostic)?;
    out.key("range")?;
    print_range(out, start, end)?;
    out.unsigned_member("severity", severity)?;
    out.text_member("source", "proto")?;
    out.end_object()?;
    Ok(())
}

/// Prints the diagnostic `diagnostic` of a file that is read as `file`, with a severity of this
/// number, if `holds`.
fn print_if(
    alloc: Global,
    out: &mut Printer,
    holds: bool,
    severity: u64,
    looked: &str,
    file: &ParsedFile,
    diagnostic: &Diagnostic,
) -> Result<(), AllocError>
    ensures { OnOk result (out.new ≡ out.old ++ cond holds (tokens_of (item_data severity (shown_message looked.now diagnostic.now) file.now diagnostic.now)) []) }
{
    if holds {
        return print_diagnostic(alloc, out, severity, looked, file, diagnostic);
    }
    Ok(())
}

/// Prints `diagnostic` of a file that is read as `file`, if `reader` gets it.
#[tactic(auto, using(crate::proofs::EditorLemmas::printed_plain))]
fn print_shown(
    alloc: Global,
    out: &mut Printer,
    reader: Reader,
    looked: &str,
    file: &ParsedFile,
    diagnostic: &Diagnostic,
) -> Result<(), AllocError>
    ensures { OnOk result (out.new ≡ out.old ++ shown_tokens reader looked.now file.now diagnostic.now) }
{
    match reader {
        Reader::Any => {
            let severity = severity_of(diagnostic.code);
            print_diagnostic(alloc, out, severity, "", file, diagnostic)
        }
        Reader::Editor { unread } => {
            let holds = is_shown(unread, diagnostic);
            let severity = shown_severity(unread, diagnostic.code);
            print_if(alloc, out, holds, severity, looked, file, diagnostic)
        }
    }
}

/// Prints those of the diagnostics `diagnostics` of a file that is read as `file` that `reader` gets,
/// one after the other.
fn print_diagnostics(
    alloc: Global,
    out: &mut Printer,
    reader: Reader,
    looked: &str,
    file: &ParsedFile,
    diagnostics: &[Diagnostic],
) -> Result<(), AllocError>
    ensures { OnOk result (out.new
        ≡ out.old ++ values_of (printed_data reader looked.now file.now diagnostics.now)) }
{
    'diagnostics: for diagnostic in diagnostics {
        print_shown(alloc, out, reader, looked, file, diagnostic)?;
    }
    Ok(())
}

/// Prints the list of the diagnostics `diagnosed`.
pub(crate) fn print_list(
    alloc: Global,
    out: &mut Printer,
    reader: Reader,
    looked: &str,
    diagnosed: &Diagnosed,
) -> Result<(), AllocError>
    ensures { OnOk result (out.new ≡ out.old ++ tokens_of (printed_items reader looked.now diagnosed.now)) }
{
    out.begin_array()?;
    print_diagnostics(
        alloc,
        out,
        reader,
        looked,
        diagnosed.file.get(),
        diagnosed.diagnostics.as_slice(),
    )?;
    out.end_array()?;
    Ok(())
}

/// Prints the report of the diagnostics `diagnosed` at a revision of the sources, its `resultId`.
pub(crate) fn print_report(
    alloc: Global,
    out: &mut Printer,
    reader: Reader,
    looked: &str,
    diagnosed: &Diagnosed,
    revision: u64,
) -> Result<(), AllocError>
    ensures { OnOk result (out.new
        ≡ out.old ++ tokens_of (printed_report reader looked.now diagnosed.now revision)) }
{
    let number = format!(in alloc; "{revision}")?;
    out.begin_object()?;
    out.key("items")?;
    print_list(alloc, out, reader, looked, diagnosed)?;
    out.text_member("kind", "full")?;
    out.text_member("resultId", number.as_str())?;
    out.end_object()?;
    Ok(())
}
