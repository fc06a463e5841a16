//! Which diagnostics an editor is shown, and their severities (LSP 3.17, "DiagnosticSeverity").
//!
//! The parts of a file that are not read (P020, P021, P022) are not told. They are correct, and an
//! editor would underline them in each file that has some.
//!
//! An import of a file with an error of its own is not told: that file shows the error. It has the
//! definitions that its braces show. So a name of a type that resolves to nothing may follow from the
//! error, and is shown as information.
ghost use Rattle.std.specs.Prelude.{◌≡◌};
ghost use Rattle.pq_checks.specs.Codes.{severity, severity_number};
ghost use Rattle.pq_session.specs.Editor.{is_unread as is_unread_code, is_unsaid as is_unsaid_code, has_unread as has_unread_import, may_follow as may_follow_unread, is_shown as is_shown_diagnostic, shown_severity as severity_shown};

use pq_checks::{Code, Diagnostic, Severity};

/// To whom diagnostics are printed.
#[derive(Clone, Copy)]
pub(crate) enum Reader {
    /// A client that gets each diagnostic as it is.
    Any,
    /// An editor, where `unread` is whether an import of the file is not read.
    Editor { unread: bool },
}

/// Whether `code` is that of an import that is not read.
fn is_unread(code: Code) -> bool
    ensures { result ≡ is_unread_code code }
{
    matches!(code, Code::ImportWithError)
}

/// Whether `code` is that of a part of a file that is not read, which no editor is told.
fn is_unsaid(code: Code) -> bool
    ensures { result ≡ is_unsaid_code code }
{
    matches!(
        code,
        Code::AggregateConstant | Code::ExtendBlock | Code::FloatConstant
    )
}

/// Whether one of `diagnostics` is an import that is not read.
pub(crate) fn has_unread(diagnostics: &[Diagnostic]) -> bool
    ensures { result ≡ has_unread_import diagnostics.now }
{
    diagnostics
        .iter()
        .any(|diagnostic| is_unread(diagnostic.code))
}

/// Whether an error of the code `code` may follow from an import that is not read.
fn may_follow(code: Code) -> bool
    ensures { result ≡ may_follow_unread code }
{
    matches!(code, Code::TypeNotFound)
}

/// Whether `diagnostic` is shown, where `unread` is whether an import of the file is not read.
pub(crate) fn is_shown(unread: bool, diagnostic: &Diagnostic) -> bool
    ensures { result ≡ is_shown_diagnostic unread diagnostic.now }
{
    !(unread && is_unread(diagnostic.code)) && !is_unsaid(diagnostic.code)
}

/// The number of the severity of an error of the code `code`.
pub(crate) fn severity_of(code: Code) -> u64
    ensures { result ≡ severity_number (severity code) }
{
    u64::from(code.severity().number())
}

/// The number of the severity that is shown of an error of the code `code`, where `unread` is whether
/// an import of the file is not read.
pub(crate) fn shown_severity(unread: bool, code: Code) -> u64
    ensures { result ≡ severity_shown unread code }
{
    if unread && may_follow(code) {
        return u64::from(Severity::Information.number());
    }
    severity_of(code)
}
