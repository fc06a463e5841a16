//! The query of a file's diagnostics, generic over the sum of queries in which it is used.
//!
//! It asks what the file is read as, and then, if that is a tree, its errors by the table. In the
//! tree each error has a span. The diagnostics are sorted in N log N time for N errors. The table
//! has no line for a file without a tree, so an absent file costs two memos and no more.
ghost use Rattle.std.specs.Prelude.{◌≡◌, ◌++◌, IfOk, filter_map};
ghost use Rattle.pq_checks.specs.DiagnosticOrder.{diagnostic_cmp};
ghost use Rattle.pq_checks.specs.Diagnostics.{diagnosed, diagnostic_at, diagnostics_of, has_tree, parsed_diagnostics, syntax_diagnostic};
ghost use Rattle.pq_checks.specs.InOrder.{in_order};
ghost use Rattle.pq_checks.specs.aux.DiagnosticsTurns.{diagnostics_level, diagnostics_starts, diagnostics_advances, diagnostics_falls, diagnostics_left, file_turn, listed_at};

use crate::Memory;
use crate::errors::code::{said_code, said_text};
use crate::errors::diagnostic::{Diagnosed, Diagnostic};
use crate::errors::fault::Fault;
use crate::queries::answered::{faults_in, file_in};
use crate::queries::keys::CheckKeys;
use crate::queries::order::put_in_order;
use pq_lex::Span;
use pq_links::{ParsedFile, place};
use pq_rules::{Query, Shared, Text, Turn};
use pq_syntax::{Code as SyntaxCode, File, Items, Parsed};
use std::alloc::Global;
use std::marker::PhantomData;

/// What the rule of a file's diagnostics does with the next answer.
#[derive(Drop)]
pub enum DiagnosticsPart {
    /// The answer is what the file is read as. The field is its name.
    ReadFile(Text),
    /// The answer is the errors of the file by the table. The field is what it is read as.
    ReadChecks(Shared<ParsedFile>),
}

/// The diagnostics of a file: its syntax error, or its errors by the table at the spans of their
/// places, in order (the law `diagnostics_by_answers`).
#[derive(Drop)]
pub struct DiagnosticsQuery<S> {
    sum: PhantomData<S>,
}

impl<S> DiagnosticsQuery<S> {
    /// Makes the query.
    pub fn new() -> Self {
        DiagnosticsQuery { sum: PhantomData }
    }
}

/// Adds the error `fault` at the span of its place in the tree `nodes`, if it has one.
fn push_placed(diagnostics: &mut Vec<Diagnostic>, nodes: &File, fault: &Fault) -> Result<(), Memory>
    ensures placed { IfOk result (λ _. diagnostics.new.items ≡ diagnostics.old.items ++ listed_at nodes.now fault.now) }
{
    if let Some(span) = place(nodes, fault.item, fault.part) {
        diagnostics.push(Diagnostic {
            start: span.start,
            end: span.end,
            code: fault.code,
            text: fault.text.copy()?,
        })?;
    }
    Ok(())
}

/// The errors `faults` at the spans of their places in the tree `nodes`.
fn placed(alloc: Global, nodes: &File, faults: &[Fault]) -> Result<Vec<Diagnostic>, Memory>
    ensures placed { IfOk result (λ ds. ds.items ≡ filter_map (diagnostic_at nodes.now) faults.now) }
{
    let mut diagnostics = Vec::with_capacity(alloc, faults.len())?;
    'each: for fault in faults {
        push_placed(&mut diagnostics, nodes, fault)?;
    }
    Ok(diagnostics)
}

/// The errors `faults` at the spans of their places in the tree `nodes`, in order, each once.
fn in_order(alloc: Global, nodes: &File, faults: &[Fault]) -> Result<Vec<Diagnostic>, Memory>
    ensures ordered { IfOk result (λ ds. ds.items ≡ in_order diagnostic_cmp (filter_map (diagnostic_at nodes.now) faults.now)) }
{
    let mut diagnostics = placed(alloc, nodes, faults)?;
    put_in_order(&mut diagnostics)?;
    Ok(diagnostics)
}

/// The syntax error `code` at `span` of a text, which is of another version of the language if
/// `other` is true.
fn syntax_diagnostic(
    alloc: Global,
    other: bool,
    span: Span,
    code: SyntaxCode,
) -> Result<Diagnostic, Memory>
    ensures is { IfOk result (λ d. d ≡ syntax_diagnostic other span code) }
{
    Ok(Diagnostic {
        start: span.start,
        end: span.end,
        code: said_code(other, code),
        text: Text::new(alloc, said_text(other, code))?,
    })
}

/// The diagnostics of a text with the tree or syntax error `parsed`, and the errors `faults`.
fn parsed_diagnostics(
    alloc: Global,
    other: bool,
    faults: &[Fault],
    parsed: &Parsed,
) -> Result<Vec<Diagnostic>, Memory>
    ensures diagnostics { IfOk result (λ ds. ds.items ≡ parsed_diagnostics other faults.now parsed.now) }
{
    match parsed {
        Parsed::Tree(nodes) => in_order(alloc, nodes, faults),
        Parsed::Fault { span, code } => {
            let mut diagnostics = Vec::new(alloc);
            diagnostics.push(syntax_diagnostic(alloc, other, *span, *code)?)?;
            Ok(diagnostics)
        }
    }
}

/// The diagnostics of a file that is read as `file`, and has the errors `faults`.
fn diagnostics_of(
    alloc: Global,
    faults: &[Fault],
    file: &ParsedFile,
) -> Result<Vec<Diagnostic>, Memory>
    ensures diagnostics { IfOk result (λ ds. ds.items ≡ diagnostics_of faults.now file.now) }
{
    match file {
        ParsedFile::Absent => Ok(Vec::new(alloc)),
        ParsedFile::Present { parsed, shown, .. } => parsed_diagnostics(
            alloc,
            shown.is_other,
            faults,
            parsed,
        ),
    }
}

/// These diagnostics with what the file is read as, to be shared.
fn diagnosed(
    alloc: Global,
    faults: &[Fault],
    file: Shared<ParsedFile>,
) -> Result<Shared<Diagnosed>, Memory>
    ensures diagnosed { IfOk result (λ d. d ≡ diagnosed faults.now file) }
{
    let diagnostics = Items::new(diagnostics_of(alloc, faults, file.get())?);
    Shared::new(alloc, Diagnosed { diagnostics, file })
}

/// Whether a file that is read as `file` has a tree.
fn has_tree(file: &ParsedFile) -> bool
    ensures tree { result ≡ has_tree file.now }
{
    match file {
        ParsedFile::Absent => false,
        ParsedFile::Present { parsed, .. } => matches!(parsed, Parsed::Tree(_)),
    }
}

/// The turn after what the file `file` is read as: the rule asks its errors if it has a tree, and
/// else it ends.
fn after_file<S: CheckKeys>(
    alloc: Global,
    file: &Text,
    answer: &S::Answer,
) -> Result<Turn<S::Key, DiagnosticsPart, Shared<Diagnosed>>, Memory>
    ensures turn { IfOk result (λ t. t ≡ file_turn S.checks file.now (S.parsed answer.now) (has_tree (S.parsed answer.now))) }
{
    let parsed = file_in::<S>(alloc, answer)?;
    if has_tree(parsed.get()) {
        return Ok(Turn::Ask(S::checks_key(file)?, DiagnosticsPart::ReadChecks(parsed)));
    }
    Ok(Turn::Done(diagnosed(alloc, &[], parsed)?))
}

/// The diagnostics of a file that is read as `file`, by the errors that `answer` holds.
fn after_checks<S: CheckKeys>(
    alloc: Global,
    file: &Shared<ParsedFile>,
    answer: &S::Answer,
) -> Result<Shared<Diagnosed>, Memory>
    ensures diagnosed { IfOk result (λ d. d ≡ diagnosed (S.checked answer.now) file.now) }
{
    let faults = faults_in::<S>(alloc, answer)?;
    diagnosed(alloc, faults.get().as_slice(), file.copy()?)
}

impl<S: CheckKeys> Query for DiagnosticsQuery<S> {
    type Key = Text;

    type Value = Shared<Diagnosed>;

    type Part = DiagnosticsPart;

    type AnyKey = S::Key;

    type AnyAnswer = S::Answer;

    const LEVEL: u8 = 9;

    ghost LEVEL = { diagnostics_level };

    ghost starts = { λ s k. diagnostics_starts S.parse k };

    ghost advances = { λ s p a. diagnostics_advances S.checks (S.checked a) (S.parsed a) p };

    ghost lefts = { λ s p. diagnostics_left p };

    ghost falls = { λ s p a q r e. diagnostics_falls S.checks (S.checked a) (S.parsed a) p q r e };

    fn start(
        &self,
        _alloc: Global,
        key: &Text,
    ) -> Result<Turn<S::Key, DiagnosticsPart, Shared<Diagnosed>>, Memory> {
        Ok(Turn::Ask(S::parse_key(key)?, DiagnosticsPart::ReadFile(key.copy()?)))
    }

    fn advance(
        &self,
        alloc: Global,
        part: DiagnosticsPart,
        answer: &S::Answer,
    ) -> Result<Turn<S::Key, DiagnosticsPart, Shared<Diagnosed>>, DiagnosticsPart> {
        match part {
            DiagnosticsPart::ReadFile(file) => match after_file::<S>(alloc, &file, answer) {
                Ok(turn) => Ok(turn),
                Err(_) => Err(DiagnosticsPart::ReadFile(file)),
            },
            DiagnosticsPart::ReadChecks(file) => match after_checks::<S>(alloc, &file, answer) {
                Ok(diagnosed) => Ok(Turn::Done(diagnosed)),
                Err(_) => Err(DiagnosticsPart::ReadChecks(file)),
            },
        }
    }

    fn left(&self, part: &DiagnosticsPart) -> (u32, u64) {
        match part {
            DiagnosticsPart::ReadFile(_) => (1, 0),
            DiagnosticsPart::ReadChecks(_) => (0, 0),
        }
    }
}
