//! The symbols of a file, printed in one go.
ghost use Rattle.std.specs.Prelude.{◌≡◌, ◌++◌, IfOk, OnOk};
ghost use Rattle.std.specs.Option.{option_map};
ghost use Rattle.pq_proto.specs.Compile.{position_in, symbols_of};
ghost use Rattle.pq_proto.specs.Symbols.{span_data, symbol_data, symbols_by, symbols_in};
ghost use Rattle.pq_proto.specs.aux.Printed.{tokens_of, values_of};
ghost use Rattle.pq_proto.specs.aux.Rests.{left};
ghost use Rattle.pq_proto.specs.aux.Views.{kind_named};

use crate::Memory;
use crate::bodies::{Body, Held, sizes_of};
use crate::files::{position_in, statements};
use crate::printing::printer::Printer;
use crate::printing::ranges::print_range;
use pq_lex::Span;
use pq_links::ParsedFile;
use pq_names::Text;
use pq_syntax::{Name, Statement};
use std::alloc::Global;

/// Prints the span `span` as a range.
fn print_span(out: &mut Printer, file: &ParsedFile, span: Span) -> Result<(), Memory>
    ensures { OnOk result (out.new ≡ out.old ++ tokens_of (span_data (position_in file.now) span)) }
{
    print_range(
        out,
        position_in(file, span.start),
        position_in(file, span.end),
    )
}

/// The kind and the name of the symbol that `statement` declares, if it declares one.
fn symbol_of(statement: &Statement) -> Option<(u64, &Name)>
    ensures { option_map (λ p. (p.0, p.1.now)) result ≡ kind_named statement.now }
{
    match statement {
        Statement::Message { name } => Some((23, name)),
        Statement::Field { name, .. } => Some((8, name)),
        Statement::MapField { name, .. } => Some((8, name)),
        Statement::Enum { name } => Some((10, name)),
        Statement::Value { name, .. } => Some((22, name)),
        Statement::Service { name } => Some((11, name)),
        Statement::Method { name, .. } => Some((6, name)),
        Statement::Import { .. }
        | Statement::Package { .. }
        | Statement::Option(_)
        | Statement::Oneof { .. }
        | Statement::ReservedNumbers(_)
        | Statement::ReservedNames(_)
        | Statement::Extend { .. } => None,
    }
}

/// Prints the symbols of `body`, one after the other.
#[cycle(symbols)]
fn print_each_symbol(out: &mut Printer, file: &ParsedFile, body: &Body<'_>) -> Result<(), Memory>
    ensures { OnOk result (out.new
        ≡ out.old ++ values_of (symbols_in (position_in file.now) (left body.now))) }
{
    let mut rest = body.copy();
    'statements: while let Some(held) = rest.next() {
        print_symbols_at(out, file, &held)?;
    }
    Ok(())
}

/// Prints the symbols that the statement `held` adds.
#[cycle(symbols)]
fn print_symbols_at(out: &mut Printer, file: &ParsedFile, held: &Held<'_>) -> Result<(), Memory>
    ensures { OnOk result (out.new ≡ out.old ++ values_of (symbols_by (position_in file.now)
        held.now.node.now.span (symbols_in (position_in file.now) (left held.now.inside)) held.now.node.now.statement)) }
{
    if let Statement::Oneof { .. } = &held.node.statement {
        return print_each_symbol(out, file, &held.inside);
    }
    match symbol_of(&held.node.statement) {
        Some((kind, name)) => print_symbol(out, file, kind, name, held),
        None => Ok(()),
    }
}

/// Prints the symbol of the kind `kind` and the name `name` that the statement `held` declares.
#[cycle(symbols)]
#[tactic(auto, using(crate::proofs::ListSteps::list_tokens))]
fn print_symbol(
    out: &mut Printer,
    file: &ParsedFile,
    kind: u64,
    name: &Name,
    held: &Held<'_>,
) -> Result<(), Memory>
    ensures { OnOk result (out.new ≡ out.old ++ tokens_of (symbol_data (position_in file.now) kind
        name.now held.now.node.now.span (symbols_in (position_in file.now) (left held.now.inside)))) }
{
    out.begin_object()?;
    out.key("children")?;
    out.begin_array()?;
    print_each_symbol(out, file, &held.inside)?;
    out.end_array()?;
    out.unsigned_member("kind", kind)?;
    out.text_member("name", name.text.as_str())?;
    out.key("range")?;
    print_span(out, file, held.node.span)?;
    out.key("selectionRange")?;
    print_span(out, file, name.span)?;
    out.end_object()?;
    Ok(())
}

/// The text of the list of the symbols of a file that is read as `file` (Language Server Protocol
/// 3.17, "Document Symbols Request").
///
/// It is JSON without white space, and `[]` for an absent file. Of a text with a syntax error it has
/// what braces show, if they are read. Only
/// `Memory` is an error, after an allocation failure.
#[tactic(auto, using(crate::proofs::ListSteps::list_tokens))]
pub fn symbols_text(alloc: Global, file: &ParsedFile) -> Result<Text, Memory>
    // The text is the compact JSON text of the list of the symbols of the file as it is read.
    ensures { IfOk result (λ t. t ≡ symbols_of file.now) }
{
    let nodes = statements(file);
    let sizes = sizes_of(alloc, nodes)?;
    let mut out = Printer::new(alloc);
    out.begin_array()?;
    print_each_symbol(&mut out, file, &Body::of(nodes, sizes.as_slice()))?;
    out.end_array()?;
    out.into_text(alloc)
}
