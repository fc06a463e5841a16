//! A file: its syntax line, and its statements (proto3 language specification, "Proto file").

ghost use Rattle.std.specs.Prelude.{ℕ, ◌<◌, ◌≡◌, IfErr, IfOk, Ok, Err};
ghost use Rattle.pq_syntax.specs.Grammar.{file_item, import', opt, package', syntax'};
ghost use Rattle.pq_syntax.specs.Parts.{list_of};
ghost use Rattle.pq_syntax.specs.aux.Reading.{reading};
ghost use Rattle.pq_syntax.specs.Rule.Rule.{Star, Single};
ghost use Rattle.pq_syntax.specs.aux.Openings.{Leads, Opens, file_lead};
ghost use Rattle.pq_syntax.specs.aux.Steps.{Adds, Begins, Fails, FailsWithin, IfFault, Passes, Reads};
ghost use Rattle.pq_syntax.specs.Tree.{file_item_nodes, import_kind_of, import_nodes, package_nodes};
ghost use Rattle.pq_syntax.specs.declared.terminal.Terminal.TheVariants.{ImportKindWord};

use crate::failure::Failure;
use crate::parser::context::{Context, MAX_DEPTH};
use crate::parser::enums::parse_enum;
use crate::parser::messages::{parse_extend, parse_message};
use crate::parser::names::{parse_full, parse_strings};
use crate::parser::nodes::push_node;
use crate::parser::options::parse_option;
use crate::parser::services::parse_service;
use crate::parser::tokens::{expect, expect_version, looks_at, skip_empty};
use crate::terminal::{Terminal, same, spelling};
use crate::tree::{ImportKind, Node, Statement};
use pq_lex::Token;
use std::alloc::Global;

/// Parses the syntax line: `"syntax" "=" version ";"`. It has no node.
fn parse_syntax<'a>(context: Context, tokens: &'a [Token]) -> Result<&'a [Token], Failure>
    ensures taken { IfOk result (λ rest. Passes context.entry.text.now syntax' tokens.now rest.now) }
    ensures fault { IfErr result (λ e. Fails context.entry.text.now syntax' tokens.now e) }
{
    let (_, rest) = expect(context.text, tokens, Terminal::SyntaxWord)?;
    let (_, rest) = expect(context.text, rest, Terminal::Equals)?;
    let rest = expect_version(context.alloc, context.text, rest)?;
    let (_, rest) = expect(context.text, rest, Terminal::Semicolon)?;
    Ok(rest)
}

/// Parses how a file is imported: `[ "public" | "weak" ]`.
fn parse_import_kind<'a>(text: &str, tokens: &'a [Token]) -> (ImportKind, &'a [Token])
    ensures { Reads text.now (opt (Single ImportKindWord)) import_kind_of tokens.now result.1.now result.0 }
{
    if !looks_at(text, tokens, Terminal::ImportKindWord) {
        return (ImportKind::Plain, tokens);
    }
    if same(spelling(text, tokens[0].span), b"public") {
        (ImportKind::Public, &tokens[1..])
    } else {
        (ImportKind::Weak, &tokens[1..])
    }
}

/// Parses an import: `"import" [ "public" | "weak" ] strs ";"`.
fn parse_import<'a>(
    context: Context,
    tokens: &'a [Token],
    nodes: &mut Vec<Node>,
) -> Result<&'a [Token], Failure>
    ensures taken { IfOk result (λ rest. Adds context.entry.text.now (import') (import_nodes) tokens.now rest.now nodes.old.items nodes.new.items) }
    ensures fault { IfErr result (λ e. Fails context.entry.text.now (import') tokens.now e) }
{
    let (_, rest) = expect(context.text, tokens, Terminal::ImportWord)?;
    let (kind, rest) = parse_import_kind(context.text, rest);
    let (file, rest) = parse_strings(context, rest)?;
    let (_, rest) = expect(context.text, rest, Terminal::Semicolon)?;
    push_node(nodes, 0, tokens, rest, Statement::Import { kind, file })?;
    Ok(rest)
}

/// Parses a package: `"package" full ";"`.
fn parse_package<'a>(
    context: Context,
    tokens: &'a [Token],
    nodes: &mut Vec<Node>,
) -> Result<&'a [Token], Failure>
    ensures taken { IfOk result (λ rest. Adds context.entry.text.now (package') (package_nodes) tokens.now rest.now nodes.old.items nodes.new.items) }
    ensures fault { IfErr result (λ e. Fails context.entry.text.now (package') tokens.now e) }
{
    let (_, rest) = expect(context.text, tokens, Terminal::PackageWord)?;
    let (name, rest) = parse_full(context, rest)?;
    let (_, rest) = expect(context.text, rest, Terminal::Semicolon)?;
    push_node(nodes, 0, tokens, rest, Statement::Package { name })?;
    Ok(rest)
}

/// The statements of a file, by what begins them.
#[derive(Clone, Copy)]
enum FileStart {
    Import,
    Package,
    Option,
    Message,
    Enum,
    Service,
    Extend,
    /// `;`
    Empty,
}

/// Which statement of a file begins at `tokens`, if one does.
#[inline(always)]
fn file_item_at(context: Context, tokens: &[Token]) -> Option<FileStart>
    ensures { (levels : ℕ) → Opens context.entry.text.now (file_item context.entry.brackets levels) file_lead tokens.now result }
{
    if looks_at(context.text, tokens, Terminal::ImportWord) {
        return Some(FileStart::Import);
    }
    if looks_at(context.text, tokens, Terminal::PackageWord) {
        return Some(FileStart::Package);
    }
    if looks_at(context.text, tokens, Terminal::OptionWord) {
        return Some(FileStart::Option);
    }
    if looks_at(context.text, tokens, Terminal::MessageWord) {
        return Some(FileStart::Message);
    }
    if looks_at(context.text, tokens, Terminal::EnumWord) {
        return Some(FileStart::Enum);
    }
    if looks_at(context.text, tokens, Terminal::ServiceWord) {
        return Some(FileStart::Service);
    }
    if looks_at(context.text, tokens, Terminal::ExtendWord) {
        return Some(FileStart::Extend);
    }
    if looks_at(context.text, tokens, Terminal::Semicolon) {
        return Some(FileStart::Empty);
    }
    None
}

/// Parses the statement of a file that begins as `start` says.
fn parse_file_item<'a>(
    context: Context,
    tokens: &'a [Token],
    start: FileStart,
    levels: u8,
    nodes: &mut Vec<Node>,
) -> Result<&'a [Token], Failure>
    requires depth { levels < MAX_DEPTH }
    requires lead { Leads context.text.now file_lead tokens.now start }
    ensures taken { IfOk result (λ rest. Begins context.entry.text.now (file_item context.entry.brackets levels) (file_item_nodes levels) tokens.now rest.now nodes.old.items nodes.new.items) }
    ensures fault { IfErr result (λ e. FailsWithin context.entry.text.now (file_item context.entry.brackets levels) tokens.now e) }
{
    match start {
        FileStart::Import => parse_import(context, tokens, nodes),
        FileStart::Package => parse_package(context, tokens, nodes),
        FileStart::Option => parse_option(context, tokens, 0, nodes),
        FileStart::Message => parse_message(context, tokens, levels, 0, nodes),
        FileStart::Enum => parse_enum(context, tokens, 0, nodes),
        FileStart::Service => parse_service(context, tokens, 0, nodes),
        FileStart::Extend => parse_extend(context, tokens, 0, nodes),
        FileStart::Empty => skip_empty(context.text, tokens),
    }
}

/// Parses the statements of a file, as many as follow each other.
fn parse_file_items<'a>(
    context: Context,
    tokens: &'a [Token],
    levels: u8,
    nodes: &mut Vec<Node>,
) -> Result<&'a [Token], Failure>
    requires { levels < MAX_DEPTH }
    ensures taken { IfOk result (λ rest. Adds context.entry.text.now (Star (file_item context.entry.brackets levels)) (list_of (file_item_nodes levels)) tokens.now rest.now nodes.old.items nodes.new.items) }
    ensures fault { IfErr result (λ e. Fails context.entry.text.now (Star (file_item context.entry.brackets levels)) tokens.now e) }
{
    let mut rest = tokens;
    'items: loop {
        match file_item_at(context, rest) {
            Some(start) => rest = parse_file_item(context, rest, start, levels, nodes)?,
            None => return Ok(rest),
        }
    }
}

/// Most statements have this many tokens or more, so the list of nodes seldom grows after it was
/// reserved.
const TOKENS_OF_A_STATEMENT: usize = 4;

/// The nodes of a file's statements in text order, if `tokens` are a sentence of the grammar with
/// these limits: `brackets` levels of brackets within an outermost pair, and `levels` levels of
/// messages within an outermost one. Otherwise the failure holds how many tokens are left at the
/// error.
pub(crate) fn parse_file(
    alloc: Global,
    text: &str,
    tokens: &[Token],
    brackets: u8,
    levels: u8,
) -> Result<Vec<Node>, Failure>
    requires { levels < MAX_DEPTH }
    ensures tree { IfOk result (λ nodes. reading brackets levels text.now tokens.now ≡ Ok nodes.items) }
    ensures fault { IfErr result (λ e. IfFault e (λ n. reading brackets levels text.now tokens.now ≡ Err n)) }
{
    let context = Context {
        alloc,
        text,
        brackets,
    };
    let rest = parse_syntax(context, tokens)?;
    let mut nodes = Vec::with_capacity(alloc, tokens.len() / TOKENS_OF_A_STATEMENT)?;
    let rest = parse_file_items(context, rest, levels, &mut nodes)?;
    if rest.is_empty() {
        Ok(nodes)
    } else {
        Err(Failure::Fault(rest.len()))
    }
}
