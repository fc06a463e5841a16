//! Enums and their values.

ghost use Rattle.std.specs.Prelude.{◌≤◌, IfErr, IfOk};
ghost use Rattle.pq_syntax.specs.Grammar.{enum, enum_item, value};
ghost use Rattle.pq_syntax.specs.Parts.{list_of};
ghost use Rattle.pq_syntax.specs.Rule.Rule.{Star};
ghost use Rattle.pq_syntax.specs.aux.Openings.{Leads, Opens, enum_lead};
ghost use Rattle.pq_syntax.specs.aux.Steps.{Adds, Begins, Fails, FailsWithin};
ghost use Rattle.pq_syntax.specs.Tree.{enum_item_nodes, enum_nodes, value_nodes};

use crate::failure::Failure;
use crate::parser::context::{Context, MAX_DEPTH};
use crate::parser::names::parse_word;
use crate::parser::nodes::{parse_head, push_node, set_span};
use crate::parser::options::{parse_option, parse_settings};
use crate::parser::reserved::{parse_bound, parse_reserved};
use crate::parser::texts::across;
use crate::parser::tokens::{expect, looks_at, skip_empty};
use crate::terminal::Terminal;
use crate::tree::{Node, Statement};
use pq_lex::Token;

/// Parses a value of an enum: `ident "=" [ "-" ] integer [ opts ] ";"`.
fn parse_value<'a>(
    context: Context,
    tokens: &'a [Token],
    depth: u8,
    nodes: &mut Vec<Node>,
) -> Result<&'a [Token], Failure>
    ensures taken { IfOk result (λ rest. Adds context.entry.text.now (value context.entry.brackets) (value_nodes depth) tokens.now rest.now nodes.old.items nodes.new.items) }
    ensures fault { IfErr result (λ e. Fails context.entry.text.now (value context.entry.brackets) tokens.now e) }
{
    let (name, rest) = parse_word(context, tokens, Terminal::ValueName)?;
    let (_, rest) = expect(context.text, rest, Terminal::Equals)?;
    let (number, rest) = parse_bound(context.text, rest, true)?;
    let (options, rest) = parse_settings(context, rest)?;
    let (_, rest) = expect(context.text, rest, Terminal::Semicolon)?;
    let value = Statement::Value {
        name,
        number,
        options,
    };
    push_node(nodes, depth, tokens, rest, value)?;
    Ok(rest)
}

/// The statements of an enum, by what begins them.
#[derive(Clone, Copy)]
enum EnumStart {
    Option,
    Reserved,
    Value,
    /// `;`
    Empty,
}

/// Which statement of an enum begins at `tokens`, if one does.
#[inline(always)]
fn enum_item_at(context: Context, tokens: &[Token]) -> Option<EnumStart>
    ensures { Opens context.entry.text.now (enum_item context.entry.brackets) enum_lead tokens.now result }
{
    if looks_at(context.text, tokens, Terminal::OptionWord) {
        return Some(EnumStart::Option);
    }
    if looks_at(context.text, tokens, Terminal::ReservedWord) {
        return Some(EnumStart::Reserved);
    }
    if looks_at(context.text, tokens, Terminal::ValueName) {
        return Some(EnumStart::Value);
    }
    if looks_at(context.text, tokens, Terminal::Semicolon) {
        return Some(EnumStart::Empty);
    }
    None
}

/// Parses the statement of an enum that begins as `start` says.
fn parse_enum_item<'a>(
    context: Context,
    tokens: &'a [Token],
    start: EnumStart,
    depth: u8,
    nodes: &mut Vec<Node>,
) -> Result<&'a [Token], Failure>
    requires { Leads context.text.now enum_lead tokens.now start }
    ensures taken { IfOk result (λ rest. Begins context.entry.text.now (enum_item context.entry.brackets) (enum_item_nodes depth) tokens.now rest.now nodes.old.items nodes.new.items) }
    ensures fault { IfErr result (λ e. FailsWithin context.entry.text.now (enum_item context.entry.brackets) tokens.now e) }
{
    match start {
        EnumStart::Option => parse_option(context, tokens, depth, nodes),
        EnumStart::Reserved => parse_reserved(context, tokens, true, depth, nodes),
        EnumStart::Value => parse_value(context, tokens, depth, nodes),
        EnumStart::Empty => skip_empty(context.text, tokens),
    }
}

/// Parses the statements of an enum, as many as follow each other.
fn parse_enum_items<'a>(
    context: Context,
    tokens: &'a [Token],
    depth: u8,
    nodes: &mut Vec<Node>,
) -> Result<&'a [Token], Failure>
    ensures taken { IfOk result (λ rest. Adds context.entry.text.now (Star (enum_item context.entry.brackets)) (list_of (enum_item_nodes depth)) tokens.now rest.now nodes.old.items nodes.new.items) }
    ensures fault { IfErr result (λ e. Fails context.entry.text.now (Star (enum_item context.entry.brackets)) tokens.now e) }
{
    let mut rest = tokens;
    'items: loop {
        match enum_item_at(context, rest) {
            Some(start) => rest = parse_enum_item(context, rest, start, depth, nodes)?,
            None => return Ok(rest),
        }
    }
}

/// Parses an enum and its statements: `"enum" ident "{" { option | reserved | value | ";" } "}"`.
pub(crate) fn parse_enum<'a>(
    context: Context,
    tokens: &'a [Token],
    depth: u8,
    nodes: &mut Vec<Node>,
) -> Result<&'a [Token], Failure>
    requires { depth ≤ MAX_DEPTH }
    ensures taken { IfOk result (λ rest. Adds context.entry.text.now (enum context.entry.brackets) (enum_nodes depth) tokens.now rest.now nodes.old.items nodes.new.items) }
    ensures fault { IfErr result (λ e. Fails context.entry.text.now (enum context.entry.brackets) tokens.now e) }
{
    let (name, rest) = parse_head(context, tokens, Terminal::EnumWord)?;
    let index = nodes.len();
    push_node(nodes, depth, tokens, rest, Statement::Enum { name })?;
    let rest = parse_enum_items(context, rest, depth + 1, nodes)?;
    let (_, rest) = expect(context.text, rest, Terminal::CloseBrace)?;
    set_span(nodes, index, across(tokens, rest));
    Ok(rest)
}
