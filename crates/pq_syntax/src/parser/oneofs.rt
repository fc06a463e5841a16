//! Oneofs and their fields.

ghost use Rattle.std.specs.Prelude.{◌≤◌, IfErr, IfOk};
ghost use Rattle.pq_syntax.specs.Grammar.{oneof, oneof_item};
ghost use Rattle.pq_syntax.specs.Parts.{list_of};
ghost use Rattle.pq_syntax.specs.Rule.Rule.{Star};
ghost use Rattle.pq_syntax.specs.aux.Openings.{Leads, Opens, oneof_lead};
ghost use Rattle.pq_syntax.specs.aux.Steps.{Adds, Begins, Fails, FailsWithin};
ghost use Rattle.pq_syntax.specs.Tree.{oneof_item_nodes, oneof_nodes};

use crate::failure::Failure;
use crate::parser::context::{Context, MAX_DEPTH};
use crate::parser::fields::parse_field;
use crate::parser::nodes::{parse_head, push_node, set_span};
use crate::parser::options::parse_option;
use crate::parser::texts::across;
use crate::parser::tokens::{expect, looks_at, looks_at_type, skip_empty};
use crate::terminal::Terminal;
use crate::tree::{Node, Statement};
use pq_lex::Token;

/// The statements of a oneof, by what begins them.
#[derive(Clone, Copy)]
enum OneofStart {
    Option,
    Member,
    /// `;`
    Empty,
}

/// Which statement of a oneof begins at `tokens`, if one does.
#[inline(always)]
fn oneof_item_at(context: Context, tokens: &[Token]) -> Option<OneofStart>
    ensures { Opens context.entry.text.now (oneof_item context.entry.brackets) oneof_lead tokens.now result }
{
    if looks_at(context.text, tokens, Terminal::OptionWord) {
        return Some(OneofStart::Option);
    }
    if looks_at_type(context.text, tokens, Terminal::MemberTypeName) {
        return Some(OneofStart::Member);
    }
    if looks_at(context.text, tokens, Terminal::Semicolon) {
        return Some(OneofStart::Empty);
    }
    None
}

/// Parses the statement of a oneof that begins as `start` says.
fn parse_oneof_item<'a>(
    context: Context,
    tokens: &'a [Token],
    start: OneofStart,
    depth: u8,
    nodes: &mut Vec<Node>,
) -> Result<&'a [Token], Failure>
    requires { Leads context.text.now oneof_lead tokens.now start }
    ensures taken { IfOk result (λ rest. Begins context.entry.text.now (oneof_item context.entry.brackets) (oneof_item_nodes depth) tokens.now rest.now nodes.old.items nodes.new.items) }
    ensures fault { IfErr result (λ e. FailsWithin context.entry.text.now (oneof_item context.entry.brackets) tokens.now e) }
{
    match start {
        OneofStart::Option => parse_option(context, tokens, depth, nodes),
        OneofStart::Member => parse_field(context, tokens, Terminal::MemberTypeName, depth, nodes),
        OneofStart::Empty => skip_empty(context.text, tokens),
    }
}

/// Parses the statements of a oneof, as many as follow each other.
fn parse_oneof_items<'a>(
    context: Context,
    tokens: &'a [Token],
    depth: u8,
    nodes: &mut Vec<Node>,
) -> Result<&'a [Token], Failure>
    ensures taken { IfOk result (λ rest. Adds context.entry.text.now (Star (oneof_item context.entry.brackets)) (list_of (oneof_item_nodes depth)) tokens.now rest.now nodes.old.items nodes.new.items) }
    ensures fault { IfErr result (λ e. Fails context.entry.text.now (Star (oneof_item context.entry.brackets)) tokens.now e) }
{
    let mut rest = tokens;
    'items: loop {
        match oneof_item_at(context, rest) {
            Some(start) => rest = parse_oneof_item(context, rest, start, depth, nodes)?,
            None => return Ok(rest),
        }
    }
}

/// Parses a oneof and its statements: `"oneof" ident "{" { option | type tail | ";" } "}"`.
pub(crate) fn parse_oneof<'a>(
    context: Context,
    tokens: &'a [Token],
    depth: u8,
    nodes: &mut Vec<Node>,
) -> Result<&'a [Token], Failure>
    requires { depth ≤ MAX_DEPTH }
    ensures taken { IfOk result (λ rest. Adds context.entry.text.now (oneof context.entry.brackets) (oneof_nodes depth) tokens.now rest.now nodes.old.items nodes.new.items) }
    ensures fault { IfErr result (λ e. Fails context.entry.text.now (oneof context.entry.brackets) tokens.now e) }
{
    let (name, rest) = parse_head(context, tokens, Terminal::OneofWord)?;
    let index = nodes.len();
    push_node(nodes, depth, tokens, rest, Statement::Oneof { name })?;
    let rest = parse_oneof_items(context, rest, depth + 1, nodes)?;
    let (_, rest) = expect(context.text, rest, Terminal::CloseBrace)?;
    set_span(nodes, index, across(tokens, rest));
    Ok(rest)
}
