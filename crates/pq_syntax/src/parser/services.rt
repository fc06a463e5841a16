//! Services and their methods.

ghost use Rattle.std.specs.Prelude.{◌<◌, ◌≤◌, IfErr, IfOk};
ghost use Rattle.pq_syntax.specs.Grammar.{in_parentheses, method, method_end, method_item, service, service_item, streamed};
ghost use Rattle.pq_syntax.specs.Parts.{list_of};
ghost use Rattle.pq_syntax.specs.Parts.{enclosed_type_of, method_type_of};
ghost use Rattle.pq_syntax.specs.Rule.Rule.{Star};
ghost use Rattle.pq_syntax.specs.aux.Openings.{Leads, Opens, method_lead, service_lead};
ghost use Rattle.pq_syntax.specs.aux.Steps.{Adds, Begins, Fails, FailsWithin, Reads};
ghost use Rattle.pq_syntax.specs.Tree.{method_end_nodes, method_item_nodes, method_nodes, service_item_nodes, service_nodes};

use crate::failure::Failure;
use crate::parser::context::{Context, MAX_DEPTH};
use crate::parser::names::{parse_type, parse_type_from, parse_word};
use crate::parser::nodes::{parse_head, push_node, set_span};
use crate::parser::options::parse_option;
use crate::parser::texts::across;
use crate::parser::tokens::{expect, looks_at, skip_empty};
use crate::parts::MethodType;
use crate::terminal::Terminal;
use crate::tree::{Node, Statement};
use pq_lex::Token;

/// Parses `[ "stream" ] type`, where `stream` is always the keyword.
fn parse_streamed<'a>(
    context: Context,
    tokens: &'a [Token],
) -> Result<(MethodType, &'a [Token]), Failure>
    ensures taken { IfOk result (λ x. Reads context.entry.text.now streamed method_type_of tokens.now x.1.now x.0) }
    ensures fault { IfErr result (λ e. Fails context.entry.text.now streamed tokens.now e) }
{
    if looks_at(context.text, tokens, Terminal::StreamWord) {
        let (_, rest) = expect(context.text, tokens, Terminal::StreamWord)?;
        let (type_name, rest) = parse_type(context, rest)?;
        let streams = MethodType {
            is_stream: true,
            type_name,
        };
        return Ok((streams, rest));
    }
    let (type_name, rest) = parse_type_from(context, tokens, Terminal::MethodTypeName)?;
    let plain = MethodType {
        is_stream: false,
        type_name,
    };
    Ok((plain, rest))
}

/// Parses the type of a request or a response: `"(" [ "stream" ] type ")"`.
fn parse_in_parentheses<'a>(
    context: Context,
    tokens: &'a [Token],
) -> Result<(MethodType, &'a [Token]), Failure>
    ensures taken { IfOk result (λ x. Reads context.entry.text.now in_parentheses enclosed_type_of tokens.now x.1.now x.0) }
    ensures fault { IfErr result (λ e. Fails context.entry.text.now in_parentheses tokens.now e) }
{
    let (_, rest) = expect(context.text, tokens, Terminal::OpenParenthesis)?;
    let (kind, rest) = parse_streamed(context, rest)?;
    let (_, rest) = expect(context.text, rest, Terminal::CloseParenthesis)?;
    Ok((kind, rest))
}

/// The statements of a method, by what begins them.
#[derive(Clone, Copy)]
enum MethodStart {
    Option,
    /// `;`
    Empty,
}

/// Which statement of a method begins at `tokens`, if one does.
#[inline(always)]
fn method_item_at(context: Context, tokens: &[Token]) -> Option<MethodStart>
    ensures { Opens context.entry.text.now (method_item context.entry.brackets) method_lead tokens.now result }
{
    if looks_at(context.text, tokens, Terminal::OptionWord) {
        return Some(MethodStart::Option);
    }
    if looks_at(context.text, tokens, Terminal::Semicolon) {
        return Some(MethodStart::Empty);
    }
    None
}

/// Parses the statement of a method that begins as `start` says.
fn parse_method_item<'a>(
    context: Context,
    tokens: &'a [Token],
    start: MethodStart,
    depth: u8,
    nodes: &mut Vec<Node>,
) -> Result<&'a [Token], Failure>
    requires { Leads context.text.now method_lead tokens.now start }
    ensures taken { IfOk result (λ rest. Begins context.entry.text.now (method_item context.entry.brackets) (method_item_nodes depth) tokens.now rest.now nodes.old.items nodes.new.items) }
    ensures fault { IfErr result (λ e. FailsWithin context.entry.text.now (method_item context.entry.brackets) tokens.now e) }
{
    match start {
        MethodStart::Option => parse_option(context, tokens, depth, nodes),
        MethodStart::Empty => skip_empty(context.text, tokens),
    }
}

/// Parses the statements of a method, as many as follow each other.
fn parse_method_items<'a>(
    context: Context,
    tokens: &'a [Token],
    depth: u8,
    nodes: &mut Vec<Node>,
) -> Result<&'a [Token], Failure>
    ensures taken { IfOk result (λ rest. Adds context.entry.text.now (Star (method_item context.entry.brackets)) (list_of (method_item_nodes depth)) tokens.now rest.now nodes.old.items nodes.new.items) }
    ensures fault { IfErr result (λ e. Fails context.entry.text.now (Star (method_item context.entry.brackets)) tokens.now e) }
{
    let mut rest = tokens;
    'items: loop {
        match method_item_at(context, rest) {
            Some(start) => rest = parse_method_item(context, rest, start, depth, nodes)?,
            None => return Ok(rest),
        }
    }
}

/// Parses the end of a method: `"{" { option | ";" } "}" | ";"`.
fn parse_method_end<'a>(
    context: Context,
    tokens: &'a [Token],
    depth: u8,
    nodes: &mut Vec<Node>,
) -> Result<&'a [Token], Failure>
    ensures taken { IfOk result (λ rest. Adds context.entry.text.now (method_end context.entry.brackets) (method_end_nodes depth) tokens.now rest.now nodes.old.items nodes.new.items) }
    ensures fault { IfErr result (λ e. Fails context.entry.text.now (method_end context.entry.brackets) tokens.now e) }
{
    if looks_at(context.text, tokens, Terminal::OpenBrace) {
        let (_, rest) = expect(context.text, tokens, Terminal::OpenBrace)?;
        let rest = parse_method_items(context, rest, depth, nodes)?;
        let (_, rest) = expect(context.text, rest, Terminal::CloseBrace)?;
        return Ok(rest);
    }
    let (_, rest) = expect(context.text, tokens, Terminal::Semicolon)?;
    Ok(rest)
}

/// Parses a method: `"rpc" ident "(" type ")" "returns" "(" type ")" end`.
fn parse_method<'a>(
    context: Context,
    tokens: &'a [Token],
    depth: u8,
    nodes: &mut Vec<Node>,
) -> Result<&'a [Token], Failure>
    requires { depth ≤ MAX_DEPTH }
    ensures taken { IfOk result (λ rest. Adds context.entry.text.now (method context.entry.brackets) (method_nodes depth) tokens.now rest.now nodes.old.items nodes.new.items) }
    ensures fault { IfErr result (λ e. Fails context.entry.text.now (method context.entry.brackets) tokens.now e) }
{
    let (_, rest) = expect(context.text, tokens, Terminal::MethodWord)?;
    let (name, rest) = parse_word(context, rest, Terminal::AnyIdentifier)?;
    let (input, rest) = parse_in_parentheses(context, rest)?;
    let (_, rest) = expect(context.text, rest, Terminal::ReturnsWord)?;
    let (output, rest) = parse_in_parentheses(context, rest)?;
    let method = Statement::Method {
        name,
        input,
        output,
    };
    let index = nodes.len();
    push_node(nodes, depth, tokens, rest, method)?;
    let rest = parse_method_end(context, rest, depth + 1, nodes)?;
    set_span(nodes, index, across(tokens, rest));
    Ok(rest)
}

/// The statements of a service, by what begins them.
#[derive(Clone, Copy)]
enum ServiceStart {
    Option,
    Method,
    /// `;`
    Empty,
}

/// Which statement of a service begins at `tokens`, if one does.
#[inline(always)]
fn service_item_at(context: Context, tokens: &[Token]) -> Option<ServiceStart>
    ensures { Opens context.entry.text.now (service_item context.entry.brackets) service_lead tokens.now result }
{
    if looks_at(context.text, tokens, Terminal::OptionWord) {
        return Some(ServiceStart::Option);
    }
    if looks_at(context.text, tokens, Terminal::MethodWord) {
        return Some(ServiceStart::Method);
    }
    if looks_at(context.text, tokens, Terminal::Semicolon) {
        return Some(ServiceStart::Empty);
    }
    None
}

/// Parses the statement of a service that begins as `start` says.
fn parse_service_item<'a>(
    context: Context,
    tokens: &'a [Token],
    start: ServiceStart,
    depth: u8,
    nodes: &mut Vec<Node>,
) -> Result<&'a [Token], Failure>
    requires depth { depth ≤ MAX_DEPTH }
    requires lead { Leads context.text.now service_lead tokens.now start }
    ensures taken { IfOk result (λ rest. Begins context.entry.text.now (service_item context.entry.brackets) (service_item_nodes depth) tokens.now rest.now nodes.old.items nodes.new.items) }
    ensures fault { IfErr result (λ e. FailsWithin context.entry.text.now (service_item context.entry.brackets) tokens.now e) }
{
    match start {
        ServiceStart::Option => parse_option(context, tokens, depth, nodes),
        ServiceStart::Method => parse_method(context, tokens, depth, nodes),
        ServiceStart::Empty => skip_empty(context.text, tokens),
    }
}

/// Parses the statements of a service, as many as follow each other.
fn parse_service_items<'a>(
    context: Context,
    tokens: &'a [Token],
    depth: u8,
    nodes: &mut Vec<Node>,
) -> Result<&'a [Token], Failure>
    requires { depth ≤ MAX_DEPTH }
    ensures taken { IfOk result (λ rest. Adds context.entry.text.now (Star (service_item context.entry.brackets)) (list_of (service_item_nodes depth)) tokens.now rest.now nodes.old.items nodes.new.items) }
    ensures fault { IfErr result (λ e. Fails context.entry.text.now (Star (service_item context.entry.brackets)) tokens.now e) }
{
    let mut rest = tokens;
    'items: loop {
        match service_item_at(context, rest) {
            Some(start) => rest = parse_service_item(context, rest, start, depth, nodes)?,
            None => return Ok(rest),
        }
    }
}

/// Parses a service and its statements: `"service" ident "{" { option | rpc | ";" } "}"`.
pub(crate) fn parse_service<'a>(
    context: Context,
    tokens: &'a [Token],
    depth: u8,
    nodes: &mut Vec<Node>,
) -> Result<&'a [Token], Failure>
    requires { depth < MAX_DEPTH }
    ensures taken { IfOk result (λ rest. Adds context.entry.text.now (service context.entry.brackets) (service_nodes depth) tokens.now rest.now nodes.old.items nodes.new.items) }
    ensures fault { IfErr result (λ e. Fails context.entry.text.now (service context.entry.brackets) tokens.now e) }
{
    let (name, rest) = parse_head(context, tokens, Terminal::ServiceWord)?;
    let index = nodes.len();
    push_node(nodes, depth, tokens, rest, Statement::Service { name })?;
    let rest = parse_service_items(context, rest, depth + 1, nodes)?;
    let (_, rest) = expect(context.text, rest, Terminal::CloseBrace)?;
    set_span(nodes, index, across(tokens, rest));
    Ok(rest)
}
