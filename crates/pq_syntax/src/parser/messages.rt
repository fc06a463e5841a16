//! Messages, which nest to a limit, and extend blocks.

ghost use Rattle.std.specs.Prelude.{◌<◌, ◌≡◌, true, false, ◌+◌, ◌≤◌, IfErr, IfOk};
ghost use Rattle.pq_syntax.specs.declared.parser.messages.ItemStart.TheVariants.{Message};
ghost use Rattle.pq_syntax.specs.Grammar.{extend, item, message, statement};
ghost use Rattle.pq_syntax.specs.Parts.{list_of};
ghost use Rattle.pq_syntax.specs.Rule.Rule.{Star};
ghost use Rattle.pq_syntax.specs.aux.Openings.{ItemLeads, ItemOpens, Leads, NoMessage, Opens, statement_lead};
ghost use Rattle.pq_syntax.specs.aux.Steps.{Adds, Begins, Fails, FailsWithin};
ghost use Rattle.pq_syntax.specs.Tree.{extend_nodes, item_nodes, message_nodes, statement_nodes};

use crate::failure::Failure;
use crate::parser::brackets::skip_block;
use crate::parser::context::{Context, MAX_DEPTH};
use crate::parser::enums::parse_enum;
use crate::parser::fields::{parse_field, parse_labelled, parse_mapped};
use crate::parser::names::parse_type;
use crate::parser::nodes::{parse_head, push_node, set_span};
use crate::parser::oneofs::parse_oneof;
use crate::parser::options::parse_option;
use crate::parser::reserved::parse_reserved;
use crate::parser::texts::across;
use crate::parser::tokens::{expect, looks_at, looks_at_type, skip_empty};
use crate::terminal::Terminal;
use crate::tree::{Node, Statement};
use pq_lex::Token;

/// Parses an extend block: `"extend" type "{" balanced "}"`. Its body is skipped.
pub(crate) fn parse_extend<'a>(
    context: Context,
    tokens: &'a [Token],
    depth: u8,
    nodes: &mut Vec<Node>,
) -> Result<&'a [Token], Failure>
    ensures taken { IfOk result (λ rest. Adds context.entry.text.now (extend context.entry.brackets) (extend_nodes depth) tokens.now rest.now nodes.old.items nodes.new.items) }
    ensures fault { IfErr result (λ e. Fails context.entry.text.now (extend context.entry.brackets) tokens.now e) }
{
    let (_, rest) = expect(context.text, tokens, Terminal::ExtendWord)?;
    let (type_name, rest) = parse_type(context, rest)?;
    let rest = skip_block(context.text, rest, context.brackets)?;
    push_node(nodes, depth, tokens, rest, Statement::Extend { type_name })?;
    Ok(rest)
}

/// The statements of a message other than messages, by what begins them.
#[derive(Clone, Copy)]
enum StatementStart {
    /// A field without a label.
    Field,
    Enum,
    Extend,
    Option,
    Oneof,
    Reserved,
    /// A field with a label.
    Labelled,
    /// A map field, or a field whose type begins with `map`.
    Mapped,
    /// `;`
    Empty,
}

/// Which statement of a message other than a message begins at `tokens`, if one does. Most
/// statements are fields, so a field is tested first.
#[inline(always)]
fn statement_at(context: Context, tokens: &[Token]) -> Option<StatementStart>
    ensures { Opens context.entry.text.now (statement context.entry.brackets) statement_lead tokens.now result }
{
    if looks_at_type(context.text, tokens, Terminal::FieldTypeName) {
        return Some(StatementStart::Field);
    }
    if looks_at(context.text, tokens, Terminal::EnumWord) {
        return Some(StatementStart::Enum);
    }
    if looks_at(context.text, tokens, Terminal::ExtendWord) {
        return Some(StatementStart::Extend);
    }
    if looks_at(context.text, tokens, Terminal::OptionWord) {
        return Some(StatementStart::Option);
    }
    if looks_at(context.text, tokens, Terminal::OneofWord) {
        return Some(StatementStart::Oneof);
    }
    if looks_at(context.text, tokens, Terminal::ReservedWord) {
        return Some(StatementStart::Reserved);
    }
    if looks_at(context.text, tokens, Terminal::LabelWord) {
        return Some(StatementStart::Labelled);
    }
    if looks_at(context.text, tokens, Terminal::MapWord) {
        return Some(StatementStart::Mapped);
    }
    if looks_at(context.text, tokens, Terminal::Semicolon) {
        return Some(StatementStart::Empty);
    }
    None
}

/// Parses the statement of a message, other than a message, that begins as `start` says.
fn parse_statement<'a>(
    context: Context,
    tokens: &'a [Token],
    start: StatementStart,
    depth: u8,
    nodes: &mut Vec<Node>,
) -> Result<&'a [Token], Failure>
    requires depth { depth ≤ MAX_DEPTH }
    requires lead { Leads context.text.now statement_lead tokens.now start }
    ensures taken { IfOk result (λ rest. Begins context.entry.text.now (statement context.entry.brackets) (statement_nodes depth) tokens.now rest.now nodes.old.items nodes.new.items) }
    ensures fault { IfErr result (λ e. FailsWithin context.entry.text.now (statement context.entry.brackets) tokens.now e) }
{
    match start {
        StatementStart::Field => parse_field(
            context,
            tokens,
            Terminal::FieldTypeName,
            depth,
            nodes,
        ),
        StatementStart::Enum => parse_enum(context, tokens, depth, nodes),
        StatementStart::Extend => parse_extend(context, tokens, depth, nodes),
        StatementStart::Option => parse_option(context, tokens, depth, nodes),
        StatementStart::Oneof => parse_oneof(context, tokens, depth, nodes),
        StatementStart::Reserved => parse_reserved(context, tokens, false, depth, nodes),
        StatementStart::Labelled => parse_labelled(context, tokens, depth, nodes),
        StatementStart::Mapped => parse_mapped(context, tokens, depth, nodes),
        StatementStart::Empty => skip_empty(context.text, tokens),
    }
}

/// The statements of a message, by what begins them.
#[derive(Clone, Copy)]
enum ItemStart {
    Message,
    Statement(StatementStart),
}

/// Whether a message begins at `tokens`, where messages nest `levels` deep.
#[inline(always)]
fn looks_at_message(context: Context, tokens: &[Token], levels: u8) -> bool
    ensures yes { result ≡ true → ItemLeads context.entry.text.now levels tokens.now Message }
    ensures no { result ≡ false → NoMessage context.entry.text.now levels tokens.now }
{
    if levels == 0 {
        return false;
    }
    looks_at(context.text, tokens, Terminal::MessageWord)
}

/// Which statement of a message begins at `tokens`, if one does. Messages nest in the message
/// `levels` deep.
#[inline(always)]
fn item_at(context: Context, tokens: &[Token], levels: u8) -> Option<ItemStart>
    ensures { ItemOpens context.entry.text.now context.entry.brackets levels tokens.now result }
{
    if looks_at_message(context, tokens, levels) {
        return Some(ItemStart::Message);
    }
    match statement_at(context, tokens) {
        Some(start) => Some(ItemStart::Statement(start)),
        None => None,
    }
}

/// Parses the statement of a message that begins as `start` says. Messages nest in the message
/// `levels` deep.
#[cycle(messages)]
fn parse_item<'a>(
    context: Context,
    tokens: &'a [Token],
    start: ItemStart,
    levels: u8,
    depth: u8,
    nodes: &mut Vec<Node>,
) -> Result<&'a [Token], Failure>
    requires depth { depth + levels ≤ MAX_DEPTH }
    requires lead { ItemLeads context.text.now levels tokens.now start }
    ensures taken { IfOk result (λ rest. Begins context.entry.text.now (item context.entry.brackets levels) (item_nodes levels depth) tokens.now rest.now nodes.old.items nodes.new.items) }
    ensures fault { IfErr result (λ e. FailsWithin context.entry.text.now (item context.entry.brackets levels) tokens.now e) }
{
    match start {
        ItemStart::Message => {
            let within = levels - 1;
            parse_message(context, tokens, within, depth, nodes)
        }
        ItemStart::Statement(start) => parse_statement(context, tokens, start, depth, nodes),
    }
}

/// Parses the statements of a message, as many as follow each other. Messages nest in the message
/// `levels` deep.
#[cycle(messages)]
fn parse_items<'a>(
    context: Context,
    tokens: &'a [Token],
    levels: u8,
    depth: u8,
    nodes: &mut Vec<Node>,
) -> Result<&'a [Token], Failure>
    requires { depth + levels ≤ MAX_DEPTH }
    ensures taken { IfOk result (λ rest. Adds context.entry.text.now (Star (item context.entry.brackets levels)) (list_of (item_nodes levels depth)) tokens.now rest.now nodes.old.items nodes.new.items) }
    ensures fault { IfErr result (λ e. Fails context.entry.text.now (Star (item context.entry.brackets levels)) tokens.now e) }
{
    let mut rest = tokens;
    'items: loop {
        match item_at(context, rest, levels) {
            Some(start) => rest = parse_item(context, rest, start, levels, depth, nodes)?,
            None => return Ok(rest),
        }
    }
}

/// Parses a message and its statements: `"message" ident "{" { item } "}"`. Messages nest in it
/// `levels` deep.
#[cycle(messages)]
pub(crate) fn parse_message<'a>(
    context: Context,
    tokens: &'a [Token],
    levels: u8,
    depth: u8,
    nodes: &mut Vec<Node>,
) -> Result<&'a [Token], Failure>
    requires { depth + levels < MAX_DEPTH }
    ensures taken { IfOk result (λ rest. Adds context.entry.text.now (message context.entry.brackets levels) (message_nodes levels depth) tokens.now rest.now nodes.old.items nodes.new.items) }
    ensures fault { IfErr result (λ e. Fails context.entry.text.now (message context.entry.brackets levels) tokens.now e) }
{
    let (name, rest) = parse_head(context, tokens, Terminal::MessageWord)?;
    let index = nodes.len();
    push_node(nodes, depth, tokens, rest, Statement::Message { name })?;
    let rest = parse_items(context, rest, levels, depth + 1, nodes)?;
    let (_, rest) = expect(context.text, rest, Terminal::CloseBrace)?;
    set_span(nodes, index, across(tokens, rest));
    Ok(rest)
}
