//! Options (proto3 language specification, "Option"): their names, their constants, and lists of
//! them.

ghost use Rattle.std.specs.Prelude.{IfErr, IfOk};
ghost use Rattle.pq_syntax.specs.Grammar.{◌▸◌, opt, option, optname, optpart, opts, optset};
ghost use Rattle.pq_syntax.specs.Parts.{list_of};
ghost use Rattle.pq_syntax.specs.Parts.{behind, listed, part_of, setting_of, settings_of};
ghost use Rattle.pq_syntax.specs.Rule.Rule.{Star, Single, Seq};
ghost use Rattle.pq_syntax.specs.aux.Steps.{Adds, Fails, Reads};
ghost use Rattle.pq_syntax.specs.Tree.{option_nodes};
ghost use Rattle.pq_syntax.specs.declared.terminal.Terminal.TheVariants.{Comma, Dot};

use crate::failure::Failure;
use crate::parser::constants::parse_constant;
use crate::parser::context::Context;
use crate::parser::names::skip_type;
use crate::parser::nodes::push_node;
use crate::parser::texts::{across, read_joined};
use crate::parser::tokens::{expect, looks_at};
use crate::parts::{Items, NamePart, Setting};
use crate::terminal::Terminal;
use crate::tree::{Node, Statement};
use pq_lex::Token;

/// Parses one part of an option's name: `ident | "(" [ "." ] full ")"`.
fn parse_part<'a>(context: Context, tokens: &'a [Token]) -> Result<(NamePart, &'a [Token]), Failure>
    ensures taken { IfOk result (λ x. Reads context.entry.text.now optpart part_of tokens.now x.1.now x.0) }
    ensures fault { IfErr result (λ e. Fails context.entry.text.now optpart tokens.now e) }
{
    if looks_at(context.text, tokens, Terminal::AnyIdentifier) {
        let (_, rest) = expect(context.text, tokens, Terminal::AnyIdentifier)?;
        let part = NamePart {
            is_extension: false,
            text: read_joined(context.alloc, context.text, tokens, rest)?,
            span: across(tokens, rest),
        };
        return Ok((part, rest));
    }
    let (_, name) = expect(context.text, tokens, Terminal::OpenParenthesis)?;
    let close = skip_type(context.text, name)?;
    let (_, rest) = expect(context.text, close, Terminal::CloseParenthesis)?;
    let part = NamePart {
        is_extension: true,
        text: read_joined(context.alloc, context.text, name, close)?,
        span: across(tokens, rest),
    };
    Ok((part, rest))
}

/// Parses further parts, each after a dot, and adds them to `parts`.
fn parse_more_parts<'a>(
    context: Context,
    tokens: &'a [Token],
    parts: &mut Vec<NamePart>,
) -> Result<&'a [Token], Failure>
    ensures taken { IfOk result (λ rest. Adds context.entry.text.now (Star (Single Dot ▸ optpart)) (list_of (behind part_of)) tokens.now rest.now parts.old.items parts.new.items) }
    ensures fault { IfErr result (λ e. Fails context.entry.text.now (Star (Single Dot ▸ optpart)) tokens.now e) }
{
    let mut rest = tokens;
    'items: while looks_at(context.text, rest, Terminal::Dot) {
        let (_, next) = expect(context.text, rest, Terminal::Dot)?;
        let (part, after) = parse_part(context, next)?;
        parts.push(part)?;
        rest = after;
    }
    Ok(rest)
}

/// Parses an option's name: `optpart { "." optpart }`.
fn parse_parts<'a>(
    context: Context,
    tokens: &'a [Token],
) -> Result<(Items<NamePart>, &'a [Token]), Failure>
    ensures taken { IfOk result (λ x. Reads context.entry.text.now optname (listed part_of) tokens.now x.1.now x.0) }
    ensures fault { IfErr result (λ e. Fails context.entry.text.now optname tokens.now e) }
{
    let (first, rest) = parse_part(context, tokens)?;
    let mut parts = Vec::new(context.alloc);
    parts.push(first)?;
    let rest = parse_more_parts(context, rest, &mut parts)?;
    Ok((Items::new(parts), rest))
}

/// Parses an option's name and its constant: `optname "=" constant`.
fn parse_setting<'a>(
    context: Context,
    tokens: &'a [Token],
) -> Result<(Setting, &'a [Token]), Failure>
    ensures taken { IfOk result (λ x. Reads context.entry.text.now (optset context.entry.brackets) setting_of tokens.now x.1.now x.0) }
    ensures fault { IfErr result (λ e. Fails context.entry.text.now (optset context.entry.brackets) tokens.now e) }
{
    let (parts, rest) = parse_parts(context, tokens)?;
    let (_, rest) = expect(context.text, rest, Terminal::Equals)?;
    let (constant, rest) = parse_constant(context, rest)?;
    let setting = Setting {
        parts,
        constant,
        span: across(tokens, rest),
    };
    Ok((setting, rest))
}

/// Parses further options, each after a comma, and adds them to `settings`.
fn parse_more_settings<'a>(
    context: Context,
    tokens: &'a [Token],
    settings: &mut Vec<Setting>,
) -> Result<&'a [Token], Failure>
    ensures taken { IfOk result (λ rest. Adds context.entry.text.now (Star (Single Comma ▸ optset context.entry.brackets)) (list_of (behind setting_of)) tokens.now rest.now settings.old.items settings.new.items) }
    ensures fault { IfErr result (λ e. Fails context.entry.text.now (Star (Single Comma ▸ optset context.entry.brackets)) tokens.now e) }
{
    let mut rest = tokens;
    'items: while looks_at(context.text, rest, Terminal::Comma) {
        let (_, next) = expect(context.text, rest, Terminal::Comma)?;
        let (setting, after) = parse_setting(context, next)?;
        settings.push(setting)?;
        rest = after;
    }
    Ok(rest)
}

/// Parses options in brackets, which may be absent: `[ "[" optset { "," optset } "]" ]`.
pub(crate) fn parse_settings<'a>(
    context: Context,
    tokens: &'a [Token],
) -> Result<(Items<Setting>, &'a [Token]), Failure>
    ensures taken { IfOk result (λ x. Reads context.entry.text.now (opt (opts context.entry.brackets)) settings_of tokens.now x.1.now x.0) }
    ensures fault { IfErr result (λ e. Fails context.entry.text.now (opt (opts context.entry.brackets)) tokens.now e) }
{
    let mut settings = Vec::new(context.alloc);
    if !looks_at(context.text, tokens, Terminal::OpenBracket) {
        return Ok((Items::new(settings), tokens));
    }
    let (_, rest) = expect(context.text, tokens, Terminal::OpenBracket)?;
    let (first, rest) = parse_setting(context, rest)?;
    settings.push(first)?;
    let rest = parse_more_settings(context, rest, &mut settings)?;
    let (_, rest) = expect(context.text, rest, Terminal::CloseBracket)?;
    Ok((Items::new(settings), rest))
}

/// Parses an option statement: `"option" optset ";"`.
pub(crate) fn parse_option<'a>(
    context: Context,
    tokens: &'a [Token],
    depth: u8,
    nodes: &mut Vec<Node>,
) -> Result<&'a [Token], Failure>
    ensures taken { IfOk result (λ rest. Adds context.entry.text.now (option context.entry.brackets) (option_nodes depth) tokens.now rest.now nodes.old.items nodes.new.items) }
    ensures fault { IfErr result (λ e. Fails context.entry.text.now (option context.entry.brackets) tokens.now e) }
{
    let (_, rest) = expect(context.text, tokens, Terminal::OptionWord)?;
    let (setting, rest) = parse_setting(context, rest)?;
    let (_, rest) = expect(context.text, rest, Terminal::Semicolon)?;
    push_node(nodes, depth, tokens, rest, Statement::Option(setting))?;
    Ok(rest)
}
