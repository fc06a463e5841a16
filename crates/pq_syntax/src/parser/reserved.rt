//! Reserved numbers and names (proto3 language specification, "Reserved"). `signs` says whether a
//! minus may precede a number: it may in an enum.

ghost use Rattle.std.specs.Prelude.{◌≡◌, IfErr, IfOk};
ghost use Rattle.pq_syntax.specs.Grammar.{◌▸◌, bound, range, range_end, ranges, reserved, sign_where, strings};
ghost use Rattle.pq_syntax.specs.Parts.{list_of};
ghost use Rattle.pq_syntax.specs.Parts.{behind, bound_of, end_of_range, listed, range_of, strings_of};
ghost use Rattle.pq_syntax.specs.Rule.Rule.{Star, Single, Seq};
ghost use Rattle.pq_syntax.specs.aux.Steps.{Adds, Fails, Reads};
ghost use Rattle.pq_syntax.specs.aux.Takes.{starts_at};
ghost use Rattle.pq_syntax.specs.Tree.{reserved_nodes};
ghost use Rattle.pq_syntax.specs.Words.{accepts, words};
ghost use Rattle.pq_syntax.specs.declared.terminal.Terminal.TheVariants.{Comma, AnyText};

use crate::failure::Failure;
use crate::parser::context::Context;
use crate::parser::nodes::push_node;
use crate::parser::texts::{across, read_number, read_strings};
use crate::parser::tokens::{expect, looks_at};
use crate::parts::{Items, Number, Range, RangeEnd, Strings};
use crate::terminal::Terminal;
use crate::tree::{Node, Statement};
use pq_lex::Token;

/// Whether the first token is a minus that may precede a number.
fn looks_at_sign(text: &str, tokens: &[Token], signs: bool) -> bool
    ensures { result ≡ starts_at accepts (sign_where signs) (words text.now tokens.now) }
{
    signs && looks_at(text, tokens, Terminal::Minus)
}

/// Whether a range begins at `tokens`.
fn looks_at_bound(text: &str, tokens: &[Token], signs: bool) -> bool
    ensures { result ≡ starts_at accepts (ranges signs) (words text.now tokens.now) }
{
    looks_at_sign(text, tokens, signs) || looks_at(text, tokens, Terminal::AnyInteger)
}

/// Parses an integer, which a minus may precede if `signs`.
pub(crate) fn parse_bound<'a>(
    text: &str,
    tokens: &'a [Token],
    signs: bool,
) -> Result<(Number, &'a [Token]), Failure>
    ensures taken { IfOk result (λ x. Reads text.now (bound signs) bound_of tokens.now x.1.now x.0) }
    ensures fault { IfErr result (λ e. Fails text.now (bound signs) tokens.now e) }
{
    if looks_at_sign(text, tokens, signs) {
        let (_, rest) = expect(text, tokens, Terminal::Minus)?;
        let (number, rest) = expect(text, rest, Terminal::AnyInteger)?;
        let value = read_number(text, number).value;
        let bound = Number {
            negative: true,
            value,
            span: across(tokens, rest),
        };
        return Ok((bound, rest));
    }
    let (number, rest) = expect(text, tokens, Terminal::AnyInteger)?;
    Ok((read_number(text, number), rest))
}

/// Parses the end of a range: `[ "to" ( integer | "max" ) ]`.
fn parse_range_end<'a>(
    text: &str,
    tokens: &'a [Token],
    signs: bool,
) -> Result<(RangeEnd, &'a [Token]), Failure>
    ensures taken { IfOk result (λ x. Reads text.now (range_end signs) end_of_range tokens.now x.1.now x.0) }
    ensures fault { IfErr result (λ e. Fails text.now (range_end signs) tokens.now e) }
{
    if !looks_at(text, tokens, Terminal::ToWord) {
        return Ok((RangeEnd::Alone, tokens));
    }
    let (_, rest) = expect(text, tokens, Terminal::ToWord)?;
    if looks_at_bound(text, rest, signs) {
        let (last, rest) = parse_bound(text, rest, signs)?;
        return Ok((RangeEnd::To(last), rest));
    }
    let (_, rest) = expect(text, rest, Terminal::MaxWord)?;
    Ok((RangeEnd::Max, rest))
}

/// Parses a range: `integer [ "to" ( integer | "max" ) ]`.
fn parse_range<'a>(
    text: &str,
    tokens: &'a [Token],
    signs: bool,
) -> Result<(Range, &'a [Token]), Failure>
    ensures taken { IfOk result (λ x. Reads text.now (range signs) range_of tokens.now x.1.now x.0) }
    ensures fault { IfErr result (λ e. Fails text.now (range signs) tokens.now e) }
{
    let (first, rest) = parse_bound(text, tokens, signs)?;
    let (last, rest) = parse_range_end(text, rest, signs)?;
    let span = across(tokens, rest);
    Ok((Range { first, last, span }, rest))
}

/// Parses further ranges, each after a comma, and adds them to `ranges`.
fn parse_more_ranges<'a>(
    text: &str,
    tokens: &'a [Token],
    signs: bool,
    ranges: &mut Vec<Range>,
) -> Result<&'a [Token], Failure>
    ensures taken { IfOk result (λ rest. Adds text.now (Star (Single Comma ▸ range signs)) (list_of (behind range_of)) tokens.now rest.now ranges.old.items ranges.new.items) }
    ensures fault { IfErr result (λ e. Fails text.now (Star (Single Comma ▸ range signs)) tokens.now e) }
{
    let mut rest = tokens;
    'items: while looks_at(text, rest, Terminal::Comma) {
        let (_, next) = expect(text, rest, Terminal::Comma)?;
        let (range, after) = parse_range(text, next, signs)?;
        ranges.push(range)?;
        rest = after;
    }
    Ok(rest)
}

/// Parses ranges: `range { "," range }`.
fn parse_ranges<'a>(
    context: Context,
    tokens: &'a [Token],
    signs: bool,
) -> Result<(Items<Range>, &'a [Token]), Failure>
    ensures taken { IfOk result (λ x. Reads context.entry.text.now (ranges signs) (listed range_of) tokens.now x.1.now x.0) }
    ensures fault { IfErr result (λ e. Fails context.entry.text.now (ranges signs) tokens.now e) }
{
    let (first, rest) = parse_range(context.text, tokens, signs)?;
    let mut ranges = Vec::new(context.alloc);
    ranges.push(first)?;
    let rest = parse_more_ranges(context.text, rest, signs, &mut ranges)?;
    Ok((Items::new(ranges), rest))
}

/// Parses one string.
fn parse_string<'a>(
    context: Context,
    tokens: &'a [Token],
) -> Result<(Strings, &'a [Token]), Failure>
    ensures taken { IfOk result (λ x. Reads context.entry.text.now (Single AnyText) strings_of tokens.now x.1.now x.0) }
    ensures fault { IfErr result (λ e. Fails context.entry.text.now (Single AnyText) tokens.now e) }
{
    let (_, rest) = expect(context.text, tokens, Terminal::AnyText)?;
    Ok((
        read_strings(context.alloc, context.text, tokens, rest)?,
        rest,
    ))
}

/// Parses further strings, each after a comma, and adds them to `names`.
fn parse_more_names<'a>(
    context: Context,
    tokens: &'a [Token],
    names: &mut Vec<Strings>,
) -> Result<&'a [Token], Failure>
    ensures taken { IfOk result (λ rest. Adds context.entry.text.now (Star (Single Comma ▸ Single AnyText)) (list_of (behind strings_of)) tokens.now rest.now names.old.items names.new.items) }
    ensures fault { IfErr result (λ e. Fails context.entry.text.now (Star (Single Comma ▸ Single AnyText)) tokens.now e) }
{
    let mut rest = tokens;
    'items: while looks_at(context.text, rest, Terminal::Comma) {
        let (_, next) = expect(context.text, rest, Terminal::Comma)?;
        let (name, after) = parse_string(context, next)?;
        names.push(name)?;
        rest = after;
    }
    Ok(rest)
}

/// Parses strings: `string { "," string }`.
fn parse_names<'a>(
    context: Context,
    tokens: &'a [Token],
) -> Result<(Items<Strings>, &'a [Token]), Failure>
    ensures taken { IfOk result (λ x. Reads context.entry.text.now strings (listed strings_of) tokens.now x.1.now x.0) }
    ensures fault { IfErr result (λ e. Fails context.entry.text.now strings tokens.now e) }
{
    let (first, rest) = parse_string(context, tokens)?;
    let mut names = Vec::new(context.alloc);
    names.push(first)?;
    let rest = parse_more_names(context, rest, &mut names)?;
    Ok((Items::new(names), rest))
}

/// Parses a reserved statement: `"reserved" ( range { "," range } | string { "," string } ) ";"`.
pub(crate) fn parse_reserved<'a>(
    context: Context,
    tokens: &'a [Token],
    signs: bool,
    depth: u8,
    nodes: &mut Vec<Node>,
) -> Result<&'a [Token], Failure>
    ensures taken { IfOk result (λ rest. Adds context.entry.text.now (reserved signs) (reserved_nodes depth) tokens.now rest.now nodes.old.items nodes.new.items) }
    ensures fault { IfErr result (λ e. Fails context.entry.text.now (reserved signs) tokens.now e) }
{
    let (_, rest) = expect(context.text, tokens, Terminal::ReservedWord)?;
    if looks_at_bound(context.text, rest, signs) {
        let (ranges, rest) = parse_ranges(context, rest, signs)?;
        let (_, rest) = expect(context.text, rest, Terminal::Semicolon)?;
        push_node(
            nodes,
            depth,
            tokens,
            rest,
            Statement::ReservedNumbers(ranges),
        )?;
        return Ok(rest);
    }
    let (names, rest) = parse_names(context, rest)?;
    let (_, rest) = expect(context.text, rest, Terminal::Semicolon)?;
    push_node(nodes, depth, tokens, rest, Statement::ReservedNames(names))?;
    Ok(rest)
}
