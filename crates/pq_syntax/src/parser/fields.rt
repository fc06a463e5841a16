//! Fields and map fields.

ghost use Rattle.std.specs.Prelude.{◌≡◌, IfErr, IfOk, false};
ghost use Rattle.pq_syntax.specs.Grammar.{◌▸◌, entry_types, labelled, mapped, tail, type_from};
ghost use Rattle.pq_syntax.specs.Parts.{entry_of};
ghost use Rattle.pq_syntax.specs.Rule.Rule.{Seq};
ghost use Rattle.pq_syntax.specs.Rule.Parse.{Leaf};
ghost use Rattle.pq_syntax.specs.aux.Steps.{Adds, Fails, Reads};
ghost use Rattle.pq_syntax.specs.Tree.{field_nodes, label_of, labelled_nodes, mapped_nodes, tail_of};
ghost use Rattle.pq_syntax.specs.Words.{is_version, word};

use crate::failure::Failure;
use crate::parser::context::Context;
use crate::parser::names::{parse_type, parse_type_from, parse_word, skip_dotted};
use crate::parser::nodes::push_node;
use crate::parser::options::parse_settings;
use crate::parser::texts::{read_name, read_number};
use crate::parser::tokens::{expect, looks_at};
use crate::parts::{Items, Name, Number, Setting};
use crate::terminal::{Terminal, same, spelling};
use crate::tree::{Label, Node, Statement};
use pq_lex::Token;

/// The name, number and options of a field, with which each form of a field ends.
#[derive(Drop)]
pub(crate) struct Tail {
    pub(crate) name: Name,
    pub(crate) number: Number,
    pub(crate) options: Items<Setting>,
}

/// Parses the end of a field: `ident "=" integer [ opts ] ";"`.
#[inline(always)]
fn parse_tail<'a>(context: Context, tokens: &'a [Token]) -> Result<(Tail, &'a [Token]), Failure>
    ensures taken { IfOk result (λ x. Reads context.entry.text.now (tail context.entry.brackets) tail_of tokens.now x.1.now x.0) }
    ensures fault { IfErr result (λ e. Fails context.entry.text.now (tail context.entry.brackets) tokens.now e) }
{
    let (name, rest) = parse_word(context, tokens, Terminal::AnyIdentifier)?;
    let (_, rest) = expect(context.text, rest, Terminal::Equals)?;
    let (number, rest) = expect(context.text, rest, Terminal::AnyInteger)?;
    let (options, rest) = parse_settings(context, rest)?;
    let (_, rest) = expect(context.text, rest, Terminal::Semicolon)?;
    let tail = Tail {
        name,
        number: read_number(context.text, number),
        options,
    };
    Ok((tail, rest))
}

/// Parses a field without a label. Its type begins with a dot or with a name that `terminal`
/// accepts.
pub(crate) fn parse_field<'a>(
    context: Context,
    tokens: &'a [Token],
    terminal: Terminal,
    depth: u8,
    nodes: &mut Vec<Node>,
) -> Result<&'a [Token], Failure>
    requires { is_version terminal ≡ false }
    ensures taken { IfOk result (λ rest. Adds context.entry.text.now (type_from terminal ▸ tail context.entry.brackets) (field_nodes depth) tokens.now rest.now nodes.old.items nodes.new.items) }
    ensures fault { IfErr result (λ e. Fails context.entry.text.now (type_from terminal ▸ tail context.entry.brackets) tokens.now e) }
{
    let (type_name, rest) = parse_type_from(context, tokens, terminal)?;
    let (tail, rest) = parse_tail(context, rest)?;
    let field = Statement::Field {
        label: None,
        type_name,
        name: tail.name,
        number: tail.number,
        options: tail.options,
    };
    push_node(nodes, depth, tokens, rest, field)?;
    Ok(rest)
}

/// The label that `token` spells.
fn read_label(text: &str, token: Token) -> Label
    ensures { result ≡ label_of (Leaf (word text.now token)) }
{
    if same(spelling(text, token.span), b"optional") {
        Label::Optional
    } else {
        Label::Repeated
    }
}

/// Parses a field with a label: `( "optional" | "repeated" ) type tail`.
pub(crate) fn parse_labelled<'a>(
    context: Context,
    tokens: &'a [Token],
    depth: u8,
    nodes: &mut Vec<Node>,
) -> Result<&'a [Token], Failure>
    ensures taken { IfOk result (λ rest. Adds context.entry.text.now (labelled context.entry.brackets) (labelled_nodes depth) tokens.now rest.now nodes.old.items nodes.new.items) }
    ensures fault { IfErr result (λ e. Fails context.entry.text.now (labelled context.entry.brackets) tokens.now e) }
{
    let (label, rest) = expect(context.text, tokens, Terminal::LabelWord)?;
    let (type_name, rest) = parse_type(context, rest)?;
    let (tail, rest) = parse_tail(context, rest)?;
    let field = Statement::Field {
        label: Some(read_label(context.text, label)),
        type_name,
        name: tail.name,
        number: tail.number,
        options: tail.options,
    };
    push_node(nodes, depth, tokens, rest, field)?;
    Ok(rest)
}

/// Parses the types of a map's key and value: `"<" keytype "," type ">"`.
fn parse_entry_types<'a>(
    context: Context,
    tokens: &'a [Token],
) -> Result<(Name, Name, &'a [Token]), Failure>
    ensures taken { IfOk result (λ x. Reads context.entry.text.now entry_types entry_of tokens.now x.2.now (x.0, x.1)) }
    ensures fault { IfErr result (λ e. Fails context.entry.text.now entry_types tokens.now e) }
{
    let (_, rest) = expect(context.text, tokens, Terminal::Less)?;
    let (key, rest) = parse_word(context, rest, Terminal::KeyTypeName)?;
    let (_, rest) = expect(context.text, rest, Terminal::Comma)?;
    let (value, rest) = parse_type(context, rest)?;
    let (_, rest) = expect(context.text, rest, Terminal::Greater)?;
    Ok((key, value, rest))
}

/// Parses a statement that begins with `map`. It is a map field where `<` follows, and otherwise a
/// field whose type begins with that name.
pub(crate) fn parse_mapped<'a>(
    context: Context,
    tokens: &'a [Token],
    depth: u8,
    nodes: &mut Vec<Node>,
) -> Result<&'a [Token], Failure>
    ensures taken { IfOk result (λ rest. Adds context.entry.text.now (mapped context.entry.brackets) (mapped_nodes depth) tokens.now rest.now nodes.old.items nodes.new.items) }
    ensures fault { IfErr result (λ e. Fails context.entry.text.now (mapped context.entry.brackets) tokens.now e) }
{
    let (_, rest) = expect(context.text, tokens, Terminal::MapWord)?;
    if looks_at(context.text, rest, Terminal::Less) {
        let (key, value, rest) = parse_entry_types(context, rest)?;
        let (tail, rest) = parse_tail(context, rest)?;
        let field = Statement::MapField {
            key,
            value,
            name: tail.name,
            number: tail.number,
            options: tail.options,
        };
        push_node(nodes, depth, tokens, rest, field)?;
        return Ok(rest);
    }
    let rest = skip_dotted(context.text, rest)?;
    let type_name = read_name(context.alloc, context.text, tokens, rest)?;
    let (tail, rest) = parse_tail(context, rest)?;
    let field = Statement::Field {
        label: None,
        type_name,
        name: tail.name,
        number: tail.number,
        options: tail.options,
    };
    push_node(nodes, depth, tokens, rest, field)?;
    Ok(rest)
}
