//! Nodes of the tree: adding one, and the head of a statement with a body.

ghost use Rattle.std.specs.Prelude.{◌≡◌, ◌<◌, ◌++◌, ◌∷◌, length, IfErr, IfOk, List, ℕ, [], false};
ghost use Rattle.pq_lex.specs.declared.token.Span.{Span};
ghost use Rattle.pq_syntax.specs.Grammar.{head};
ghost use Rattle.pq_syntax.specs.Parts.{head_name, span_across};
ghost use Rattle.pq_syntax.specs.aux.Steps.{Fails, Reads};
ghost use Rattle.pq_syntax.specs.Tree.{spanning};
ghost use Rattle.pq_syntax.specs.Words.{Word, is_version, words};
ghost use Rattle.pq_syntax.specs.declared.tree.Node.{Node};

use crate::Memory;
use crate::failure::Failure;
use crate::parser::context::Context;
use crate::parser::names::parse_word;
use crate::parser::texts::across;
use crate::parser::tokens::expect;
use crate::parts::Name;
use crate::terminal::Terminal;
use crate::tree::{Node, Statement};
use pq_lex::{Span, Token};

/// Adds the node of `statement`, which spans the tokens before `rest`.
pub(crate) fn push_node(
    nodes: &mut Vec<Node>,
    depth: u8,
    tokens: &[Token],
    rest: &[Token],
    statement: Statement,
) -> Result<(), Memory>
    ensures { IfOk result (λ u. (text : List ℕ) (ws : List Word) → words text tokens.now ≡ ws ++ words text rest.now → nodes.new.items ≡ nodes.old.items ++ record { depth = depth; span = span_across ws; statement = statement } ∷ []) }
{
    nodes.push(Node {
        depth,
        span: across(tokens, rest),
        statement,
    })?;
    Ok(())
}

/// Sets the span of the node at `index`.
pub(crate) fn set_span(nodes: &mut Vec<Node>, index: usize, span: Span)
    requires { index < length nodes.old.items }
    ensures { (before after : List Node) (n : Node) → nodes.old.items ≡ before ++ n ∷ after → length before ≡ index → nodes.new.items ≡ before ++ spanning n span ∷ after }
{
    nodes[index].span = span;
}

/// Parses the head of a statement with a body, `keyword ident "{"`, and returns the name.
pub(crate) fn parse_head<'a>(
    context: Context,
    tokens: &'a [Token],
    keyword: Terminal,
) -> Result<(Name, &'a [Token]), Failure>
    requires { is_version keyword ≡ false }
    ensures taken { IfOk result (λ x. Reads context.entry.text.now (head keyword) head_name tokens.now x.1.now x.0) }
    ensures fault { IfErr result (λ e. Fails context.entry.text.now (head keyword) tokens.now e) }
{
    let (_, rest) = expect(context.text, tokens, keyword)?;
    let (name, rest) = parse_word(context, rest, Terminal::AnyIdentifier)?;
    let (_, rest) = expect(context.text, rest, Terminal::OpenBrace)?;
    Ok((name, rest))
}
