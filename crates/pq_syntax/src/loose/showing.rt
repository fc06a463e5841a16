//! The statement that a sight shows.
ghost use Rattle.std.specs.Prelude.{◌≡◌, ◌∷◌, ◌++◌, IfOk, List, [], drop, take, ℕ};
ghost use Rattle.pq_syntax.specs.Loose.{name_of_words, showing, shown, strings_of_words};
ghost use Rattle.pq_syntax.specs.Words.{words};
ghost use Rattle.pq_syntax.specs.declared.loose.sights.Sight.TheVariants.{Import};

use crate::Memory;
use crate::loose::sights::{Sight, kind_at};
use crate::parser::{across, read_name, read_strings};
use crate::parts::{Name, Strings};
use crate::tree::{Node, Statement};
use pq_lex::Token;
use std::alloc::Global;

/// The first `count` of `tokens`, or all.
fn first(tokens: &[Token], count: usize) -> &[Token]
    ensures { result.now ≡ take count tokens.now }
{
    &tokens[..count.min(tokens.len())]
}

/// The tokens from number `count` on.
pub(crate) fn after(tokens: &[Token], count: usize) -> &[Token]
    ensures { result.now ≡ drop count tokens.now }
{
    &tokens[count.min(tokens.len())..]
}

/// The name that `tokens` spell.
fn name_of(alloc: Global, text: &str, tokens: &[Token]) -> Result<Name, Memory>
    ensures { IfOk result (λ n. n ≡ name_of_words (words text.now tokens.now)) }
{
    let rest = after(tokens, tokens.len());
    read_name(alloc, text, tokens, rest)
}

/// The joined value of the strings `tokens`.
fn strings_of(alloc: Global, text: &str, tokens: &[Token]) -> Result<Strings, Memory>
    ensures { IfOk result (λ s. s ≡ strings_of_words (words text.now tokens.now)) }
{
    let rest = after(tokens, tokens.len());
    read_strings(alloc, text, tokens, rest)
}

/// The name of the statement that spans `tokens`: what follows its keyword.
fn named(alloc: Global, text: &str, tokens: &[Token]) -> Result<Name, Memory>
    ensures { IfOk result (λ n. n ≡ name_of_words (drop 1 (words text.now tokens.now))) }
{
    name_of(alloc, text, after(tokens, 1))
}

/// Adds the node of `statement`, which spans `tokens`.
fn push_node(
    nodes: &mut Vec<Node>,
    depth: u8,
    tokens: &[Token],
    statement: Statement,
) -> Result<(), Memory>
    ensures { IfOk result (λ u. (text : List ℕ) → nodes.new.items ≡ nodes.old.items ++ showing depth (words text tokens.now) statement ∷ []) }
{
    let rest = after(tokens, tokens.len());
    nodes.push(Node {
        depth,
        span: across(tokens, rest),
        statement,
    })?;
    Ok(())
}

/// Adds the import `tokens`, whose strings are from number `before` on.
fn push_import(
    alloc: Global,
    text: &str,
    nodes: &mut Vec<Node>,
    depth: u8,
    tokens: &[Token],
    before: usize,
    count: usize,
) -> Result<(), Memory>
    ensures { IfOk result (λ u. nodes.new.items ≡ nodes.old.items ++ shown depth (words text.now tokens.now) (Import before count)) }
{
    let spanned = first(tokens, count);
    let kind = kind_at(text, tokens);
    let file = strings_of(alloc, text, after(spanned, before))?;
    push_node(nodes, depth, spanned, Statement::Import { kind, file })
}

/// Adds the statement that `sight` at the first of `tokens` shows, if it shows one.
pub(crate) fn push_shown(
    alloc: Global,
    text: &str,
    nodes: &mut Vec<Node>,
    depth: u8,
    tokens: &[Token],
    sight: Sight,
) -> Result<(), Memory>
    ensures { IfOk result (λ u. nodes.new.items ≡ nodes.old.items ++ shown depth (words text.now tokens.now) sight) }
{
    match sight {
        Sight::Package(count) => {
            let spanned = first(tokens, count);
            let name = named(alloc, text, spanned)?;
            push_node(nodes, depth, spanned, Statement::Package { name })
        }
        Sight::Import(before, count) => {
            push_import(alloc, text, nodes, depth, tokens, before, count)
        }
        Sight::Message | Sight::Group(_, _) => {
            let spanned = first(tokens, 2);
            let name = named(alloc, text, spanned)?;
            push_node(nodes, depth, spanned, Statement::Message { name })
        }
        Sight::Enum => {
            let spanned = first(tokens, 2);
            let name = named(alloc, text, spanned)?;
            push_node(nodes, depth, spanned, Statement::Enum { name })
        }
        Sight::Service => {
            let spanned = first(tokens, 2);
            let name = named(alloc, text, spanned)?;
            push_node(nodes, depth, spanned, Statement::Service { name })
        }
        _ => Ok(()),
    }
}
