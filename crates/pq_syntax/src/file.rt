//! The tree of a file as one value.
//!
//! In a text the statements come one after the other, and so do the types that they refer to. `new`
//! tests that in one pass. From then on `only_at` finds the one statement whose types can hold an
//! offset, by a binary search among the starts of the statements.
ghost use Rattle.std.specs.Prelude.{◌≡◌, ◌≤◌, ◌<◌, ℕ, IfSome, get_or, leb, length, true};
ghost use Rattle.pq_syntax.specs.TypeSpans.{AllTypes, IsOnlyAt};
ghost use Rattle.pq_syntax.specs.aux.TypesRise.{LiesIn, TypesRise};
ghost use Rattle.pq_syntax.specs.declared.tree.Node.{Node};

use crate::tree::{Node, Statement};
use pq_lex::Span;
use std::marker::Model;

/// The tree of a file: its statements in text order, each before the statements that it contains.
/// An empty statement has no node.
///
/// The tree keeps names and spans but not the text, so an edit of a comment that moves no token
/// leaves it equal. Contracts see the list of statements, and `==` compares exactly that list.
#[derive(Debug, Drop)]
pub struct File {
    nodes: Vec<Node>,
    /// Whether the statements and their types are known to come one after the other.
    rises: bool,
}

impl Model for File {
    ghost use Rattle.std.specs.Prelude.{◌≡◌, List, true};
    ghost use Rattle.pq_syntax.specs.aux.TypesRise.{TypesRise};
    ghost use Rattle.pq_syntax.specs.declared.tree.Node.{Node};

    ghost Value = { List Node };

    ghost view = { λ f. f.nodes.items };

    ghost invariant = { λ f. f.rises ≡ true → TypesRise f.nodes.items };
}

/// The end of the span `at` of a type, or `reach` if that is greater. It is `None` if the type
/// starts before `low`.
fn end_of(at: Span, low: usize, reach: usize) -> Option<usize>
    ensures { IfSome result (λ r. (reach ≤ r) × LiesIn low r at) }
{
    if at.start < low {
        return None;
    }
    Some(at.end.max(reach))
}

/// The greatest end of the types of `statement`, or `low` if none is greater. It is `None` if a
/// type starts before `low`.
#[tactic(auto, unfolding(crate::specs::TypeSpans::AllTypes))]
fn reach_of(statement: &Statement, low: usize) -> Option<usize>
    ensures { IfSome result (λ r. (low ≤ r) × AllTypes (LiesIn low r) statement.now) }
{
    match statement {
        Statement::Field { type_name, .. } => end_of(type_name.span, low, low),
        Statement::MapField { value, .. } => end_of(value.span, low, low),
        Statement::Method { input, output, .. } => {
            let reach = end_of(input.type_name.span, low, low)?;
            end_of(output.type_name.span, low, reach)
        }
        _ => Some(low),
    }
}

/// Whether the statements `nodes` and their types come one after the other.
fn types_rise(nodes: &[Node]) -> bool
    ensures { result ≡ true → TypesRise nodes.now }
{
    let mut reach = 0;
    'nodes: for i in 0..nodes.len() {
        let node = &nodes[i];
        let start = node.span.start;
        if i > 0 && start <= reach {
            return false;
        }
        match reach_of(&node.statement, start) {
            Some(end) => reach = end,
            None => return false,
        }
    }
    true
}

/// The number of the statements `nodes` that start at `offset` or before it.
fn count_to(nodes: &[Node], offset: usize) -> usize
    requires { TypesRise nodes.now }
    ensures within { result ≤ length nodes.now }
    ensures low { (k : ℕ) (d : Node) → k < result → (get_or nodes.now k d).span.start ≤ offset }
    ensures others { (k : ℕ) (d : Node) → result ≤ k → k < length nodes.now →
        offset < (get_or nodes.now k d).span.start }
{
    nodes.partition_point(
        |node: &Node| -> bool
            ensures { result ≡ leb node.now.span.start offset }
        { node.span.start <= offset },
    )
}

impl File {
    /// The tree with the statements `nodes`.
    pub fn new(nodes: Vec<Node>) -> File
        // The tree has the statements that were handed in, in order.
        ensures { result ≡ nodes.items }
    {
        let rises = types_rise(&nodes);
        File { nodes, rises }
    }

    /// The statements, in text order.
    pub fn as_slice(&self) -> &[Node]
        // The statements of the tree, in order.
        ensures { result.now ≡ self.now }
    {
        self.nodes.as_slice()
    }

    /// The number of the only statement that can refer to a type whose span holds `offset`, both
    /// ends included, in logarithmic time. Statements count from 0. `None` says nothing.
    pub fn only_at(&self, offset: usize) -> Option<usize>
        // No type that another statement refers to holds the offset, both ends included.
        ensures only { IfSome result (IsOnlyAt self.now offset) }
    {
        if !self.rises {
            return None;
        }
        Some(count_to(&self.nodes, offset).saturating_sub(1))
    }
}

impl PartialEq for File {
    ghost use Rattle.pq_syntax.specs.aux.SameNodes.{same_nodes, nodes_per};

    ghost eq = { same_nodes };

    ghost laws = { nodes_per };

    fn eq(&self, other: &Self) -> bool {
        self.as_slice() == other.as_slice()
    }
}

impl Eq for File {
    ghost use Rattle.pq_syntax.specs.aux.SameNodes.{nodes_equiv};

    ghost laws = { nodes_equiv };
}
