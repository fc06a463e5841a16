//! The statements of a tree, each with what contains it, by one walk.
ghost use Rattle.std.specs.Prelude.{◌≡◌, IfOk, unwrap_or};
ghost use Rattle.pq_syntax.specs.Stacks.{innermost};
ghost use Rattle.pq_checks.specs.Members.{sited};
ghost use Rattle.pq_checks.specs.Owners.{is_enum, is_oneof};
ghost use Rattle.pq_checks.specs.aux.Spots.{opened, outside, sited_in};

use crate::Memory;
use pq_syntax::{Node, Stack, Statement};
use std::alloc::Global;

/// What contains a statement.
#[derive(Clone, Copy)]
pub(crate) struct Around {
    /// The number of the statement in whose body it is.
    pub(crate) holder: Option<usize>,
    /// The number of the message or enum whose member it is: of the innermost that is not a oneof.
    pub(crate) owner: Option<usize>,
    /// Whether it is in the body of an enum.
    pub(crate) in_enum: bool,
}

/// A statement with its number and what contains it.
#[derive(Clone, Copy)]
pub(crate) struct Spot<'a> {
    pub(crate) item: usize,
    pub(crate) around: Around,
    pub(crate) node: &'a Node,
}

/// Whether `statement` is a oneof.
fn is_oneof(statement: &Statement) -> bool
    ensures { result ≡ is_oneof statement.now }
{
    match statement {
        Statement::Oneof { .. } => true,
        _ => false,
    }
}

/// Whether `statement` is an enum.
fn is_enum(statement: &Statement) -> bool
    ensures { result ≡ is_enum statement.now }
{
    match statement {
        Statement::Enum { .. } => true,
        _ => false,
    }
}

/// What contains a statement in the body of `statement`, the item `item`, which `around` contains.
fn opened(around: Around, item: usize, statement: &Statement) -> Around
    ensures { result ≡ opened around item statement.now }
{
    Around {
        holder: Some(item),
        owner: if is_oneof(statement) {
            around.owner
        } else {
            Some(item)
        },
        in_enum: is_enum(statement),
    }
}

/// What contains the next statement, by the open statements `stack`.
fn innermost(stack: &Stack<Around>) -> Around
    ensures { result ≡ unwrap_or (innermost stack.now) outside }
{
    match stack.innermost() {
        Some(around) => *around,
        None => Around {
            holder: None,
            owner: None,
            in_enum: false,
        },
    }
}

/// The statements `nodes` of a file, each with what contains it, in text order.
pub(crate) fn spots(alloc: Global, nodes: &[Node]) -> Result<Vec<Spot<'_>>, Memory>
    ensures spots { IfOk result (λ v. sited_in v.items ≡ sited nodes.entry.now) }
{
    let mut stack: Stack<Around> = Stack::new(alloc);
    let mut spots = Vec::with_capacity(alloc, nodes.len())?;
    'items: for item in 0..nodes.len() {
        let node = &nodes[item];
        stack.close_to(node.depth);
        let around = innermost(&stack);
        let inside = opened(around, item, &node.statement);
        spots.push(Spot { item, around, node })?;
        stack.open(node.depth, inside)?;
    }
    Ok(spots)
}
