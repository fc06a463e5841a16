//! The package of a file, and the scopes of its statements.
ghost use Rattle.std.specs.Prelude.{◌≡◌, IfOk, unwrap_or};
ghost use Rattle.std.specs.Option.{option_copied, option_map};
ghost use Rattle.pq_syntax.specs.Stacks.{innermost};
ghost use Rattle.pq_schema.specs.Definitions.{package_of, scope_of};

use crate::names::enclosing::Enclosing;
use crate::{Memory, Text};
use pq_syntax::{Node, Stack, Statement};
use std::alloc::Global;

/// The package of a file with the statements `nodes`, or the empty name.
pub(crate) fn package_of(alloc: Global, nodes: &[Node]) -> Result<Text, Memory>
    ensures { IfOk result (λ t. t ≡ package_of nodes.now) }
{
    'nodes: for node in nodes {
        if let Statement::Package { name } = &node.statement {
            return name.text.copy();
        }
    }
    Text::new(alloc, "")
}

/// The scope of what `statement` contains, where `outer` is the scope of the statement itself.
pub(crate) fn scope_of(
    alloc: Global,
    statement: &Statement,
    outer: &Enclosing,
) -> Result<Enclosing, Memory>
    ensures { IfOk result (λ t. t ≡ scope_of statement.now outer.now) }
{
    match statement {
        Statement::Message { name } => outer.inside(alloc, &name.text),
        Statement::Service { name } => outer.inside(alloc, &name.text),
        Statement::Enum { .. } => outer.copy(),
        Statement::Import { .. }
        | Statement::Package { .. }
        | Statement::Option(_)
        | Statement::Field { .. }
        | Statement::MapField { .. }
        | Statement::Oneof { .. }
        | Statement::ReservedNumbers(_)
        | Statement::ReservedNames(_)
        | Statement::Value { .. }
        | Statement::Method { .. }
        | Statement::Extend { .. } => outer.copy(),
    }
}

/// What is kept of the innermost open scope, or `root` if there is none.
pub(crate) fn innermost<'a, T: Drop>(stack: &'a Stack<T>, root: &'a T) -> &'a T
    ensures { result.now ≡ unwrap_or (innermost stack.now) root.now }
{
    match stack.innermost() {
        Some(scope) => scope,
        None => root,
    }
}
