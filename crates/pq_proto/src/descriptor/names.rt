//! The package of a file, and full names.
ghost use Rattle.std.specs.Prelude.{◌≡◌, string_bytes, IfOk};
ghost use Rattle.pq_schema.specs.Definitions.{package_of, qualified};

use crate::Memory;
use pq_syntax::{Node, Statement};
use std::alloc::Global;

/// The package of a file with the statements `nodes`, or the empty name.
pub(crate) fn package_of(nodes: &[Node]) -> &str
    ensures { result.now ≡ package_of nodes.now }
{
    'nodes: for node in nodes {
        if let Statement::Package { name } = &node.statement {
            return name.text.as_str();
        }
    }
    ""
}

/// The full name of `name` in the scope of the full name `scope`.
pub(crate) fn qualified(alloc: Global, scope: &str, name: &str) -> Result<String, Memory>
    ensures { IfOk result (λ t. string_bytes t ≡ qualified scope.now name.now) }
{
    if scope.is_empty() {
        return String::from_str(alloc, name);
    }
    let mut text = String::from_str(alloc, scope)?;
    text.push_str(".")?;
    text.push_str(name)?;
    Ok(text)
}
