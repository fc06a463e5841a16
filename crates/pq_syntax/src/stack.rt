//! The open statements of a walk over a tree, with what the walk keeps of each.
//!
//! A walk closes the stack to a statement's depth, reads the innermost kept value, and opens the
//! statement. Each statement is pushed and popped at most once, so a walk is linear in the tree.

ghost use Rattle.std.specs.Prelude.{◌≡◌, [], ◌∷◌, OnOk, OnErr};
ghost use Rattle.std.specs.Option.{option_copied};
ghost use Rattle.pq_syntax.specs.Stacks.{closed, innermost};

use crate::Memory;
use std::alloc::Global;
use std::marker::Model;

/// The open statements of a walk: the depth of each, and what the walk keeps of it.
///
/// Contracts see the list of them, the innermost first.
#[derive(Drop)]
pub struct Stack<T> {
    entries: Vec<(u8, T)>,
}

impl<T> Model for Stack<T> {
    ghost use Rattle.std.specs.Prelude.{List, ℕ, reverse};

    ghost Value = { List (ℕ × T) };

    ghost view = { λ s. reverse s.entries.items };
}

impl<T: Drop> Stack<T> {
    /// A stack without statements, which takes its memory from `alloc`.
    pub fn new(alloc: Global) -> Self
        // A new stack has no open statement.
        ensures { result ≡ [] }
    {
        Stack {
            entries: Vec::new(alloc),
        }
    }

    /// Closes each statement that does not contain a statement of the depth `depth` that is next.
    pub fn close_to(&mut self, depth: u8)
        // The open statements of a walk over a tree that do not contain the next statement, which
        // is of this depth, are closed.
        ensures { self.new ≡ closed depth self.old }
    {
        'open: while let Some(entry) = self.entries.last() {
            if entry.0 < depth {
                return;
            }
            self.entries.pop();
        }
    }

    /// Opens a statement of the depth `depth`, of which the walk keeps `value`.
    pub fn open(&mut self, depth: u8, value: T) -> Result<(), Memory>
        // `opened`, `refused`: The statement is open, with what the walk keeps of it. After an
        // allocation failure the stack is as it was.
        ensures opened { OnOk result (self.new ≡ (depth, value) ∷ self.old) }
        ensures refused { OnErr result (self.new ≡ self.old) }
    {
        self.entries.push((depth, value))?;
        Ok(())
    }

    /// What the walk keeps of the innermost open statement.
    pub fn innermost(&self) -> Option<&T>
        // What the walk keeps of the innermost open statement.
        ensures { option_copied result ≡ innermost self.now }
    {
        match self.entries.last() {
            Some(entry) => Some(&entry.1),
            None => None,
        }
    }
}
