//! What every production of the parser reads besides its tokens, and the bound of their depth.

use std::alloc::Global;

/// What stays the same while one text is parsed. It is passed by value.
#[derive(Clone, Copy)]
pub(crate) struct Context<'t> {
    /// The allocator of the tree's nodes, names and lists.
    pub(crate) alloc: Global,
    /// The text in which the tokens' spans lie.
    pub(crate) text: &'t str,
    /// The limit of brackets: how many levels of them may pair up within an outermost pair.
    pub(crate) brackets: u8,
}

/// An upper bound of `depth`, the number of statements that a statement is in. Messages nest at
/// most 65 deep, under the raised limit too, and their statements nest at most two deeper. The
/// bound leaves room for one more in a `u8`.
pub(crate) const MAX_DEPTH: u8 = 200;
