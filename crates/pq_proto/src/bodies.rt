//! Walks over the bodies of a file's statements.
//!
//! A walk over a body passes over what lies deeper in one step, by the sizes of the bodies. So a
//! descriptor visits each statement a constant number of times.
ghost use Rattle.std.specs.Prelude.{◌≡◌, ◌+◌, ◌<◌, ◌≤◌, MatchOption, IfOk, IfSome, drop, length};
ghost use Rattle.pq_proto.specs.Bodies.Body.{Empty, Holds};
ghost use Rattle.pq_proto.specs.aux.Rests.{IsLast, IsNext, left};
ghost use Rattle.pq_proto.specs.aux.Sizes.{IsSized, size_of};

use crate::Memory;
use pq_syntax::Node;
use std::alloc::Global;
use std::marker::Model;

/// What is left of a body while it is walked: the statements directly in a file or in a statement.
#[derive(Drop)]
pub(crate) struct Body<'a> {
    /// The statements left in the file, the next one of the body among them.
    nodes: &'a [Node],
    /// For each of these how many statements lie in it, at any depth.
    sizes: &'a [usize],
    /// The number of the first of these: the statements of a file count from 0, in text order.
    number: usize,
    /// The depth of the statements of the body.
    depth: u16,
}

impl<'a> Model for Body<'a> {
    ghost use Rattle.std.specs.Prelude.{◌+◌, ◌<◌, ◌^◌, length};
    ghost use Rattle.pq_proto.specs.aux.Rests.{Rest};
    ghost use Rattle.pq_proto.specs.aux.Sizes.{IsSized};

    ghost Value = { Rest };

    ghost view = { λ b. record { depth = b.depth; number = b.number; nodes = b.nodes.now } };

    ghost invariant = { λ b. (b.number + length b.nodes.now < 2 ^ 64) × IsSized 0 b.nodes.now b.sizes.now };
}

/// A statement of a body.
#[derive(Drop)]
pub(crate) struct Held<'a> {
    /// The number of its item.
    pub(crate) number: usize,
    /// The statement.
    pub(crate) node: &'a Node,
    /// Its own body.
    pub(crate) inside: Body<'a>,
}

/// How many statements lie in the statement at `index`, where `sizes` has this for those after it.
fn size_at(nodes: &[Node], sizes: &[usize], index: usize) -> usize
    requires within { index < length nodes.now }
    requires sized { IsSized (index + 1) nodes.now sizes.now }
    ensures { result ≡ size_of (drop index nodes.now) }
{
    let depth = nodes[index].depth;
    let mut next = index + 1;
    'nodes: while next < nodes.len() {
        if nodes[next].depth <= depth {
            return next - index - 1;
        }
        next = next + 1 + sizes[next];
    }
    next - index - 1
}

/// For each of the statements `nodes` how many lie in it, at any depth. It takes time linear in
/// them.
pub(crate) fn sizes_of(alloc: Global, nodes: &[Node]) -> Result<Vec<usize>, Memory>
    ensures { IfOk result (λ v. IsSized 0 nodes.now v.items) }
{
    let mut sizes = vec![in alloc; 0; nodes.len()]?;
    let mut index = nodes.len();
    'nodes: while index > 0 {
        index -= 1;
        let size = size_at(nodes, sizes.as_slice(), index);
        sizes[index] = size;
    }
    Ok(sizes)
}

/// The index in `nodes` of the next statement of a body with statements of the depth `depth`.
fn next_in(nodes: &[Node], depth: u16) -> Option<usize>
    ensures { MatchOption result (IsLast depth nodes.now) (IsNext depth nodes.now) }
{
    'nodes: for index in 0..nodes.len() {
        let found = u16::from(nodes[index].depth);
        if found < depth {
            return None;
        }
        if found == depth {
            return Some(index);
        }
    }
    None
}

impl<'a> Body<'a> {
    /// The body of a file with the statements `nodes`, whose sizes are `sizes`.
    pub(crate) fn of(nodes: &'a [Node], sizes: &'a [usize]) -> Body<'a>
        requires { IsSized 0 nodes.now sizes.now }
        ensures { result ≡ record { depth = 0; number = 0; nodes = nodes.now } }
    {
        Body {
            nodes,
            sizes,
            number: 0,
            depth: 0,
        }
    }

    /// The same rest of a body once more.
    pub(crate) fn copy(&self) -> Body<'a>
        ensures { result ≡ self.now }
    {
        Body {
            nodes: self.nodes,
            sizes: self.sizes,
            number: self.number,
            depth: self.depth,
        }
    }

    /// What is left from the index `index` on, as the rest of a body with statements of the depth
    /// `depth`.
    fn from(&self, index: usize, depth: u16) -> Body<'a>
        requires { index ≤ length self.now.nodes }
        ensures { result ≡ record {
          depth = depth;
          number = self.now.number + index;
          nodes = drop index self.now.nodes;
        } }
    {
        Body {
            nodes: &self.nodes[index..],
            sizes: &self.sizes[index..],
            number: self.number + index,
            depth,
        }
    }

    /// Takes the next statement of the body.
    pub(crate) fn next(&mut self) -> Option<Held<'a>>
        ensures body { MatchOption result (left self.old ≡ Empty) (λ h. left self.old
            ≡ Holds (record { number = h.number; node = h.node.now }) (left h.inside) (left self.new)) }
        ensures shorter { IfSome result (λ h. length self.new.nodes < length self.old.nodes) }
        ensures smaller { IfSome result (λ h. length h.inside.nodes < length self.old.nodes) }
    {
        let index = next_in(self.nodes, self.depth)?;
        let node = &self.nodes[index];
        let depth = u16::from(self.nodes[index].depth) + 1;
        let number = self.number + index;
        let size = self.sizes[index];
        let inside = self.from(index + 1, depth);
        let later = self.from(index + 1 + size, self.depth);
        *self = later;
        Some(Held {
            number,
            node,
            inside,
        })
    }
}
