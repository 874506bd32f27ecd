ghost use Rattle.std.specs.Prelude.{◌≡◌, ℕ, ◌+◌, ◌-◌, ◌<◌, ◌≤◌};
ghost use Rattle.std.specs.Iterator.{at_most};
ghost use Rattle.nodes.specs.Walking.{walked, reached, Walks};

use crate::branch::Branch;
use crate::child::Edge;

/// The children of a node from a byte on, in rising order of their bytes.
#[derive(Drop)]
pub struct Edges<'a, B> {
    pub(crate) node: &'a B,
    pub(crate) start: u16,
}

impl<'a, B: Branch> Edges<'a, B> {
    /// All children of a node.
    pub fn of(node: &'a B) -> Self
        ensures whole { walked result ≡ node.now }
        ensures start { reached result ≡ 0 }
    {
        Edges { node, start: 0 }
    }
}

impl<'a, B: Branch> Iterator for Edges<'a, B> {
    type Item = Edge;

    ghost next_gives = { Walks B.view };

    ghost remaining = { λ s. at_most (256 - reached s) };

    fn next(&mut self) -> Option<Edge> {
        let edge = self.node.from(self.start)?;
        self.start = u16::from(edge.byte) + 1;
        Some(edge)
    }
}
