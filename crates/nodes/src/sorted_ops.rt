ghost use Rattle.std.specs.Prelude.{◌≡◌, ℕ, ◌+◌, ◌-◌, ◌<◌, ◌≤◌, true, false, cond, length, Some, None};
ghost use Rattle.std.proofs.Common.{rules};
ghost use Rattle.nodes.specs.View.{View, Changed, First, count, Taken};
ghost use Rattle.nodes.specs.Listed.{edge_at};
ghost use Rattle.nodes.specs.Kinds.{of_sorted};

use crate::branch::Branch;
use crate::child::{Child, Edge};
use crate::sorted::Sorted;

const NO_EDGE: Edge = Edge {
    byte: 0,
    child: Child::Leaf(0),
};

impl<const N: usize> Sorted<N> {
    // the place of the first byte not below `byte`
    fn seek(&self, byte: u16) -> usize
        ensures within { result ≤ self.now.len }
        ensures below { (k : ℕ) → k < result → (edge_at self.now.edges k).byte < byte }
        ensures here { result < self.now.len → byte ≤ (edge_at self.now.edges result).byte }
    {
        self.edges[..self.len]
            .iter()
            .position(|edge| u16::from(edge.byte) >= byte)
            .unwrap_or(self.len)
    }
}

impl<const N: usize> Branch for Sorted<N> {
    ghost view = { of_sorted };

    const ROOM: usize = N;

    ghost ROOM = { N };

    fn new() -> Self {
        Sorted {
            len: 0,
            edges: [NO_EDGE; N],
        }
    }

    fn find(&self, byte: u8) -> Option<Child> {
        match self.from(u16::from(byte)) {
            Some(edge) if edge.byte == byte => Some(edge.child),
            _ => None,
        }
    }

    fn from(&self, start: u16) -> Option<Edge> {
        self.edges[..self.len].get(self.seek(start)).copied()
    }

    fn len(&self) -> usize {
        self.len
    }

    fn insert(&mut self, byte: u8, child: Child) -> bool {
        if self.full() {
            return false;
        }
        let at = self.seek(u16::from(byte));
        self.edges.copy_within(at..self.len, at + 1);
        self.edges[at] = Edge { byte, child };
        self.len += 1;
        true
    }

    fn replace(&mut self, byte: u8, child: Child) {
        let at = self.seek(u16::from(byte));
        self.edges[at].child = child;
    }

    fn remove(&mut self, byte: u8) {
        let at = self.seek(u16::from(byte));
        self.edges.copy_within(at + 1..self.len, at);
        self.len -= 1;
    }

    ghost bounded = { λ node. Prim.search rules };
}
