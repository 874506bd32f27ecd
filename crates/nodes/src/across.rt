// What holds of every layout alike: written once, over the view.
ghost use Rattle.std.specs.Prelude.{◌≡◌, ℕ, ◌+◌, ◌-◌, ◌<◌, ◌≤◌};
ghost use Rattle.std.proofs.Common.{rules};
ghost use Rattle.nodes.specs.View.{First, count, without};

use crate::branch::{Branch, Grow};
use crate::child::Edge;
use crate::direct::Direct;
use crate::edges::Edges;
use crate::placed::Placed;
use crate::sorted::Sorted;

// a node of kind B with all children of `node`
pub fn carry<A: Branch, B: Branch>(node: &A) -> B
    requires { count (A.Branch.view node.now) ≤ B.Branch.ROOM }
    ensures { (k : ℕ) → B.Branch.view result k ≡ A.Branch.view node.now k }
{
    let mut out = B::new();
    for edge in Edges::of(node) {
        let _ = out.insert(edge.byte, edge.child);
    }
    out
}

// the child with the smallest byte but `byte`
pub fn other<B: Branch>(node: &B, byte: u8) -> Option<Edge>
    ensures { First (without (B.Branch.view node.now) byte) 0 result }
{
    match node.from(0) {
        Some(edge) if edge.byte == byte => node.from(u16::from(byte) + 1),
        first => first,
    }
}

// a node of the next larger kind, with all children of `node`
pub fn grown<B: Grow>(node: &B) -> B::Larger
    ensures { (k : ℕ) → B.Larger.Branch.view result k ≡ B.Branch.view node.now k }
{
    carry(node)
}

impl Grow for Sorted<4> {
    type Larger = Sorted<16>;

    ghost wider = { Prim.search rules };
}

impl Grow for Sorted<16> {
    type Larger = Placed;

    ghost wider = { Prim.search rules };
}

impl Grow for Placed {
    type Larger = Direct;

    ghost wider = { Prim.search rules };
}
