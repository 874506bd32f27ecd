ghost use Rattle.std.specs.Prelude.{◌≡◌, ℕ, ◌+◌, ◌-◌, ◌<◌, ◌≤◌, true, false, cond};
ghost use Rattle.std.proofs.Common.{rules};
ghost use Rattle.nodes.specs.Kinds.{of_direct};

use crate::branch::Branch;
use crate::child::{Child, Edge};
use crate::direct::Direct;

impl Branch for Direct {
    ghost view = { of_direct };

    const ROOM: usize = 256;

    ghost ROOM = { 256 };

    fn new() -> Self {
        Direct {
            len: 0,
            children: [None; 256],
        }
    }

    fn find(&self, byte: u8) -> Option<Child> {
        self.children[usize::from(byte)]
    }

    // Both layouts by byte scan so. A shared function over `Branch` calls back into this impl, which the check does not
    // cover, and a body in the trait wants a law that nothing stands past byte 255, which sorted nodes do not state.
    // Each turn asks `find`; a chain with `find_map` leaves a goal on its runs that no lemma of the library answers.
    fn from(&self, start: u16) -> Option<Edge> {
        for i in start..256 {
            let byte = i as u8;
            if let Some(child) = self.find(byte) {
                return Some(Edge { byte, child });
            }
        }
        None
    }

    fn len(&self) -> usize {
        self.len
    }

    fn insert(&mut self, byte: u8, child: Child) -> bool {
        if self.full() {
            return false;
        }
        self.children[usize::from(byte)] = Some(child);
        self.len += 1;
        true
    }

    fn replace(&mut self, byte: u8, child: Child) {
        self.children[usize::from(byte)] = Some(child);
    }

    fn remove(&mut self, byte: u8) {
        self.children[usize::from(byte)] = None;
        self.len -= 1;
    }

    ghost bounded = { λ node. Prim.search rules };
}
