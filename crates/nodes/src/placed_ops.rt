ghost use Rattle.std.specs.Prelude.{◌≡◌, ℕ, ◌+◌, ◌-◌, ◌<◌, ◌≤◌, true, false, length, if◌then◌else◌, nat_eq, slice_index};
ghost use Rattle.std.proofs.Common.{rules};
ghost use Rattle.nodes.specs.Kinds.{of_placed};

use crate::branch::Branch;
use crate::child::{Child, Edge};
use crate::placed::Placed;

const NO_CHILD: Child = Child::Leaf(0);

impl Branch for Placed {
    ghost view = { of_placed };

    const ROOM: usize = 48;

    ghost ROOM = { 48 };

    fn new() -> Self {
        Placed {
            len: 0,
            places: [0; 256],
            children: [NO_CHILD; 48],
        }
    }

    fn find(&self, byte: u8) -> Option<Child> {
        let place = self.places[usize::from(byte)];
        if place == 0 {
            None
        } else {
            Some(self.children[usize::from(place) - 1])
        }
    }

    // Both layouts by byte scan so. A shared function over `Branch` calls back into this impl, which the check does not
    // cover, and a body in the trait wants a law that nothing stands past byte 255, which sorted nodes do not state.
    // Each turn asks `find`; a chain with `find_map` leaves a goal on its runs that no lemma of the library answers.
    fn from(&self, start: u16) -> Option<Edge> {
        for i in start..256 {
            let byte = i as u8;
            if let Some(child) = self.find(byte) {
                return Some(Edge { byte, child });
            }
        }
        None
    }

    fn len(&self) -> usize {
        self.len
    }

    fn insert(&mut self, byte: u8, child: Child) -> bool {
        if self.full() {
            return false;
        }
        self.children[self.len] = child;
        self.places[usize::from(byte)] = self.len as u8 + 1;
        self.len += 1;
        true
    }

    fn replace(&mut self, byte: u8, child: Child) {
        let place = self.places[usize::from(byte)];
        self.children[usize::from(place) - 1] = child;
    }

    // the last child moves into the place that becomes free
    fn remove(&mut self, byte: u8) {
        let at = usize::from(byte);
        let place = self.places[at];
        let last = self.len - 1;
        rename(&mut self.places, self.len as u8, place);
        self.places[at] = 0;
        self.children[usize::from(place) - 1] = self.children[last];
        self.len = last;
    }

    ghost bounded = { λ node. Prim.search rules };
}

// each place `old` becomes `new`
fn rename(places: &mut [u8; 256], old: u8, new: u8)
    requires { 0 < old }
    ensures whole { length places.new ≡ 256 }
    ensures each { (k : ℕ) → slice_index places.new k ≡ (if nat_eq (slice_index places.old k) old then new else slice_index places.old k) }
{
    // each is written, also one that stays, so that no turn branches
    for i in 0..256 {
        places[i] = if places[i] == old { new } else { places[i] };
    }
}
