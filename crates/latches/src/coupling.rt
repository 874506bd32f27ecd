ghost use Rattle.std.proofs.Common.{lit≤};

use crate::packed::{Packed, Packing};

/// Readers are counted in the word, and a lock waits until there are no others.
pub type Coupling = Packed<Counted>;

/// Each permit weighs one share.
pub struct Counted;

impl Packing for Counted {
    const WEIGHT: u64 = 1;

    const LIMIT: u64 = 512;

    ghost WEIGHT = { 1 };

    ghost LIMIT = { 512 };

    ghost light = { lit≤ tt };

    ghost some = { lit≤ tt };

    ghost few = { lit≤ tt };
}
