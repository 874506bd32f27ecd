ghost use Rattle.std.proofs.Common.{lit≤};

use crate::packed::{Packed, Packing};

/// Readers leave no trace in the word: whoever was overtaken learns it from the count.
pub type Optimistic = Packed<Uncounted>;

/// Permits weigh nothing.
pub struct Uncounted;

impl Packing for Uncounted {
    const WEIGHT: u64 = 0;

    const LIMIT: u64 = 1;

    ghost WEIGHT = { 0 };

    ghost LIMIT = { 1 };

    ghost light = { lit≤ tt };

    ghost some = { lit≤ tt };

    ghost few = { lit≤ tt };
}
