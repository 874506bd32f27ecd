//! The latch that packs a word's meaning into its bits:
//! from the lowest, 1 bit locked, 1 bit gone, 10 bits of shares, 52 bits of count.

ghost use Rattle.std.specs.Prelude.{◌≡◌, ℕ, ◌+◌, ◌^◌, ◌<◌, ◌≤◌, refl};
ghost use Rattle.std.proofs.Common.{rules};
ghost use Rattle.latches.specs.Layout.{meant, packed_face};
ghost use Rattle.latches.specs.Rules.{most_shares};

use crate::latch::Latch;
use crate::word::{Meaning, Permit, Word};
use std::marker::PhantomData;
use terms::Cause;

const LAST_COUNT: u64 = (1 << 52) - 1;

/// How a packed word counts its readers.
pub trait Packing {
    /// What a permit adds to the shares.
    const WEIGHT: u64;

    /// How many shares may be out.
    const LIMIT: u64;

    ghost WEIGHT: { ℕ };

    ghost LIMIT: { ℕ };

    ghost light: { WEIGHT ≤ 1 };

    ghost some: { 1 ≤ LIMIT };

    ghost few: { LIMIT ≤ most_shares };
}

/// The latch with these numbers.
// A type of its own, and no impl for every `Packing`: beside that, a caller's own latch would not be the only match.
pub struct Packed<P: Packing> {
    packing: PhantomData<P>,
}

fn unpack<P: Packing>(word: Word) -> Meaning
    ensures { result ≡ meant P.LIMIT word }
{
    let bits = word.bits;
    Meaning {
        locked: bits % 2 == 1,
        gone: bits / 2 % 2 == 1,
        shares: (bits / 4 % 1024).min(P::LIMIT),
        count: bits / 4096,
    }
}

fn pack<P: Packing>(m: Meaning) -> Word
    requires { (m.shares ≤ P.LIMIT) × (m.count < 2 ^ 52) }
    ensures { meant P.LIMIT result ≡ m }
{
    Word {
        bits: m.count * 4096 + m.shares * 4 + u64::from(m.gone) * 2 + u64::from(m.locked),
    }
}

// The count that follows; the last one stays.
fn next_count(count: u64) -> u64
    requires { count < 2 ^ 52 }
    ensures next { count < 2 ^ 50 → result ≡ count + 1 }
    ensures room { result < 2 ^ 52 }
{
    (count + 1).min(LAST_COUNT)
}

// One latch for every packing.
impl<P: Packing> Latch for Packed<P> {
    const WEIGHT: u64 = P::WEIGHT;

    const LIMIT: u64 = P::LIMIT;

    ghost WEIGHT = { P.WEIGHT };

    ghost LIMIT = { P.LIMIT };

    ghost face = { packed_face P.WEIGHT P.LIMIT };

    fn weight_of(_permit: Permit) -> u64 {
        P::WEIGHT
    }

    fn take(word: Word) -> Result<(Word, Permit), Cause> {
        let m = unpack::<P>(word);
        if m.gone {
            Err(Cause::Gone)
        } else if m.locked {
            Err(Cause::Locked)
        } else if m.shares == P::LIMIT {
            Err(Cause::Shared)
        } else {
            let taken = pack::<P>(Meaning {
                shares: m.shares + P::WEIGHT,
                ..m
            });
            Ok((taken, Permit { count: m.count }))
        }
    }

    fn check(word: Word, permit: Permit) -> Result<(), Cause> {
        let m = unpack::<P>(word);
        if m.gone {
            Err(Cause::Gone)
        } else if m.locked {
            Err(Cause::Locked)
        } else if m.count != permit.count {
            Err(Cause::Changed)
        } else {
            Ok(())
        }
    }

    fn lock(word: Word, permit: Permit) -> Result<Word, Cause> {
        Self::check(word, permit)?;
        let m = unpack::<P>(word);
        if m.shares > P::WEIGHT {
            return Err(Cause::Shared);
        }
        Ok(pack::<P>(Meaning {
            locked: true,
            shares: 0,
            ..m
        }))
    }

    fn give_back(word: Word, permit: Permit) -> Word {
        let m = unpack::<P>(word);
        pack::<P>(Meaning {
            shares: m.shares.saturating_sub(P::WEIGHT),
            ..m
        })
    }

    fn unlock(word: Word) -> Word {
        let m = unpack::<P>(word);
        pack::<P>(Meaning {
            locked: false,
            count: next_count(m.count),
            ..m
        })
    }

    fn unlock_gone(word: Word) -> Word {
        let m = unpack::<P>(word);
        pack::<P>(Meaning {
            locked: false,
            gone: true,
            count: next_count(m.count),
            ..m
        })
    }

    fn revive(word: Word) -> Word {
        let m = unpack::<P>(word);
        if m.gone {
            pack::<P>(Meaning {
                gone: false,
                count: next_count(m.count),
                ..m
            })
        } else {
            word
        }
    }

    ghost bounded = { refl };

    ghost light = { λ _. P.light };

    ghost some = { P.some };

    ghost few = { P.few };

    ghost within = { Prim.search rules };

    ghost starts = { Prim.search rules };
}
