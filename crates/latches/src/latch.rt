ghost use Rattle.std.specs.Prelude.{◌≡◌, ℕ, ◌≤◌};
ghost use Rattle.latches.specs.declared.word.Permit.{Permit};
ghost use Rattle.latches.specs.declared.word.Word.{Word};
ghost use Rattle.latches.specs.Rules.{Face, Took, Passed, Held, Returned, Freed, FreedGone, Revived, zero_word, fresh, most_shares};
ghost use Rattle.latches.specs.Smallest.{SmallestCause};

use crate::word::{Permit, Word};
use terms::Cause;

/// A latch over a 64-bit word.
///
/// `face` is its meaning: what a word means, what a permit weighs, and how many shares may be out.
/// A refusal changes nothing and carries the smallest cause that applies; what a call does not name stays.
/// Word and permit stay two parameters: whether they belong together is what a latch is asked.
/// Whatever keeps these contracts is a latch that the index is proved for.
pub trait Latch {
    /// What a permit adds to the shares.
    const WEIGHT: u64;

    /// How many shares may be out.
    const LIMIT: u64;

    ghost WEIGHT: { ℕ };

    ghost LIMIT: { ℕ };

    ghost face: { Face };

    /// What this permit weighs: a latch may have permits of more than one weight.
    fn weight_of(permit: Permit) -> u64
        ensures { result ≡ face.weight permit };

    /// A permit, together with the word that knows of it.
    fn take(word: Word) -> Result<(Word, Permit), Cause>
        ensures { Took face word result };

    /// Whether the node is as it was when the permit was taken.
    fn check(word: Word, permit: Permit) -> Result<(), Cause>
        ensures { Passed face word permit result };

    /// Turns a permit into the lock.
    fn lock(word: Word, permit: Permit) -> Result<Word, Cause>
        ensures { Held face word permit result };

    /// Ends a permit.
    fn give_back(word: Word, permit: Permit) -> Word
        ensures { Returned face word permit result };

    /// Ends a lock.
    fn unlock(word: Word) -> Word
        ensures { Freed face word result };

    /// Ends the lock of a node that left the tree.
    fn unlock_gone(word: Word) -> Word
        ensures { FreedGone face word result };

    /// Makes a word ready for a node that joins the tree.
    fn revive(word: Word) -> Word
        ensures { Revived face word result };

    ghost bounded: { face.limit ≡ LIMIT };

    ghost light: { (p : Permit) → face.weight p ≤ 1 };

    ghost some: { 1 ≤ face.limit };

    ghost few: { face.limit ≤ most_shares };

    ghost within: { (w : Word) → (face.means w).shares ≤ face.limit };

    ghost starts: { face.means zero_word ≡ fresh };
}

/// The cause that a refusal carries applies, and no smaller one does.
pub fn smallest_cause()
    ensures { SmallestCause }
{}
