//! A latch of a caller's own under the index: whatever keeps the laws of a latch will do.

#![tactic(auto)]

ghost use Rattle.std.specs.Prelude.{refl};
ghost use Rattle.std.proofs.Common.{rules};
ghost use Rattle.latches.specs.Layout.{packed_face};

use latches::{Latch, Optimistic, Permit, Word};
use terms::Cause;

/// The optimistic latch behind a type of one's own.
pub struct HandedOn;

impl Latch for HandedOn {
    const WEIGHT: u64 = 0;

    const LIMIT: u64 = 1;

    ghost WEIGHT = { 0 };

    ghost LIMIT = { 1 };

    ghost face = { packed_face 0 1 };

    fn weight_of(permit: Permit) -> u64 {
        Optimistic::weight_of(permit)
    }

    fn take(word: Word) -> Result<(Word, Permit), Cause> {
        Optimistic::take(word)
    }

    fn check(word: Word, permit: Permit) -> Result<(), Cause> {
        Optimistic::check(word, permit)
    }

    fn lock(word: Word, permit: Permit) -> Result<Word, Cause> {
        Optimistic::lock(word, permit)
    }

    fn give_back(word: Word, permit: Permit) -> Word {
        Optimistic::give_back(word, permit)
    }

    fn unlock(word: Word) -> Word {
        Optimistic::unlock(word)
    }

    fn unlock_gone(word: Word) -> Word {
        Optimistic::unlock_gone(word)
    }

    fn revive(word: Word) -> Word {
        Optimistic::revive(word)
    }

    ghost bounded = { refl };

    ghost light = { Prim.search rules };

    ghost some = { Prim.search rules };

    ghost few = { Prim.search rules };

    ghost within = { Prim.search rules };

    ghost starts = { Prim.search rules };
}

#[cfg(test)]
mod tests {
    use super::*;
    use index::Index;
    use keys::Numbers;
    use terms::{Answer, Outcome};

    #[test]
    fn what_was_added_is_found(rt: HostRuntime) {
        let mut index: Index<Numbers, HandedOn> = Index::new();
        assert_eq!(rt; index.open(0), Ok(()));
        assert_eq!(rt; index.begin_add(0, 5, 70), Ok(()));
        for _i in 0..5 {
            assert_eq!(rt; index.step(0), Ok(Outcome::Go));
        }
        assert_eq!(rt; index.step(0), Ok(Outcome::Answered(Answer::Added)));
        assert_eq!(rt; index.begin_find(0, 5), Ok(()));
        for _i in 0..2 {
            assert_eq!(rt; index.step(0), Ok(Outcome::Go));
        }
        assert_eq!(rt; index.step(0), Ok(Outcome::Answered(Answer::Found(70))));
        assert_eq!(rt; index.sweep(), Ok(0));
    }
}
