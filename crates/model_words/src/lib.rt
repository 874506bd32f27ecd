//! Locks, shares, counts and permits over eight seats: what agrees at every time, and what a seat may rely on.

#![tactic(auto)]

ghost use Rattle.model_words.specs.Theorems.{WordsKeep};

/// Every effect of a latch keeps words and holdings in agreement; a permit that would be refused stays refused.
pub fn words_keep()
    ensures { WordsKeep }
{}
