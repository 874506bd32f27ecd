//! Slots over a whole run, by what happened to them: linked, spare, drawn or retired, and only one of these.

#![tactic(auto)]

ghost use Rattle.model_slots.specs.Laws.{Promise};
ghost use Rattle.model_slots.specs.Told.{Told};
ghost use Rattle.model_slots.specs.Words.{Words};

/// What every run keeps, told from its events alone.
pub fn slots_keep()
    ensures { Promise }
{}

/// Drawn, retired and spare are what the words say: by what befell the slot last.
pub fn slots_mean()
    ensures { Words }
{}

/// Each slot is one of the four; the spare ones stand once in their queue; a retired slot turns spare at the first
/// sweep from its fence on that finds no older operation; a sweep's answer counts what it turned.
pub fn slots_told()
    ensures { Told }
{}
