//! Runs of the index from a just made one none of whose nodes has a child, and what their histories tell.

#![tactic(auto)]

ghost use Rattle.machine.specs.Told.{HistoriesTell};
ghost use Rattle.runs.specs.Runs.{New};

use keys::Coding;

/// The history of a run tells how many calls were accepted, the epoch, and what each seat is: closed, idle, or busy with
/// what it was asked, and how many calls came before its begin.
pub fn histories_tell<C: Coding>()
    ensures { HistoriesTell New C.accepts C.bytes }
{}
