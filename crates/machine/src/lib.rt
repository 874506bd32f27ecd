//! The index as a mathematical value: its calls, what each does, and the runs they make.

#![tactic(auto)]

ghost use Rattle.machine.specs.Kept.{StepsKeep};
ghost use Rattle.machine.specs.Runs.{New};
ghost use Rattle.machine.specs.Told.{HistoriesTell};

use keys::Coding;

/// A step answers and leaves the seat idle, or keeps what the operation was asked; it counts a restart, and then holds
/// nothing, exactly when it says again.
pub fn steps_keep()
    ensures { StepsKeep }
{}

/// The history of a run tells how many calls were accepted, the epoch, and what each seat is: closed, idle, or busy with
/// what it was asked, and how many calls came before its begin.
pub fn histories_tell<C: Coding>()
    ensures { HistoriesTell New C.accepts C.bytes }
{}
