//! The machine of a seat: its stage, together with what it meets, gives the next stage and the outcome.
//! One match on both is a rule of the project.

ghost use Rattle.std.specs.Prelude.{◌≡◌, true, is_some, Some};
ghost use Rattle.index.specs.Machine.{decided, busy_at, clash_at_root, moved};

use crate::operation::{Course, Met, Operation, Sight, Stage, Task};
use crate::seat::Seat;
use latches::Permit;
use terms::{Answer, Cause, Clash, Kind, Outcome};

impl Operation {
    // A seat with this operation at another stage.
    fn at(self, stage: Stage) -> Seat
        ensures { result ≡ busy_at self stage }
    {
        Seat::Busy(Operation { stage, ..self })
    }

    // What follows a look: a check before the answer, or the course of an add.
    fn decide(&self, permit: Permit, sight: Sight) -> Stage
        ensures { result ≡ decided self.now.task permit sight }
    {
        match (self.task, sight) {
            (Task::Find, Sight::Same(value)) => Stage::Check(permit, Answer::Found(value)),
            (Task::Find, Sight::Nothing) => Stage::Check(permit, Answer::Absent),
            (Task::Find, Sight::Other) => Stage::Check(permit, Answer::Absent),
            (Task::Add(_), Sight::Same(value)) => Stage::Check(permit, Answer::Present(value)),
            (Task::Add(value), Sight::Nothing) => Stage::Lock(permit, Course::Insert(value)),
            (Task::Add(value), Sight::Other) => Stage::Lock(permit, Course::Split(value)),
        }
    }
}

// The root refused: nothing of the key comes before it.
fn clash(cause: Cause) -> Outcome
    ensures { result ≡ clash_at_root cause }
{
    Outcome::Again(Clash {
        cause,
        kind: Kind::Node256,
        slot: 0,
        depth: 0,
    })
}

impl Seat {
    /// Moves the seat on by what the stage of its operation met.
    pub(crate) fn advance(&mut self, op: Operation, met: Met) -> Outcome
        requires { is_some (moved op met) ≡ true }
        ensures { moved op met ≡ Some (self.new, result) }
    {
        let (seat, outcome) = match (op.stage, met) {
            (_, Met::Refused(cause)) => (op.at(Stage::Take), clash(cause)),
            (_, Met::NoRoom(kind)) => (Seat::Idle, Outcome::Answered(Answer::NoRoom(kind))),
            (_, Met::Granted(permit)) => (op.at(Stage::Look(permit)), Outcome::Go),
            (_, Met::Drew(leaf)) => (op.at(Stage::Write(leaf)), Outcome::Go),
            (Stage::Look(permit), Met::Saw(sight)) => (
                op.at(op.decide(permit, sight)),
                Outcome::Go,
            ),
            (Stage::Check(_, answer), Met::Done) => (Seat::Idle, Outcome::Answered(answer)),
            (Stage::Lock(_, course), Met::Done) => (op.at(Stage::Draw(course)), Outcome::Go),
            (Stage::Write(_), Met::Done) => (op.at(Stage::Unlock), Outcome::Go),
            (Stage::Unlock, Met::Done) => (Seat::Idle, Outcome::Answered(Answer::Added)),
            _ => unreachable(),
        };
        *self = seat;
        outcome
    }
}
