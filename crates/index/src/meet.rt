ghost use Rattle.std.specs.Prelude.{◌≡◌};
ghost use Rattle.index.specs.Meets.{Meets};

use crate::operation::{Met, Operation, Stage};
use crate::tree::Tree;
use latches::Latch;
use terms::Cause;

impl Tree {
    /// Does to the tree what the stage of an operation does.
    // A match and no stored closure: stages are data in seats that are copied, and there is no heap.
    pub(crate) fn meet<L: Latch>(&mut self, op: &Operation) -> Met
        ensures epoch { self.new.epoch ≡ self.old.epoch }
        ensures met { Meets L.face op.now.key self.old self.new op.now.stage result }
    {
        match op.stage {
            Stage::Take => self.take::<L>().map_or_else(Met::Refused, Met::Granted),
            Stage::Look(permit) => match self.look(&op.key) {
                Some(sight) => Met::Saw(sight),
                None => {
                    self.give_back::<L>(permit);
                    Met::Refused(Cause::Changed)
                }
            },
            Stage::Check(permit, _) => self
                .check::<L>(permit)
                .map_or_else(Met::Refused, |()| Met::Done),
            Stage::Lock(permit, _) => self
                .lock::<L>(permit)
                .map_or_else(Met::Refused, |()| Met::Done),
            Stage::Draw(course) => self
                .draw::<L>(&op.key, course)
                .map_or_else(Met::NoRoom, Met::Drew),
            Stage::Write(leaf) => {
                self.write(&op.key, leaf);
                Met::Done
            }
            Stage::Unlock => {
                self.unlock::<L>();
                Met::Done
            }
        }
    }
}
