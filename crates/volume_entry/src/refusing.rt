//! Why the manager doesn't do a step, by what the records of its log say.

ghost use Rattle.std.specs.Prelude.{◌≡◌, true};
ghost use Rattle.volume_entry.specs.ManagerStep.{lease_refusal, ask_refusal};
ghost use Rattle.volume_entry.specs.TableParts.{part_of};
ghost use Rattle.volume_entry.specs.Entry.{RefusesBy};

use crate::event::ManagerReply;
use crate::table::Table;

impl Table {
    /// Why no lease is given: a task has the lock.
    pub fn lease_refusal(&self) -> Option<ManagerReply>
        ensures { RefusesBy result (lease_refusal (part_of self.now)) }
    {
        match &self.lock {
            Some(lock) => Some(ManagerReply::Locked { task: lock.task }),
            None => None,
        }
    }

    /// Why the deletion of a blob isn't noted: it was noted before.
    pub fn ask_refusal(&self, bid: u64) -> Option<ManagerReply>
        ensures { RefusesBy result (ask_refusal true bid (part_of self.now)) }
    {
        if self.asked.has(bid) {
            return Some(ManagerReply::Already);
        }
        None
    }
}
