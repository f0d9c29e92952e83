//! Why the manager doesn't swap, unlock or commit, by the records of its log and by what was heard.

ghost use Rattle.std.specs.Prelude.{◌≡◌, ℕ, Bool, List, None, false, true};
ghost use Rattle.volume_entry.specs.Benchmark.{listed_count, is_unsettled};
ghost use Rattle.volume_entry.specs.HeardCounts.{is_broken};
ghost use Rattle.volume_entry.specs.Manager.{Manager, ManagerRecord, HeardMark, IsBid, IsLegal, is_swapped, transfers_of};
ghost use Rattle.volume_entry.specs.ManagerStep.{commit_refusal, has_broken_destination, has_unheard, mark_count, swap_refusal, unlock_refusal};
ghost use Rattle.volume_entry.specs.TableParts.{part_of, shape_of};
ghost use Rattle.volume_entry.specs.HeardMemory.{Remembers};
ghost use Rattle.volume_entry.specs.Entry.{MayRefuse, RefusesBy, RefusesFor, logged};
ghost use Rattle.volume_entry.specs.declared.event.ManagerEvent.TheVariants.{Commit, Swap, Unlock};
ghost use Rattle.volume_entry.specs.Manager as manager;
ghost use Rattle.volume_entry.specs.Unsettled.{IsLeast};

use crate::book::Book;
use crate::counting::is_broken;
use crate::event::ManagerReply;
use crate::heard::Heard;
use crate::held::HeldTransfer;
use crate::shape::Shape;
use crate::table::Table;
use disk_base::Extent;

/// Whether some transfer leads to a broken disk.
fn has_broken_destination(transfers: &[HeldTransfer], broken: &[bool]) -> bool
    ensures { result ≡ has_broken_destination (is_broken broken.now) transfers.now }
{
    for transfer in transfers {
        if is_broken(broken, transfer.dest.disk) {
            return true;
        }
    }
    false
}

impl Table {
    /// Why the delete of a blob isn't settled, where marks of so many current units were heard.
    fn commit_refusal(&self, shape: Shape, bid: u64, have: u32) -> Option<ManagerReply>
        ensures refuses { (marks : List HeardMark) → have ≡ mark_count (shape_of shape).total self.now.homes.items marks bid
            → RefusesBy result (commit_refusal (shape_of shape) bid (record (part_of self.now) { marks = marks })) }
        ensures kinds { MayRefuse (Commit bid) result }
        ensures legal { IsBid bid → result ≡ None → IsLegal (shape_of shape) (part_of self.now) (ManagerRecord.Committed bid) }
    {
        if !self.asked.has(bid) {
            return Some(ManagerReply::NotAsked);
        }
        if self.committed.has(bid) {
            return Some(ManagerReply::Already);
        }
        if let Some(lock) = &self.lock {
            return Some(ManagerReply::Locked { task: lock.task });
        }
        if have < shape.mode.sight() {
            return Some(ManagerReply::TooFewMarks { have });
        }
        None
    }

    /// Why the lock isn't given back, where some old unit wasn't heard to be released, or all were.
    fn unlock_refusal(&self, task: u64, unreleased: bool) -> Option<ManagerReply>
        ensures refuses { (broken : ℕ → Bool) (heard : manager.Heard) → unreleased ≡ has_unheard broken (transfers_of self.now.lock) heard.released
            → RefusesBy result (unlock_refusal broken task (record (part_of self.now) { heard = heard })) }
        ensures kinds { MayRefuse (Unlock task) result }
        ensures swapped { result ≡ None → is_swapped self.now.lock ≡ true }
    {
        let Some(lock) = &self.lock else {
            return Some(ManagerReply::NotLocked);
        };
        if lock.task != task {
            return Some(ManagerReply::OtherTask { task: lock.task });
        }
        if !lock.is_swapped {
            return Some(ManagerReply::NotSwapped);
        }
        if unreleased {
            return Some(ManagerReply::NotReleased);
        }
        None
    }

    /// Why the destinations don't become the units of their indexes, where some old unit wasn't heard to be fenced, or all
    /// were, and so many current units were listed.
    fn swap_refusal(
        &self,
        shape: Shape,
        broken: &[bool],
        task: u64,
        unfenced: bool,
        have: u32,
    ) -> Option<ManagerReply>
        ensures refuses { (heard : manager.Heard) → unfenced ≡ has_unheard (is_broken broken.now) (transfers_of self.now.lock) heard.fenced
            → (is_swapped self.now.lock ≡ false → have ≡ listed_count (shape_of shape).total self.now.homes.items (is_broken broken.now) heard.listings)
            → RefusesBy result (swap_refusal (shape_of shape) (is_broken broken.now) task (record (part_of self.now) { heard = heard })) }
        ensures kinds { MayRefuse (Swap task) result }
        ensures legal { result ≡ None → IsLegal (shape_of shape) (part_of self.now) ManagerRecord.Swapped }
    {
        let Some(lock) = &self.lock else {
            return Some(ManagerReply::NotLocked);
        };
        if lock.task != task {
            return Some(ManagerReply::OtherTask { task: lock.task });
        }
        if lock.is_swapped {
            return Some(ManagerReply::AlreadySwapped);
        }
        if has_broken_destination(&lock.transfers, broken) {
            return Some(ManagerReply::DestBroken);
        }
        if unfenced {
            return Some(ManagerReply::NotFenced);
        }
        if have < shape.mode.sight() {
            return Some(ManagerReply::NotListed { have });
        }
        None
    }
}

impl<E: Extent> Book<E> {
    /// Why the delete of a blob isn't settled.
    pub fn commit_refusal(&self, heard: &Heard, bid: u64) -> Option<ManagerReply>
        ensures refuses { RefusesFor self.now heard.now (commit_refusal (shape_of self.now.shape) bid) result }
        ensures kinds { MayRefuse (Commit bid) result }
        ensures legal { IsBid bid → result ≡ None → IsLegal (shape_of self.now.shape) self.now.part (ManagerRecord.Committed bid) }
    {
        let have = heard.mark_count(self.shape.mode.total(), &self.table.homes, bid);
        self.table.commit_refusal(self.shape, bid, have)
    }

    /// Why the lock isn't given back.
    pub fn unlock_refusal(&self, heard: &Heard, broken: &[bool], task: u64) -> Option<ManagerReply>
        ensures refuses { RefusesFor self.now heard.now (unlock_refusal (is_broken broken.now) task) result }
        ensures kinds { MayRefuse (Unlock task) result }
        ensures legal { result ≡ None → IsLegal (shape_of self.now.shape) self.now.part ManagerRecord.Unlocked }
    {
        let unreleased = heard.has_unreleased(self.table.held(), broken);
        self.table.unlock_refusal(task, unreleased)
    }

    /// Why the destinations don't become the units of their indexes, but for blobs that they lack.
    pub fn swap_refusal(&self, heard: &Heard, broken: &[bool], task: u64) -> Option<ManagerReply>
        ensures refuses { RefusesFor self.now heard.now (swap_refusal (shape_of self.now.shape) (is_broken broken.now) task) result }
        ensures kinds { MayRefuse (Swap task) result }
        ensures legal { result ≡ None → IsLegal (shape_of self.now.shape) self.now.part ManagerRecord.Swapped }
    {
        let unfenced = heard.has_unfenced(self.table.held(), broken);
        let have = heard.listed_count(self.shape.mode.total(), &self.table.homes, broken);
        self.table
            .swap_refusal(self.shape, broken, task, unfenced, have)
    }

    /// The least blob that some destination still lacks, if any.
    pub fn least_lacked(&self, heard: &Heard, broken: &[bool]) -> Option<u64>
        ensures { (m : Manager) → self.now.part ≡ logged m → is_swapped m.lock ≡ false → Remembers (shape_of self.now.shape).total heard.now m
            → IsLeast (is_unsettled (shape_of self.now.shape) m.homes (is_broken broken.now) (transfers_of m.lock) m.heard) result }
    {
        heard.least_lacked(self.shape, &self.table.homes, self.table.held(), broken)
    }
}
