//! The steps of a manager that end a task's move of units, and those that settle deletes.

ghost use Rattle.std.specs.Prelude.{◌≡◌, ℕ, None, IfErr, IfSome, IsSome};
ghost use Rattle.disk_base.specs.Disk.{Lasts};
ghost use Rattle.volume_entry.specs.Book.{HasRoom, EndGrows, CrashLeaves, IsWriteFault};
ghost use Rattle.volume_entry.specs.Entry.{AnswersAs, Decides, EntryCall, HasRoomIfOpen, MaySwap, Rules, Steps, WritesStep};
ghost use Rattle.volume_entry.specs.HeardCalls.{Follows};
ghost use Rattle.volume_entry.specs.HeardCounts.{is_broken};
ghost use Rattle.volume_entry.specs.Manager.{IsBid, IsLegal, ManagerRecord, written};
ghost use Rattle.volume_entry.specs.ManagerStep.{commit_refusal, unlock_refusal};
ghost use Rattle.volume_entry.specs.RecordBytes.{record_of};
ghost use Rattle.volume_entry.specs.TableParts.{shape_of};
ghost use Rattle.volume_entry.specs.declared.event.ManagerEvent.TheVariants.{Commit, Swap, Unlock};

use crate::entry::Entry;
use crate::event::ManagerReply;
use crate::fault::EntryFault;
use crate::record::LogRecord;
use disk_base::Extent;

impl<E: Extent> Entry<E> {
    // Writes a record after which memory tells the same.
    fn write_kept(&mut self, item: &LogRecord) -> Result<(), EntryFault>
        requires kept { Follows (written (record_of item.now)) self.old.heard self.old.heard }
        requires legal { IsLegal (shape_of self.old.book.shape) self.old.book.part (record_of item.now) }
        requires room { HasRoom self.old.book.log.end }
        ensures writes { WritesStep E.seen (record_of item.now) self.old self.new result }
        ensures lasts { Lasts (E.seen self.old.book.log.file) (E.seen self.new.book.log.file) }
        ensures grows { EndGrows self.old.book.log.end self.new.book.log.end }
        ensures moments { CrashLeaves E.seen (record_of item.now) self.old.book self.new.book }
        ensures named { IfErr result IsWriteFault }
    {
        self.book.write(item)
    }

    // Writes that the lock is given back. Once that is written, what was heard under the lock is forgotten.
    fn write_unlocked(&mut self) -> Result<(), EntryFault>
        requires legal { IsLegal (shape_of self.old.book.shape) self.old.book.part ManagerRecord.Unlocked }
        requires room { HasRoom self.old.book.log.end }
        ensures writes { WritesStep E.seen ManagerRecord.Unlocked self.old self.new result }
        ensures lasts { Lasts (E.seen self.old.book.log.file) (E.seen self.new.book.log.file) }
        ensures grows { EndGrows self.old.book.log.end self.new.book.log.end }
        ensures moments { CrashLeaves E.seen ManagerRecord.Unlocked self.old.book self.new.book }
        ensures named { IfErr result IsWriteFault }
    {
        match self.book.write(&LogRecord::Unlocked) {
            Ok(()) => {
                self.heard.unlock();
                Ok(())
            }
            Err(fault) => Err(fault),
        }
    }

    /// Settles the delete of a blob, once it is marked at enough units.
    ///
    /// # Errors
    ///
    /// As for `lease`.
    pub fn commit(&mut self, bid: u64) -> Result<ManagerReply, EntryFault>
        requires bid { IsBid bid }
        requires room { HasRoomIfOpen self.old.book.log.end }
        ensures call { EntryCall E.seen self.old self.new result }
        ensures steps { (time : ℕ) → Steps E.seen time (Commit bid) self.old self.new result }
        ensures lasts { Lasts (E.seen self.old.book.log.file) (E.seen self.new.book.log.file) }
        ensures grows { EndGrows self.old.book.log.end self.new.book.log.end }
        ensures moments { CrashLeaves E.seen (ManagerRecord.Committed bid) self.old.book self.new.book }
        ensures kinds { AnswersAs (Commit bid) self.old.book.log.end result }
    {
        match self.commit_answer(bid) {
            Some(answer) => answer,
            None => {
                self.write_kept(&LogRecord::Committed { bid })?;
                Ok(ManagerReply::Done)
            }
        }
    }

    // What is answered where a blob's delete isn't settled.
    fn commit_answer(&self, bid: u64) -> Option<Result<ManagerReply, EntryFault>>
        requires bid { IsBid bid }
        ensures rules { (time : ℕ) → Rules E.seen time (Commit bid) (commit_refusal (shape_of self.now.book.shape) bid) self.now result }
        ensures kinds { IfSome result (AnswersAs (Commit bid) self.now.book.log.end) }
        ensures free { result ≡ None → IsSome self.now.book.log.end × IsLegal (shape_of self.now.book.shape) self.now.book.part (ManagerRecord.Committed bid) }
    {
        if self.book.end().is_none() {
            return Some(Err(EntryFault::Shut));
        }
        match self.book.commit_refusal(&self.heard, bid) {
            Some(reply) => Some(Ok(reply)),
            None => None,
        }
    }

    /// Gives the lock of a task back, once all old units on unbroken disks are released.
    ///
    /// # Errors
    ///
    /// As for `lease`.
    pub fn unlock(&mut self, task: u64) -> Result<ManagerReply, EntryFault>
        requires room { HasRoomIfOpen self.old.book.log.end }
        ensures call { EntryCall E.seen self.old self.new result }
        ensures steps { (time : ℕ) → Steps E.seen time (Unlock task) self.old self.new result }
        ensures lasts { Lasts (E.seen self.old.book.log.file) (E.seen self.new.book.log.file) }
        ensures grows { EndGrows self.old.book.log.end self.new.book.log.end }
        ensures moments { CrashLeaves E.seen ManagerRecord.Unlocked self.old.book self.new.book }
        ensures kinds { AnswersAs (Unlock task) self.old.book.log.end result }
    {
        match self.unlock_answer(task) {
            Some(answer) => answer,
            None => {
                self.write_unlocked()?;
                Ok(ManagerReply::Done)
            }
        }
    }

    // What is answered where the lock isn't given back.
    fn unlock_answer(&self, task: u64) -> Option<Result<ManagerReply, EntryFault>>
        ensures rules { (time : ℕ) → Rules E.seen time (Unlock task) (unlock_refusal (is_broken self.now.broken) task) self.now result }
        ensures kinds { IfSome result (AnswersAs (Unlock task) self.now.book.log.end) }
        ensures free { result ≡ None → IsSome self.now.book.log.end × IsLegal (shape_of self.now.book.shape) self.now.book.part ManagerRecord.Unlocked }
    {
        if self.book.end().is_none() {
            return Some(Err(EntryFault::Shut));
        }
        match self.book.unlock_refusal(&self.heard, &self.broken, task) {
            Some(reply) => Some(Ok(reply)),
            None => None,
        }
    }

    /// Makes the destinations of a task's lock the units of their indexes, once the old units on unbroken disks are fenced,
    /// enough units are listed, and no destination lacks a blob.
    ///
    /// # Errors
    ///
    /// As for `lease`.
    pub fn swap(&mut self, task: u64) -> Result<ManagerReply, EntryFault>
        requires room { HasRoomIfOpen self.old.book.log.end }
        ensures call { EntryCall E.seen self.old self.new result }
        ensures steps { (time : ℕ) → Steps E.seen time (Swap task) self.old self.new result }
        ensures lasts { Lasts (E.seen self.old.book.log.file) (E.seen self.new.book.log.file) }
        ensures grows { EndGrows self.old.book.log.end self.new.book.log.end }
        ensures moments { CrashLeaves E.seen ManagerRecord.Swapped self.old.book self.new.book }
        ensures kinds { AnswersAs (Swap task) self.old.book.log.end result }
    {
        match self.swap_answer(task) {
            Some(answer) => answer,
            None => {
                self.write_kept(&LogRecord::Swapped)?;
                Ok(ManagerReply::Done)
            }
        }
    }

    // What is answered where the destinations don't become units.
    fn swap_answer(&self, task: u64) -> Option<Result<ManagerReply, EntryFault>>
        ensures rules { (time : ℕ) → Decides E.seen time (Swap task) (MaySwap (shape_of self.now.book.shape) (is_broken self.now.broken) task) self.now result }
        ensures kinds { IfSome result (AnswersAs (Swap task) self.now.book.log.end) }
        ensures free { result ≡ None → IsSome self.now.book.log.end × IsLegal (shape_of self.now.book.shape) self.now.book.part ManagerRecord.Swapped }
    {
        if self.book.end().is_none() {
            return Some(Err(EntryFault::Shut));
        }
        if let Some(reply) = self.book.swap_refusal(&self.heard, &self.broken, task) {
            return Some(Ok(reply));
        }
        if let Some(bid) = self.book.least_lacked(&self.heard, &self.broken) {
            return Some(Ok(ManagerReply::NotCopied { bid }));
        }
        None
    }
}
