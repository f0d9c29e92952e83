//! How an entry locks its volume for a task, and gives a move of the lock a new destination.

ghost use Rattle.std.specs.Prelude.{◌≡◌, ◌≤◌, ◌<◌, ℕ, None, IfErr, IfOk, IfSome, IsSome};
ghost use Rattle.unit_id.specs.declared.targets.Target.{Target};
ghost use Rattle.code_mode.specs.VolumeShape.{last_time};
ghost use Rattle.disk_base.specs.Disk.{Lasts};
ghost use Rattle.volume_entry.specs.Book.{HasRoom, EndGrows, CrashLeaves, IsWriteFault};
ghost use Rattle.volume_entry.specs.Manager.{IsDisk, IsLegal, ManagerRecord};
ghost use Rattle.volume_entry.specs.ManagerStep.{AreTargets, lock_record, lock_refusal, retarget_record, retarget_refusal};
ghost use Rattle.volume_entry.specs.RecordBytes.{record_of};
ghost use Rattle.volume_entry.specs.TableParts.{shape_of};
ghost use Rattle.volume_entry.specs.Entry.{AnswersAs, EntryCall, FitsEvent, is_broken, IsNoGrant, HasRoomIfOpen, Rules, Steps, WritesStep};
ghost use Rattle.volume_entry.specs.Granting.{HaveMoves, WritesGrant};
ghost use Rattle.volume_entry.specs.Places.{GrantsPlaces};
ghost use Rattle.volume_entry.specs.declared.event.ManagerEvent.TheVariants.{Lock, Retarget};

use crate::entry::Entry;
use crate::event::ManagerReply;
use crate::fault::EntryFault;
use crate::moving::Moving;
use crate::record::{LogRecord, NewHome};
use disk_base::Extent;
use unit_id::{Target, Targets};

impl<E: Extent> Entry<E> {
    /// A task locks the volume at this time, to move units to these targets: at least one, at most as many as a quorum has
    /// beyond the data shards, each of another index, in order of indexes, on disks that the volume may use. What was heard
    /// of units is forgotten. Whatever the file tells, a grant shows units of this volume, each on one of its disks.
    ///
    /// # Errors
    ///
    /// As for `lease`.
    pub fn lock(
        &mut self,
        now: u64,
        task: u64,
        targets: &Targets,
    ) -> Result<ManagerReply, EntryFault>
        requires time { now ≤ last_time }
        requires targets { AreTargets (shape_of self.old.book.shape) targets.now }
        requires room { HasRoomIfOpen self.old.book.log.end }
        ensures call { EntryCall E.seen self.old self.new result }
        ensures steps { Steps E.seen now (Lock task targets.now) self.old self.new result }
        ensures lasts { Lasts (E.seen self.old.book.log.file) (E.seen self.new.book.log.file) }
        ensures grows { EndGrows self.old.book.log.end self.new.book.log.end }
        ensures moments { CrashLeaves E.seen (lock_record task targets.now self.old.book.part) self.old.book self.new.book }
        ensures kinds { AnswersAs (Lock task targets.now) self.old.book.log.end result }
        ensures places { IfOk result (GrantsPlaces self.old.book.vid (shape_of self.old.book.shape)) }
    {
        let wanted = targets.as_slice();
        match self.lock_answer(now, wanted) {
            Some(answer) => answer,
            None => self.grant_lock(task, wanted),
        }
    }

    // What is answered where no lock is granted.
    fn lock_answer(&self, now: u64, targets: &[Target]) -> Option<Result<ManagerReply, EntryFault>>
        requires time { now ≤ last_time }
        requires targets { AreTargets (shape_of self.now.book.shape) targets.now }
        ensures rules { (task : ℕ) → Rules E.seen now (Lock task targets.now) (lock_refusal (is_broken self.now.broken) now targets.now) self.now result }
        ensures kinds { (task : ℕ) → IfSome result (AnswersAs (Lock task targets.now) self.now.book.log.end) }
        ensures grants { IfSome result (λ answer. IfOk answer IsNoGrant) }
        ensures open_ { result ≡ None → IsSome self.now.book.log.end }
        ensures legal { result ≡ None → (task : ℕ) → IsLegal (shape_of self.now.book.shape) self.now.book.part (lock_record task targets.now self.now.book.part) }
    {
        if self.book.end().is_none() {
            return Some(Err(EntryFault::Shut));
        }
        match self.book.lock_refusal(&self.broken, now, targets) {
            Some(reply) => Some(Ok(reply)),
            None => None,
        }
    }

    // Writes the record of a lock, and answers what it grants.
    fn grant_lock(&mut self, task: u64, targets: &[Target]) -> Result<ManagerReply, EntryFault>
        requires legal { IsLegal (shape_of self.old.book.shape) self.old.book.part (lock_record task targets.now self.old.book.part) }
        requires room { HasRoom self.old.book.log.end }
        ensures writes { WritesGrant E.seen (lock_record task targets.now self.old.book.part) self.old self.new result }
        ensures lasts { Lasts (E.seen self.old.book.log.file) (E.seen self.new.book.log.file) }
        ensures grows { EndGrows self.old.book.log.end self.new.book.log.end }
        ensures moments { CrashLeaves E.seen (lock_record task targets.now self.old.book.part) self.old.book self.new.book }
        ensures kinds { AnswersAs (Lock task targets.now) self.old.book.log.end result }
        ensures places { IfOk result (GrantsPlaces self.old.book.vid (shape_of self.old.book.shape)) }
    {
        let grants = self.book.grants_of(targets)?;
        let moves = self.book.moves_for(&grants)?;
        let lock = self.book.next_lock();
        self.write_lock(&LogRecord::Locked { task, lock, grants }, moves)?;
        Ok(self.book.granted(&self.broken))
    }

    // Writes the record of a lock, and forgets what was heard before it. Memory has these moves for it.
    fn write_lock(&mut self, item: &LogRecord, moves: Vec<Moving>) -> Result<(), EntryFault>
        requires moves { HaveMoves (record_of item.now) moves.items }
        requires legal { IsLegal (shape_of self.old.book.shape) self.old.book.part (record_of item.now) }
        requires room { HasRoom self.old.book.log.end }
        ensures writes { WritesStep E.seen (record_of item.now) self.old self.new result }
        ensures lasts { Lasts (E.seen self.old.book.log.file) (E.seen self.new.book.log.file) }
        ensures grows { EndGrows self.old.book.log.end self.new.book.log.end }
        ensures moments { CrashLeaves E.seen (record_of item.now) self.old.book self.new.book }
        ensures named { IfErr result IsWriteFault }
    {
        match self.book.write(item) {
            Ok(()) => {
                self.heard.lock(moves);
                Ok(())
            }
            Err(fault) => Err(fault),
        }
    }

    /// The task that has the lock gives the unit of an index another disk to go to, since the disk to which it was to go
    /// is broken. Rows that were heard at the old destination are forgotten. What a grant shows is as for `lock`.
    ///
    /// # Errors
    ///
    /// As for `lease`.
    pub fn retarget(&mut self, task: u64, index: u8, disk: u32) -> Result<ManagerReply, EntryFault>
        requires fits { FitsEvent (shape_of self.old.book.shape) (Retarget task index disk) }
        requires room { HasRoomIfOpen self.old.book.log.end }
        ensures call { EntryCall E.seen self.old self.new result }
        ensures steps { (time : ℕ) → Steps E.seen time (Retarget task index disk) self.old self.new result }
        ensures lasts { Lasts (E.seen self.old.book.log.file) (E.seen self.new.book.log.file) }
        ensures grows { EndGrows self.old.book.log.end self.new.book.log.end }
        ensures moments { CrashLeaves E.seen (retarget_record index disk self.old.book.part) self.old.book self.new.book }
        ensures kinds { AnswersAs (Retarget task index disk) self.old.book.log.end result }
        ensures places { IfOk result (GrantsPlaces self.old.book.vid (shape_of self.old.book.shape)) }
    {
        match self.retarget_answer(task, index, disk) {
            Some(answer) => answer,
            None => self.grant_retarget(Target { index, disk }),
        }
    }

    // What is answered where no new destination is granted.
    fn retarget_answer(
        &self,
        task: u64,
        index: u8,
        disk: u32,
    ) -> Option<Result<ManagerReply, EntryFault>>
        requires index { index < (shape_of self.now.book.shape).total }
        requires disk { IsDisk (shape_of self.now.book.shape) disk }
        ensures rules { (time : ℕ) → Rules E.seen time (Retarget task index disk) (retarget_refusal (is_broken self.now.broken) task index disk) self.now result }
        ensures kinds { IfSome result (AnswersAs (Retarget task index disk) self.now.book.log.end) }
        ensures grants { IfSome result (λ answer. IfOk answer IsNoGrant) }
        ensures open_ { result ≡ None → IsSome self.now.book.log.end }
        ensures legal { result ≡ None → IsLegal (shape_of self.now.book.shape) self.now.book.part (retarget_record index disk self.now.book.part) }
    {
        if self.book.end().is_none() {
            return Some(Err(EntryFault::Shut));
        }
        match self.book.retarget_refusal(&self.broken, task, index, disk) {
            Some(reply) => Some(Ok(reply)),
            None => None,
        }
    }

    // Writes the record of a new destination, and answers what the lock grants with it.
    fn grant_retarget(&mut self, target: Target) -> Result<ManagerReply, EntryFault>
        requires legal { IsLegal (shape_of self.old.book.shape) self.old.book.part (retarget_record target.index target.disk self.old.book.part) }
        requires room { HasRoom self.old.book.log.end }
        ensures writes { WritesGrant E.seen (retarget_record target.index target.disk self.old.book.part) self.old self.new result }
        ensures lasts { Lasts (E.seen self.old.book.log.file) (E.seen self.new.book.log.file) }
        ensures grows { EndGrows self.old.book.log.end self.new.book.log.end }
        ensures moments { CrashLeaves E.seen (retarget_record target.index target.disk self.old.book.part) self.old.book self.new.book }
        ensures kinds { (task : ℕ) → AnswersAs (Retarget task target.index target.disk) self.old.book.log.end result }
        ensures places { IfOk result (GrantsPlaces self.old.book.vid (shape_of self.old.book.shape)) }
    {
        let grant = self.book.grant_of(target);
        self.write_retarget(grant)?;
        Ok(self.book.granted(&self.broken))
    }

    // Writes the record of a new destination, and forgets the rows that were heard at the old one.
    fn write_retarget(&mut self, grant: NewHome) -> Result<(), EntryFault>
        requires legal { IsLegal (shape_of self.old.book.shape) self.old.book.part (ManagerRecord.Retargeted grant) }
        requires room { HasRoom self.old.book.log.end }
        ensures writes { WritesStep E.seen (ManagerRecord.Retargeted grant) self.old self.new result }
        ensures lasts { Lasts (E.seen self.old.book.log.file) (E.seen self.new.book.log.file) }
        ensures grows { EndGrows self.old.book.log.end self.new.book.log.end }
        ensures moments { CrashLeaves E.seen (ManagerRecord.Retargeted grant) self.old.book self.new.book }
        ensures named { IfErr result IsWriteFault }
    {
        match self.book.write(&LogRecord::Retargeted { grant }) {
            Ok(()) => {
                self.heard.retarget(grant.index);
                Ok(())
            }
            Err(fault) => Err(fault),
        }
    }
}
