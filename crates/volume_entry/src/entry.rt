//! The manager's part of one volume over its log.

ghost use Rattle.std.specs.Prelude.{◌≡◌, ◌≤◌, ◌+◌, ℕ, true, ◌==◌, ◌||◌, None, IsSome, IfSome, IfErr, OnOk, length, set};
ghost use Rattle.disk_base.specs.Disk.{Lasts};
ghost use Rattle.code_mode.specs.VolumeShape.{last_time};
ghost use Rattle.volume_entry.specs.Book.{HasRoom, EndGrows, CrashKeeps, CrashLeaves, IsWriteFault, KeepsBodies};
ghost use Rattle.volume_entry.specs.BookStart.{EndsInTime, IsSpoiledAtEnd, IsStartCause};
ghost use Rattle.volume_entry.specs.Manager.{Manager, ManagerRecord, IsLegal, IsBid};
ghost use Rattle.volume_entry.specs.ManagerStep.{lease_refusal, ask_refusal};
ghost use Rattle.volume_entry.specs.RecordBytes.{record_of};
ghost use Rattle.volume_entry.specs.TableParts.{shape_of};
ghost use Rattle.volume_entry.specs.HeardMemory.{HasRoom as HasRoomFor};
ghost use Rattle.volume_entry.specs.Entry.{AnswersAs, Stands, EntryCall, HasRoomIfOpen, is_broken, LeavesHeard, Restarts, Rules, Steps, WritesStep};
ghost use Rattle.volume_entry.specs.declared.event.ManagerEvent.TheVariants.{Lease, Ask};
ghost use Rattle.volume_entry.specs.declared.fault.EntryFault.TheVariants.{Memory};

use crate::book::Book;
use crate::event::ManagerReply;
use crate::fault::EntryFault;
use crate::heard::Heard;
use crate::record::LogRecord;
use disk_base::Extent;
use std::marker::Model;

/// A lease lasts this many ticks.
const LEASE: u64 = 10;

/// The manager's part of one volume over its log, with what was heard of the volume's units.
///
/// It is seen as its book (number, mode, disks, log, what the records of the log say, and the place of a record in doubt), as
/// what memory keeps of what was heard, and as which disks are broken. `Stands` says for which manager's part it stands.
#[derive(Drop)]
pub struct Entry<E: Extent> {
    pub(crate) book: Book<E>,
    pub(crate) heard: Heard,
    pub(crate) broken: [bool; 65],
}

impl<E: Extent> Model for Entry<E> {
    ghost use Rattle.volume_entry.specs.Entry.{EntryOver};

    ghost Value = { EntryOver E };

    ghost view = { λ entry. record { book = entry.book; heard = entry.heard; broken = entry.broken } };
}

impl<E: Extent> Entry<E> {
    /// Where the next record of the log will stand. `None` exactly where the log is shut.
    pub fn end(&self) -> Option<u64>
        ensures { result ≡ self.now.book.log.end }
    {
        self.book.end()
    }

    /// Starts the log anew, reads all its records, and forgets what was heard. It answers whether the record in doubt was found
    /// written. No record comes or goes, and a log that is started ends at 2^39 at most. A crash inside the call leaves a log of
    /// the same records, if not what one might have left before the call.
    ///
    /// # Errors
    ///
    /// `Spoiled` with the place of the first record that isn't legal behind those before it; with 0 where the file doesn't
    /// begin as a log, with the place of a broken chain, and, where each record is legal, with the log's end where that is
    /// above 2^39. `Fault` only where a call on the file failed. After each of these the log is shut; `Memory` changes
    /// nothing. It is never `Shut`.
    pub fn start(&mut self) -> Result<bool, EntryFault>
        ensures call { EntryCall E.seen self.old self.new result }
        ensures told { Restarts E.seen self.old self.new result }
        ensures lasts { Lasts (E.seen self.old.book.log.file) (E.seen self.new.book.log.file) }
        ensures bodies { KeepsBodies (E.seen self.old.book.log.file) (E.seen self.new.book.log.file) }
        ensures moments { CrashKeeps (E.seen self.old.book.log.file) (E.seen self.new.book.log.file) }
        ensures last { EndsInTime self.new.book.log.end result }
        ensures spoiled { IsSpoiledAtEnd self.old.book.vid self.old.book.shape (E.seen self.old.book.log.file) result }
        ensures named { IfErr result IsStartCause }
    {
        match self.book.start() {
            Ok((found, heard)) => {
                self.heard = heard;
                Ok(found)
            }
            Err(fault) => Err(fault),
        }
    }

    /// Gives a lease of ten ticks from now on. As at each step, the log's end moves on by 128 bytes at most.
    ///
    /// # Errors
    ///
    /// `Shut` exactly where the log is shut. `Fault` only where a call on the file failed; the log is shut then, and a
    /// start finds the record or not. `Memory` changes nothing.
    pub fn lease(&mut self, now: u64) -> Result<ManagerReply, EntryFault>
        requires time { now ≤ last_time }
        requires room { HasRoomIfOpen self.old.book.log.end }
        ensures call { EntryCall E.seen self.old self.new result }
        ensures steps { Steps E.seen now Lease self.old self.new result }
        ensures lasts { Lasts (E.seen self.old.book.log.file) (E.seen self.new.book.log.file) }
        ensures grows { EndGrows self.old.book.log.end self.new.book.log.end }
        ensures moments { CrashLeaves E.seen (ManagerRecord.Leased (now + 10)) self.old.book self.new.book }
        ensures kinds { AnswersAs Lease self.old.book.log.end result }
    {
        match self.lease_answer(now) {
            Some(answer) => answer,
            None => {
                let end = now + LEASE;
                self.write(&LogRecord::Leased { end })?;
                Ok(ManagerReply::LeaseTo { end })
            }
        }
    }

    // What a lease answers that isn't given.
    fn lease_answer(&self, now: u64) -> Option<Result<ManagerReply, EntryFault>>
        ensures rules { Rules E.seen now Lease lease_refusal self.now result }
        ensures kinds { IfSome result (AnswersAs Lease self.now.book.log.end) }
        ensures free { result ≡ None → IsSome self.now.book.log.end × (lease_refusal self.now.book.part ≡ None) }
    {
        if self.book.end().is_none() {
            return Some(Err(EntryFault::Shut));
        }
        match self.book.lease_refusal() {
            Some(reply) => Some(Ok(reply)),
            None => None,
        }
    }

    // Writes a record that changes nothing that is heard.
    fn write(&mut self, item: &LogRecord) -> Result<(), EntryFault>
        requires leaves { LeavesHeard (record_of item.now) }
        requires legal { IsLegal (shape_of self.old.book.shape) self.old.book.part (record_of item.now) }
        requires room { HasRoom self.old.book.log.end }
        ensures writes { WritesStep E.seen (record_of item.now) self.old self.new result }
        ensures lasts { Lasts (E.seen self.old.book.log.file) (E.seen self.new.book.log.file) }
        ensures grows { EndGrows self.old.book.log.end self.new.book.log.end }
        ensures moments { CrashLeaves E.seen (record_of item.now) self.old.book self.new.book }
        ensures named { IfErr result IsWriteFault }
    {
        self.book.write(item)
    }

    /// Notes that the deletion of a blob is asked for. Whether the blob was begun is tested before.
    ///
    /// # Errors
    ///
    /// As for `lease`.
    pub fn ask(&mut self, bid: u64) -> Result<ManagerReply, EntryFault>
        requires bid { IsBid bid }
        requires room { HasRoomIfOpen self.old.book.log.end }
        ensures call { EntryCall E.seen self.old self.new result }
        ensures steps { (time : ℕ) → Steps E.seen time (Ask bid) self.old self.new result }
        ensures lasts { Lasts (E.seen self.old.book.log.file) (E.seen self.new.book.log.file) }
        ensures grows { EndGrows self.old.book.log.end self.new.book.log.end }
        ensures moments { CrashLeaves E.seen (ManagerRecord.Asked bid) self.old.book self.new.book }
        ensures kinds { AnswersAs (Ask bid) self.old.book.log.end result }
    {
        match self.ask_answer(bid) {
            Some(answer) => answer,
            None => {
                self.write(&LogRecord::Asked { bid })?;
                Ok(ManagerReply::Done)
            }
        }
    }

    // What is answered where a blob's deletion isn't noted.
    fn ask_answer(&self, bid: u64) -> Option<Result<ManagerReply, EntryFault>>
        ensures rules { (time : ℕ) → Rules E.seen time (Ask bid) (ask_refusal true bid) self.now result }
        ensures kinds { IfSome result (AnswersAs (Ask bid) self.now.book.log.end) }
        ensures free { result ≡ None → IsSome self.now.book.log.end × (ask_refusal true bid self.now.book.part ≡ None) }
    {
        if self.book.end().is_none() {
            return Some(Err(EntryFault::Shut));
        }
        match self.book.ask_refusal(bid) {
            Some(reply) => Some(Ok(reply)),
            None => None,
        }
    }

    /// Makes room for what one answer adds to what is heard. Only memory can be wanting.
    pub fn reserve(&mut self) -> Result<(), EntryFault>
        ensures same { (m : Manager) → Stands E.seen self.old m → Stands E.seen self.new m }
        ensures book { (self.new.book ≡ self.old.book) × (self.new.broken ≡ self.old.broken) }
        ensures named { IfErr result (λ fault. fault ≡ Memory) }
        ensures room { OnOk result (HasRoomFor self.new.heard) }
    {
        Ok(self.heard.reserve()?)
    }

    /// Notes that a disk, counted from 1 to 64, is broken.
    pub fn break_disk(&mut self, disk: u32)
        requires { disk ≤ 64 }
        ensures set { self.new ≡ record self.old { broken = set self.old.broken disk true } }
        ensures each { (other : ℕ) → is_broken self.new.broken other ≡ ((other == disk) || is_broken self.old.broken other) }
        ensures count { length self.new.broken ≡ length self.old.broken }
    {
        self.broken[disk as usize] = true;
    }

    /// The file, as the log leaves it.
    pub fn into_file(self) -> E
        ensures { result ≡ self.book.log.file }
    {
        self.book.into_file()
    }
}
