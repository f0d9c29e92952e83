//! The book of a volume: its log, and the table that the records of the log leave.

ghost use Rattle.std.specs.Prelude.{◌≡◌, true, IfErr};
ghost use Rattle.disk_base.specs.Disk.{Lasts};
ghost use Rattle.volume_entry.specs.Manager.{IsLegal};
ghost use Rattle.volume_entry.specs.ManagerStep.{lease_refusal, ask_refusal};
ghost use Rattle.volume_entry.specs.Entry.{RefusesBy};
ghost use Rattle.volume_entry.specs.RecordBytes.{record_of};
ghost use Rattle.volume_entry.specs.TableParts.{shape_of};
ghost use Rattle.volume_entry.specs.Book.{HasRoom, WritesRecord, doubt_after, EndGrows, CrashKeeps, CrashLeaves, IsWriteFault, KeepsBodies};
ghost use Rattle.volume_entry.specs.BookStart.{StartsBook, EndsInTime, IsSpoiledAtEnd, IsStartCause, is_behind, ends_differ, shut_after};

use crate::appending::append_item;
use crate::event::ManagerReply;
use crate::fault::EntryFault;
use crate::heard::Heard;
use crate::record::LogRecord;
use crate::rereading::start_all;
use crate::shape::Shape;
use crate::table::Table;
use disk_base::Extent;
use gate_log::GateLog;
use std::alloc::Global;
use std::marker::Model;

/// The log of a volume, and what its records say.
///
/// It is seen as its number, mode and disks, its log (the file, and where the next record will stand, where it isn't shut),
/// the manager's part that the records leave, and the place at which a record is in doubt.
#[derive(Drop)]
pub struct Book<E: Extent> {
    pub alloc: Global,
    pub vid: u32,
    pub shape: Shape,
    pub log: GateLog<E>,
    pub is_shut: bool,
    pub table: Table,
    pub doubt: Option<u64>,
}

impl<E: Extent> Model for Book<E> {
    ghost use Rattle.volume_entry.specs.Book.{BookOver, end_unless, IsSoundPart};
    ghost use Rattle.volume_entry.specs.TableParts.{part_of, shape_of};

    ghost Value = { BookOver E };

    ghost view = { λ book. record {
      vid = book.vid;
      shape = book.shape;
      log = record { file = book.log.file; end = end_unless book.is_shut book.log.end };
      part = part_of book.table;
      doubt = book.doubt;
    } };

    ghost invariant = { λ book. IsSoundPart (shape_of book.shape) (end_unless book.is_shut book.log.end) (part_of book.table) };
}

// Where a record may stand that was to be written at this end.
fn doubt_after(fault: &EntryFault, end: Option<u64>, doubt: Option<u64>) -> Option<u64>
    ensures { result ≡ doubt_after fault.now end doubt }
{
    match fault {
        EntryFault::Fault => end,
        _ => doubt,
    }
}

// Whether a log ends behind the place of the record in doubt.
fn is_behind(end: Option<u64>, doubt: Option<u64>) -> bool
    ensures { result ≡ is_behind end doubt }
{
    let (Some(end), Some(place)) = (end, doubt) else {
        return false;
    };
    place < end
}

// Whether a log isn't started, or ends elsewhere than before.
fn ends_differ(was: Option<u64>, end: Option<u64>) -> bool
    ensures { result ≡ ends_differ was end }
{
    let (Some(was), Some(end)) = (was, end) else {
        return true;
    };
    was != end
}

// Whether a log is shut after a start that gave up so.
fn shut_after(fault: &EntryFault, was: Option<u64>, end: Option<u64>) -> bool
    ensures { result ≡ shut_after fault.now was end }
{
    match fault {
        EntryFault::Memory => ends_differ(was, end),
        _ => true,
    }
}

impl<E: Extent> Book<E> {
    /// Where the next record will stand. `None` exactly where the log is shut.
    pub fn end(&self) -> Option<u64>
        ensures { result ≡ self.now.log.end }
    {
        if self.is_shut {
            return None;
        }
        self.log.end()
    }

    /// Why no lease is given.
    pub fn lease_refusal(&self) -> Option<ManagerReply>
        ensures { RefusesBy result (lease_refusal self.now.part) }
    {
        self.table.lease_refusal()
    }

    /// Why the deletion of a blob isn't noted.
    pub fn ask_refusal(&self, bid: u64) -> Option<ManagerReply>
        ensures { RefusesBy result (ask_refusal true bid self.now.part) }
    {
        self.table.ask_refusal(bid)
    }

    /// The file, as the log leaves it.
    pub fn into_file(self) -> E
        ensures { result ≡ self.log.file }
    {
        self.log.into_file()
    }

    /// Writes a record that is legal behind those that the book has, and takes it into the table.
    pub fn write(&mut self, item: &LogRecord) -> Result<(), EntryFault>
        requires legal { IsLegal (shape_of self.old.shape) self.old.part (record_of item.now) }
        requires room { HasRoom self.old.log.end }
        ensures writes { WritesRecord E.seen (record_of item.now) self.old self.new result }
        ensures lasts { Lasts (E.seen self.old.log.file) (E.seen self.new.log.file) }
        ensures grows { EndGrows self.old.log.end self.new.log.end }
        ensures moments { CrashLeaves E.seen (record_of item.now) self.old self.new }
        ensures named { IfErr result IsWriteFault }
    {
        let end = self.end();
        let transfers = self.table.prepare(self.alloc, item)?;
        match append_item(self.alloc, self.vid, self.shape.mode, &mut self.log, item) {
            Ok(_place) => {
                self.table.take_prepared(item, transfers)?;
                Ok(())
            }
            Err(fault) => {
                self.doubt = doubt_after(&fault, end, self.doubt);
                Err(fault)
            }
        }
    }

    /// Starts the log anew and reads all its records into a new table, and answers whether the record in doubt was found,
    /// and a memory in which nothing was heard.
    pub fn start(&mut self) -> Result<(bool, Heard), EntryFault>
        ensures starts { StartsBook E.seen self.old self.new result }
        ensures lasts { Lasts (E.seen self.old.log.file) (E.seen self.new.log.file) }
        ensures bodies { KeepsBodies (E.seen self.old.log.file) (E.seen self.new.log.file) }
        ensures moments { CrashKeeps (E.seen self.old.log.file) (E.seen self.new.log.file) }
        ensures last { EndsInTime self.new.log.end result }
        ensures spoiled { IsSpoiledAtEnd self.old.vid self.old.shape (E.seen self.old.log.file) result }
        ensures named { IfErr result IsStartCause }
    {
        let was = self.end();
        match start_all(self.alloc, self.vid, self.shape, &mut self.log) {
            Ok((table, heard)) => {
                let found = is_behind(self.log.end(), self.doubt);
                self.table = table;
                self.is_shut = false;
                self.doubt = None;
                Ok((found, heard))
            }
            Err(fault) => {
                self.is_shut = shut_after(&fault, was, self.log.end());
                Err(fault)
            }
        }
    }
}
