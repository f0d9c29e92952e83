//! How an entry is made in a new file.

ghost use Rattle.std.specs.Prelude.{◌≡◌, ◌≤◌, ◌+◌, ◌↔◌, [], Some, IsTrue, IfOk, OnOk};
ghost use Rattle.disk_base.specs.Disk.{Lasts};
ghost use Rattle.gate_log.specs.LogFile.{end_place};
ghost use Rattle.volume_entry.specs.Manager.{AreFirstHomes};
ghost use Rattle.volume_entry.specs.RecordBytes.{IsShort, record_of};
ghost use Rattle.volume_entry.specs.TableParts.{shape_of};
ghost use Rattle.volume_entry.specs.Book.{CountsFault, GrowsUpTo, HasRoomFor, item_size};
ghost use Rattle.volume_entry.specs.Making.{IsNew, IsReady, Makes, Opens, Begins};

use crate::appending::append_item;
use crate::book::Book;
use crate::entry::Entry;
use crate::fault::EntryFault;
use crate::heard::Heard;
use crate::record::{LogRecord, UnitHome};
use crate::rereading::{fault_of, heard_none};
use crate::shape::Shape;
use crate::table::Table;
use code_mode::Mode;
use disk_base::Extent;
use gate_log::GateLog;
use std::alloc::{AllocError, Global};

// What is put into memory before the file is touched: the record of the making, the table that it leaves, and a memory in
// which nothing was heard.
fn prepare(
    alloc: Global,
    shape: Shape,
    homes: &[UnitHome],
) -> Result<(LogRecord, Table, Heard), AllocError>
    ensures { IfOk result (IsReady shape homes.now) }
{
    let item = LogRecord::Made {
        homes: homes.to_vec(alloc)?,
    };
    let table = Table::fresh(alloc, homes.to_vec(alloc)?)?;
    let heard = heard_none(alloc, shape, &table)?;
    Ok((item, table, heard))
}

// Whether a log ends at this place.
fn is_at(end: Option<u64>, place: u64) -> bool
    ensures { IsTrue result ↔ (end ≡ Some place) }
{
    match end {
        Some(end) => end == place,
        None => false,
    }
}

// Starts the log over a new file.
fn open_empty<E: Extent>(log: &mut GateLog<E>) -> Result<(), EntryFault>
    requires { IsNew (E.seen log.old.file) }
    ensures counts { CountsFault (E.seen log.old.file).faults (E.seen log.new.file).faults result }
    ensures lasts { Lasts (E.seen log.old.file) (E.seen log.new.file) }
    ensures opens { Opens E.seen log.old log.new result }
{
    match log.start() {
        Ok(()) => {}
        Err(fault) => return Err(fault_of(fault)),
    }
    let first = log.first();
    if !is_at(log.end(), first) {
        return Err(EntryFault::Spoiled { place: first });
    }
    Ok(())
}

// Writes the first record of a log over a new file.
fn write_first<E: Extent>(
    alloc: Global,
    vid: u32,
    mode: Mode,
    log: &mut GateLog<E>,
    item: &LogRecord,
) -> Result<(), EntryFault>
    requires new { IsNew (E.seen log.old.file) }
    requires short { IsShort (record_of item.now) }
    requires room { HasRoomFor (item_size vid mode (record_of item.now)) (Some (end_place [])) }
    ensures counts { CountsFault (E.seen log.old.file).faults (E.seen log.new.file).faults result }
    ensures lasts { Lasts (E.seen log.old.file) (E.seen log.new.file) }
    ensures grows { OnOk result (GrowsUpTo (5 + item_size vid mode (record_of item.now)) (Some (end_place [])) log.new.end) }
    ensures begins { Begins E.seen vid mode (record_of item.now) log.old log.new result }
{
    open_empty(log)?;
    let _place = append_item(alloc, vid, mode, log, item)?;
    Ok(())
}

impl<E: Extent> Entry<E> {
    /// Makes a volume in a new file: starts its log and writes the record of the making. No disk is broken then, and nothing
    /// was heard. The homes are those for which `are_first_homes` holds.
    ///
    /// # Errors
    ///
    /// Each gives the file back. `Fault` comes exactly where a call on the file failed; the file is that of a log then
    /// without a record, or with the one of the making. `Memory` leaves the file of a log without a record. `Spoiled`
    /// comes only where the file isn't new, which no file shows that tells its bytes.
    pub fn make(
        alloc: Global,
        file: E,
        vid: u32,
        shape: Shape,
        homes: &[UnitHome],
    ) -> Result<Entry<E>, (EntryFault, E)>
        requires homes { AreFirstHomes (shape_of shape) homes.now }
        requires disks { shape.disks ≤ 64 }
        requires new { IsNew (E.seen file) }
        ensures { Makes E.seen vid shape homes.now file result }
    {
        let Ok((item, table, heard)) = prepare(alloc, shape, homes) else {
            return Err((EntryFault::Memory, file));
        };
        let mut log = GateLog::over(file);
        match write_first(alloc, vid, shape.mode, &mut log, &item) {
            Ok(()) => {}
            Err(fault) => return Err((fault, log.into_file())),
        }
        let book = Book {
            alloc,
            vid,
            shape,
            log,
            is_shut: false,
            table,
            doubt: None,
        };
        Ok(Entry {
            book,
            heard,
            broken: [false; 65],
        })
    }
}
