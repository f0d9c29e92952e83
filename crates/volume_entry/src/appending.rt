//! How a record is written behind those of a log.

ghost use Rattle.std.specs.Prelude.{◌≡◌, ◌+◌, ℕ, List};
ghost use Rattle.disk_base.specs.Disk.{Lasts};
ghost use Rattle.gate_log.specs.GateLog.{shown, HasBodies};
ghost use Rattle.volume_entry.specs.RecordBytes.{record_of, IsShort};
ghost use Rattle.volume_entry.specs.Book.{CountsFault, IsAppendFault, fault_by_append, item_size, HasRoomFor, AppendEnds, AppendsItem, CrashAppends, GrowsUpTo};

use crate::fault::EntryFault;
use crate::record::LogRecord;
use crate::writing::write;
use code_mode::Mode;
use disk_base::Extent;
use gate_log::{GateLog, LogFault};
use std::alloc::Global;

/// Writes a record at the end of a log that is started, and answers its place.
pub fn append_item<E: Extent>(
    alloc: Global,
    vid: u32,
    mode: Mode,
    log: &mut GateLog<E>,
    item: &LogRecord,
) -> Result<u64, EntryFault>
    requires short { IsShort (record_of item.now) }
    requires room { HasRoomFor (item_size vid mode (record_of item.now)) log.old.end }
    ensures counts { CountsFault (E.seen log.old.file).faults (E.seen log.new.file).faults result }
    ensures ends { AppendEnds (shown E.seen log.old) (shown E.seen log.new) result }
    ensures lasts { Lasts (E.seen log.old.file) (E.seen log.new.file) }
    ensures grows { GrowsUpTo (5 + item_size vid mode (record_of item.now)) log.old.end log.new.end }
    ensures moments { CrashAppends vid mode (record_of item.now) (shown E.seen log.old) (E.seen log.new.file) }
    ensures appends { (bodies : List (List ℕ)) → HasBodies (shown E.seen log.old) bodies → AppendsItem vid mode (record_of item.now) bodies (shown E.seen log.new) result }
{
    let body = write(alloc, vid, mode, item)?;
    match log.append(alloc, body.as_slice()) {
        Ok(place) => Ok(place),
        Err(fault) => Err(fault_of(fault)),
    }
}

// Why a log with room took no record.
fn fault_of(fault: LogFault) -> EntryFault
    requires { IsAppendFault fault }
    ensures { result ≡ fault_by_append fault }
{
    match fault {
        LogFault::Fault => EntryFault::Fault,
        LogFault::Memory => EntryFault::Memory,
        _ => unreachable!(),
    }
}
