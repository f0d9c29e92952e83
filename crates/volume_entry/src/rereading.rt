//! How a book's log is started and its records are read into a table.

ghost use Rattle.std.specs.Prelude.{◌≡◌, ◌<◌, ◌≤◌, ℕ, List, Some, Ok, IfOk, IfErr, IfSome, IsSome};
ghost use Rattle.disk_base.specs.Disk.{Lasts, OnlyReads};
ghost use Rattle.gate_log.specs.LogFile.{end_place};
ghost use Rattle.gate_log.specs.GateLog.{shown, HasBodies};
ghost use Rattle.volume_entry.specs.Manager.{Manager, ManagerRecord, IsLog};
ghost use Rattle.volume_entry.specs.TableParts.{part_of, shape_of};
ghost use Rattle.volume_entry.specs.Book.{AreSpelled, CountsFault, CrashKeeps, IsSoundPart, KeepsBodies};
ghost use Rattle.volume_entry.specs.BookStart.{IsStartFault, fault_by_start, IsStartCause, BodiesInOrder, FirstAnswers, NextAnswers, AllAnswer, IsStartOf, IsSoundTable, IsForgetful, EndsInTime};

use crate::fault::EntryFault;
use crate::heard::Heard;
use crate::shape::Shape;
use crate::table::Table;
use disk_base::Extent;
use gate_log::{GateLog, LogFault};
use std::alloc::{AllocError, Global};
use unit_id::Bytes;

/// No log is started that ends behind this place: each step adds 128 bytes at most, and a log has no room behind 2^40.
const LAST_START: u64 = 1 << 39;

// The bytes at a place of the log, and the next place.
fn body_at<E: Extent>(
    alloc: Global,
    log: &mut GateLog<E>,
    place: u64,
) -> Result<(Bytes, u64), EntryFault>
    requires { IsSome log.old.end }
    ensures counts { CountsFault (E.seen log.old.file).faults (E.seen log.new.file).faults result }
    ensures lasts { Lasts (E.seen log.old.file) (E.seen log.new.file) }
    ensures reads { OnlyReads (E.seen log.old.file) (E.seen log.new.file) }
    ensures same { log.new.end ≡ log.old.end }
    ensures onward { IfOk result (λ found. (place < found.1) × IfSome log.old.end (λ end. found.1 ≤ end)) }
    ensures named { IfErr result IsStartCause }
    ensures in_order { (bodies : List (List ℕ)) → HasBodies (shown E.seen log.old) bodies → BodiesInOrder bodies place result }
{
    match log.read(alloc, place) {
        Ok(found) => Ok(found),
        Err(LogFault::Fault) => Err(EntryFault::Fault),
        Err(LogFault::BadChain { place }) => Err(EntryFault::Spoiled { place }),
        Err(LogFault::Memory) => Err(EntryFault::Memory),
        Err(_) => unreachable!(),
    }
}

// The table that the first record makes, and the next place.
fn read_first<E: Extent>(
    alloc: Global,
    vid: u32,
    shape: Shape,
    log: &mut GateLog<E>,
) -> Result<(Table, u64), EntryFault>
    requires { IsSome log.old.end }
    ensures counts { CountsFault (E.seen log.old.file).faults (E.seen log.new.file).faults result }
    ensures lasts { Lasts (E.seen log.old.file) (E.seen log.new.file) }
    ensures reads { OnlyReads (E.seen log.old.file) (E.seen log.new.file) }
    ensures same { log.new.end ≡ log.old.end }
    ensures sound { IfOk result (λ found. IsSoundPart (shape_of shape) (Some found.1) (part_of found.0) × IfSome log.old.end (λ end. found.1 ≤ end)) }
    ensures named { IfErr result IsStartCause }
    ensures first { (bodies : List (List ℕ)) → HasBodies (shown E.seen log.old) bodies → FirstAnswers vid shape bodies result }
{
    let place = log.first();
    let (body, next) = body_at(alloc, log, place)?;
    match Table::made(alloc, vid, shape, body.as_slice())? {
        Some(table) => Ok((table, next)),
        None => Err(EntryFault::Spoiled { place }),
    }
}

// Reads the record at a place into the table, and answers the next place.
fn read_next<E: Extent>(
    alloc: Global,
    vid: u32,
    shape: Shape,
    log: &mut GateLog<E>,
    place: u64,
    table: &mut Table,
) -> Result<u64, EntryFault>
    requires started { IsSome log.old.end }
    requires below { IfSome log.old.end (λ end. place < end) }
    requires sound { IsSoundPart (shape_of shape) (Some place) (part_of table.old) }
    ensures counts { CountsFault (E.seen log.old.file).faults (E.seen log.new.file).faults result }
    ensures lasts { Lasts (E.seen log.old.file) (E.seen log.new.file) }
    ensures reads { OnlyReads (E.seen log.old.file) (E.seen log.new.file) }
    ensures same { log.new.end ≡ log.old.end }
    ensures onward { IfOk result (λ next. (place < next) × IsSoundPart (shape_of shape) (Some next) (part_of table.new) × IfSome log.old.end (λ end. next ≤ end)) }
    ensures named { IfErr result IsStartCause }
    ensures next { (bodies : List (List ℕ)) → HasBodies (shown E.seen log.old) bodies → NextAnswers vid shape bodies place (part_of table.old) (part_of table.new) result }
{
    let (body, next) = body_at(alloc, log, place)?;
    if !table.take_body(alloc, vid, shape, body.as_slice())? {
        return Err(EntryFault::Spoiled { place });
    }
    Ok(next)
}

// Reads all records of a log that is started into a table.
fn read_table<E: Extent>(
    alloc: Global,
    vid: u32,
    shape: Shape,
    log: &mut GateLog<E>,
) -> Result<Table, EntryFault>
    requires { IsSome log.old.end }
    ensures counts { CountsFault (E.seen log.old.file).faults (E.seen log.new.file).faults result }
    ensures lasts { Lasts (E.seen log.old.file) (E.seen log.new.file) }
    ensures reads { OnlyReads (E.seen log.old.file) (E.seen log.new.file) }
    ensures same { log.new.end ≡ log.old.end }
    ensures sound { IsSoundTable shape log.new.end result }
    ensures last { EndsInTime log.new.end result }
    ensures named { IfErr result IsStartCause }
    ensures all { (bodies : List (List ℕ)) → HasBodies (shown E.seen log.old) bodies → (items : List ManagerRecord) (part : Manager) → AreSpelled vid shape.mode items bodies → IsLog (shape_of shape) items part → AllAnswer part_of (end_place bodies) part result }
{
    let Some(end) = log.end() else {
        unreachable!();
    };
    let (mut table, mut place) = read_first(alloc, vid, shape, log)?;
    while place < end {
        place = read_next(alloc, vid, shape, log, place, &mut table)?;
    }
    if end > LAST_START {
        return Err(EntryFault::Spoiled { place: end });
    }
    Ok(table)
}

// Why the log of a volume didn't start.
pub(crate) fn fault_of(fault: LogFault) -> EntryFault
    requires { IsStartFault fault }
    ensures { result ≡ fault_by_start fault }
{
    match fault {
        LogFault::Fault => EntryFault::Fault,
        LogFault::BadHead => EntryFault::Spoiled { place: 0 },
        LogFault::BadChain { place } => EntryFault::Spoiled { place },
        LogFault::Memory => EntryFault::Memory,
        _ => unreachable!(),
    }
}

/// Starts the log of a volume, and reads the table that its records leave.
pub fn start_table<E: Extent>(
    alloc: Global,
    vid: u32,
    shape: Shape,
    log: &mut GateLog<E>,
) -> Result<Table, EntryFault>
    ensures counts { CountsFault (E.seen log.old.file).faults (E.seen log.new.file).faults result }
    ensures lasts { Lasts (E.seen log.old.file) (E.seen log.new.file) }
    ensures bodies { KeepsBodies (E.seen log.old.file) (E.seen log.new.file) }
    ensures moments { CrashKeeps (E.seen log.old.file) (E.seen log.new.file) }
    ensures sound { IsSoundTable shape log.new.end result }
    ensures last { EndsInTime log.new.end result }
    ensures named { IfErr result IsStartCause }
    ensures told { IsStartOf part_of vid shape (shown E.seen log.old) (shown E.seen log.new) result }
{
    match log.start() {
        Ok(()) => {}
        Err(fault) => return Err(fault_of(fault)),
    }
    read_table(alloc, vid, shape, log)
}

// A memory in which nothing was heard under the lock of a table.
pub(crate) fn heard_none(alloc: Global, shape: Shape, table: &Table) -> Result<Heard, AllocError>
    ensures { IfOk result (IsForgetful (shape_of shape) (part_of table.now)) }
{
    Heard::of(alloc, shape.mode.total(), table.held())
}

/// Starts the log of a volume, and reads the table that its records leave. Nothing was heard then.
pub fn start_all<E: Extent>(
    alloc: Global,
    vid: u32,
    shape: Shape,
    log: &mut GateLog<E>,
) -> Result<(Table, Heard), EntryFault>
    ensures counts { CountsFault (E.seen log.old.file).faults (E.seen log.new.file).faults result }
    ensures lasts { Lasts (E.seen log.old.file) (E.seen log.new.file) }
    ensures bodies { KeepsBodies (E.seen log.old.file) (E.seen log.new.file) }
    ensures moments { CrashKeeps (E.seen log.old.file) (E.seen log.new.file) }
    ensures last { EndsInTime log.new.end result }
    ensures sound { IfOk result (λ found. IsSoundTable shape log.new.end (Ok found.0) × IsForgetful (shape_of shape) (part_of found.0) found.1) }
    ensures named { IfErr result IsStartCause }
    ensures told { IsStartOf (λ found. part_of found.0) vid shape (shown E.seen log.old) (shown E.seen log.new) result }
{
    let table = start_table(alloc, vid, shape, log)?;
    let heard = heard_none(alloc, shape, &table)?;
    Ok((table, heard))
}
