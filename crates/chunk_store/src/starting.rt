//! How the log of a chunk is started and its rows are read.

ghost use Rattle.std.specs.Prelude.{◌≡◌, [], Ok, IfSome};
ghost use Rattle.disk_base.specs.Disk.{OnlyReads};
ghost use Rattle.gate_log.specs.GateLog.{shown, HasCome, IsUnder};
ghost use Rattle.chunk_store.specs.Kept.{nothing_kept};
ghost use Rattle.chunk_store.specs.Chunk.{ChunkCall, Starts};
ghost use Rattle.chunk_store.specs.Starting.{IsStartFault, fault_by_start, step_by, IsRead, StepNames, StepAnswers, IsOnward, RowsNames, RowsRead, FinishAnswers, FinishEnds, FileAnswers, FileEnds, FileSettles};
ghost use Rattle.chunk_store.specs.declared.starting.Step.TheVariants.{Noted};

use crate::ChunkFault;
use crate::index::RowIndex;
use crate::reading::record_in;
use disk_base::Extent;
use gate_log::{Cursor, GateLog, LogFault};
use std::alloc::Global;
use unit_id::UnitName;

// What the reading of one record came to.
#[derive(Drop)]
enum Step {
    // Its row is noted.
    Noted,
    // The body is no record of the unit, for this cause.
    Bad(ChunkFault),
    // There is none.
    End,
}

// Why the log of a chunk didn't start.
fn fault_of(fault: LogFault) -> ChunkFault
    requires { IsStartFault fault }
    ensures { result ≡ fault_by_start fault }
{
    match fault {
        LogFault::Fault => ChunkFault::Fault,
        LogFault::BadHead => ChunkFault::Spoiled { place: 0 },
        LogFault::BadChain { place } => ChunkFault::Spoiled { place },
        LogFault::Memory => ChunkFault::Memory,
        _ => unreachable!(),
    }
}

// What a body that can't be read as a record of the unit makes of a step.
fn step_of(fault: ChunkFault) -> Result<Step, ChunkFault>
    ensures { result ≡ step_by fault }
{
    match fault {
        ChunkFault::Memory => Err(ChunkFault::Memory),
        other => Ok(Step::Bad(other)),
    }
}

// Reads the record at a cursor's place into the rows.
fn read_next<E: Extent>(
    alloc: Global,
    log: &mut GateLog<E>,
    unit: UnitName,
    cursor: &mut Cursor,
    index: &mut RowIndex,
) -> Result<Step, ChunkFault>
    ensures call { ChunkCall (E.seen log.old.file) (E.seen log.new.file) result }
    ensures reads { OnlyReads (E.seen log.old.file) (E.seen log.new.file) }
    ensures same { log.new.end ≡ log.old.end }
    ensures onward { result ≡ Ok Noted → IsOnward cursor.old cursor.new }
    ensures named { StepNames result }
    ensures told { IfSome (E.seen log.old.file).content (λ file. IsRead unit file cursor.old index.old.kept → StepAnswers unit file cursor.new index.new.kept result) }
{
    let found = match log.next(alloc, cursor) {
        Ok(found) => found,
        Err(fault) => return Err(fault_of(fault)),
    };
    let Some((place, body)) = found else {
        return Ok(Step::End);
    };
    let item = match record_in(alloc, unit, index.is_released(), place, body.as_slice()) {
        Ok(item) => item,
        Err(fault) => return step_of(fault),
    };
    index.reserve(1)?;
    index.note(&item, place);
    Ok(Step::Noted)
}

// Reads all records from a start's first cursor on, and answers the rows that they leave, or what is wrong with
// the first that is bad. It keeps one record at a time.
fn read_rows<E: Extent>(
    alloc: Global,
    log: &mut GateLog<E>,
    unit: UnitName,
    cursor: &mut Cursor,
) -> Result<Result<RowIndex, ChunkFault>, ChunkFault>
    requires { IfSome (E.seen log.old.file).content (λ file. HasCome file [] cursor.old) }
    ensures call { ChunkCall (E.seen log.old.file) (E.seen log.new.file) result }
    ensures reads { OnlyReads (E.seen log.old.file) (E.seen log.new.file) }
    ensures same { log.new.end ≡ log.old.end }
    ensures named { RowsNames result }
    ensures rows { IfSome (E.seen log.old.file).content (λ file. RowsRead unit file cursor.new result) }
{
    let mut index = RowIndex::new(alloc);
    loop {
        match read_next(alloc, log, unit, cursor, &mut index)? {
            Step::Noted => {}
            Step::Bad(fault) => return Ok(Err(fault)),
            Step::End => return Ok(Ok(index)),
        }
    }
}

// Ends the start of a log at a cursor.
fn finish_log<E: Extent>(log: &mut GateLog<E>, cursor: &Cursor) -> Result<(), ChunkFault>
    requires { IfSome (E.seen log.old.file).content (IsUnder cursor.now (E.seen log.old.file).images) }
    ensures call { ChunkCall (E.seen log.old.file) (E.seen log.new.file) result }
    ensures answer { FinishAnswers (E.seen log.old.file).content result }
    ensures ends { FinishEnds (shown E.seen log.old) (shown E.seen log.new) result }
    ensures settles { FileSettles (E.seen log.old.file) (E.seen log.new.file) result }
    ensures starts { IfSome (E.seen log.old.file).content (λ file. Starts file (E.seen log.old.file) (E.seen log.new.file)) }
{
    match log.finish(cursor) {
        Ok(()) => Ok(()),
        Err(fault) => Err(fault_of(fault)),
    }
}

// Reads the rows of a log whose start has just begun, and ends its start. A log whose chain is whole is started
// also where a record is bad.
fn rows_behind<E: Extent>(
    alloc: Global,
    log: &mut GateLog<E>,
    unit: UnitName,
    begun: &Cursor,
) -> Result<RowIndex, ChunkFault>
    requires first { IfSome (E.seen log.old.file).content (λ file. HasCome file [] begun.now) }
    requires under { IfSome (E.seen log.old.file).content (IsUnder begun.now (E.seen log.old.file).images) }
    ensures call { ChunkCall (E.seen log.old.file) (E.seen log.new.file) result }
    ensures answer { FileAnswers unit (E.seen log.old.file).content result }
    ensures ends { FinishEnds (shown E.seen log.old) (shown E.seen log.new) result }
    ensures settles { FileSettles (E.seen log.old.file) (E.seen log.new.file) result }
    ensures starts { IfSome (E.seen log.old.file).content (λ file. Starts file (E.seen log.old.file) (E.seen log.new.file)) }
{
    let mut cursor = *begun;
    let rows = read_rows(alloc, log, unit, &mut cursor)?;
    finish_log(log, &cursor)?;
    rows
}

/// Starts the log of a unit, and reads the rows that its records leave. It reads each byte of the file once,
/// and want of memory leaves the log as it was.
pub fn start_rows<E: Extent>(
    alloc: Global,
    log: &mut GateLog<E>,
    unit: UnitName,
) -> Result<RowIndex, ChunkFault>
    ensures call { ChunkCall (E.seen log.old.file) (E.seen log.new.file) result }
    ensures answer { FileAnswers unit (E.seen log.old.file).content result }
    ensures ends { FileEnds (shown E.seen log.old) (shown E.seen log.new) result }
    ensures settles { FileSettles (E.seen log.old.file) (E.seen log.new.file) result }
    ensures starts { IfSome (E.seen log.old.file).content (λ file. Starts file (E.seen log.old.file) (E.seen log.new.file)) }
{
    let cursor = match log.begin() {
        Ok(cursor) => cursor,
        Err(fault) => return Err(fault_of(fault)),
    };
    match rows_behind(alloc, log, unit, &cursor) {
        Ok(index) => Ok(index),
        Err(ChunkFault::Memory) => {
            log.leave(&cursor);
            Err(ChunkFault::Memory)
        }
        Err(fault) => Err(fault),
    }
}
