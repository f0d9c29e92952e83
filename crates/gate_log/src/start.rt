//! How a log is started over a file.

ghost use Rattle.std.specs.Prelude.{◌≡◌, ◌<◌, ◌≤◌, ℕ, List, length, take, IfSome};
ghost use Rattle.disk_base.specs.Disk.{LeavesExactly};
ghost use Rattle.gate_log.specs.LogFile.{mark};
ghost use Rattle.gate_log.specs.GateLog.{LogCall, LogReads, SettleAnswers, OpenAnswers, EndsAt, HasCome, IsUnder, StepsOn, ComesOn, StepCalls, WriteAnswers, StartWrites, StartsOver, FinishesOver};

use crate::LogFault;
use crate::device::{EMPTY, FIRST, find_end, find_next, has_mark, write_through};
use crate::record::read_exactly;
use disk_base::Extent;
use std::alloc::Global;
use unit_id::Bytes;

/// How far a start has come in the file of a log. Places and lengths are in bytes.
#[derive(Clone, Copy)]
pub struct Cursor {
    /// The place behind the bodies that were read.
    pub place: u64,
    /// How long the file is.
    pub len: u64,
    /// Whether a closed gate was found at the place.
    pub is_closed: bool,
    /// Where the log ended before the start.
    pub before: Option<u64>,
}

// Settles what was written before, and answers how long the file is.
fn settle<E: Extent>(file: &mut E) -> Result<u64, LogFault>
    ensures reads { LogReads (E.seen file.old) (E.seen file.new) result }
    ensures answer { SettleAnswers (E.seen file.old) (E.seen file.new) result }
{
    file.grow(EMPTY.len() as u64)?;
    file.sync()?;
    Ok(file.len()?)
}

// Settles a file and reads its mark, which at most nine bytes need not have, and answers how long the file is.
pub fn open_file<E: Extent>(file: &mut E) -> Result<u64, LogFault>
    ensures reads { LogReads (E.seen file.old) (E.seen file.new) result }
    ensures answer { OpenAnswers (E.seen file.old) (E.seen file.new) result }
{
    let len = settle(file)?;
    if len <= EMPTY.len() as u64 {
        return Ok(len);
    }
    if !has_mark(file)? {
        return Err(LogFault::BadHead);
    }
    Ok(len)
}

// Reads the body at a cursor's place, and moves the cursor on behind it. `None` is the end of the chain.
pub fn read_next<E: Extent>(
    file: &mut E,
    alloc: Global,
    cursor: &mut Cursor,
) -> Result<Option<(u64, Bytes)>, LogFault>
    ensures reads { LogReads (E.seen file.old) (E.seen file.new) result }
    ensures calls { StepCalls (E.seen file.old) (E.seen file.new) result }
    ensures steps { StepsOn cursor.old cursor.new result }
    ensures comes { IfSome (E.seen file.old).content (λ bytes. (read : List (List ℕ)) → HasCome bytes read cursor.old → ComesOn bytes read cursor.new result) }
{
    let place = cursor.place;
    if cursor.len <= EMPTY.len() as u64 || cursor.is_closed || place >= cursor.len {
        return Ok(None);
    }
    let Some(next) = find_next(file, place, cursor.len)? else {
        cursor.is_closed = true;
        return Ok(None);
    };
    let Some(body) = read_exactly(file, alloc, place + 5, next - place - 5)? else {
        return Err(LogFault::BadChain { place });
    };
    cursor.place = next;
    Ok(Some((place, body)))
}

// Makes a file of at most nine bytes the file of an empty log.
fn begin_log<E: Extent>(file: &mut E) -> Result<(), LogFault>
    requires short { IfSome (E.seen file.old).content (λ bytes. length bytes ≤ 9) }
    ensures call { LogCall (E.seen file.old) (E.seen file.new) result }
    ensures answer { WriteAnswers 2 (E.seen file.old) (E.seen file.new) result }
    ensures writes { StartWrites 8 (E.seen file.old) (E.seen file.new) result }
{
    file.grow(EMPTY.len() as u64)?;
    Ok(write_through(file, 0, &EMPTY)?)
}

// Writes a closed gate at the end of a file of so many bytes, where its chain ends.
fn close_end<E: Extent>(file: &mut E, len: u64) -> Result<(), LogFault>
    requires long { 9 < len }
    requires ends { IfSome (E.seen file.old).content (λ bytes. (len ≡ length bytes) × (take 8 bytes ≡ mark) × EndsAt bytes len) }
    ensures call { LogCall (E.seen file.old) (E.seen file.new) result }
    ensures answer { WriteAnswers 2 (E.seen file.old) (E.seen file.new) result }
    ensures writes { StartWrites len (E.seen file.old) (E.seen file.new) result }
{
    let Some(end) = len.checked_add(1) else {
        return Err(LogFault::Memory);
    };
    file.grow(end)?;
    Ok(write_through(file, len, &[0])?)
}

// Follows what is left of a chain behind a cursor and closes it, and answers where the log ends.
pub fn finish_file<E: Extent>(file: &mut E, cursor: &Cursor) -> Result<u64, LogFault>
    requires { IfSome (E.seen file.old).content (IsUnder cursor.now (E.seen file.old).images) }
    ensures call { LogCall (E.seen file.old) (E.seen file.new) result }
    ensures finishes { FinishesOver cursor.now (E.seen file.old) (E.seen file.new) result }
{
    let len = cursor.len;
    if len <= EMPTY.len() as u64 {
        begin_log(file)?;
        return Ok(FIRST);
    }
    if cursor.is_closed {
        return Ok(cursor.place);
    }
    let end = find_end(file, cursor.place, len)?;
    if end < len {
        return Ok(end);
    }
    close_end(file, len)?;
    Ok(end)
}

// Starts a log over a file, and answers where it ends.
pub fn start_file<E: Extent>(file: &mut E) -> Result<u64, LogFault>
    ensures call { LogCall (E.seen file.old) (E.seen file.new) result }
    ensures starts { StartsOver (E.seen file.old) (E.seen file.new) result }
{
    let len = open_file(file)?;
    let cursor = Cursor {
        place: FIRST,
        len,
        is_closed: false,
        before: None,
    };
    finish_file(file, &cursor)
}
