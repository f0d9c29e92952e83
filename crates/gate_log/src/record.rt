//! How a record is written behind the chain of a file, and read.

ghost use Rattle.std.specs.Prelude.{◌≡◌, ◌+◌, ◌<◌, ◌≤◌, ◌^◌, [], length, Some, IfOk};
ghost use Rattle.gate_log.specs.LogFile.{longest_body, longest_file, record_behind};
ghost use Rattle.gate_log.specs.GateLog.{LogCall, LogReads, IsSettled, WriteAnswers, AppendsAt, PieceAnswers, ReadCalls, PlaceAnswers};

use crate::LogFault;
use crate::device::{find_next, write_through};
use disk_base::Extent;
use std::alloc::{AllocError, Global};
use unit_id::Bytes;

// Behind a gate: the length of the body, the body, and a closed gate.
fn record_of(alloc: Global, body: &[u8]) -> Result<Vec<u8>, AllocError>
    requires { length body.now < 2 ^ 32 }
    ensures { IfOk result (λ bytes. bytes.items ≡ record_behind body.now []) }
{
    let mut record = Vec::with_capacity(alloc, body.len() + 5)?;
    record.extend_from_slice(&(body.len() as u32).to_be_bytes())?;
    record.extend_from_slice(body)?;
    record.push(0)?;
    Ok(record)
}

// Writes a body behind the closed gate at a place, settles it, opens the gate, and settles that.
pub fn append_to<E: Extent>(
    file: &mut E,
    alloc: Global,
    place: u64,
    body: &[u8],
) -> Result<(), LogFault>
    requires some { 1 ≤ length body.now }
    requires few { length body.now ≤ longest_body }
    requires below { place ≤ longest_file }
    requires started { IsSettled (E.seen file.old) (Some place) }
    ensures call { LogCall (E.seen file.old) (E.seen file.new) result }
    ensures answer { WriteAnswers 4 (E.seen file.old) (E.seen file.new) result }
    ensures appends { AppendsAt place body.now (E.seen file.old) (E.seen file.new) result }
{
    let bytes = record_of(alloc, body)?;
    file.grow(place + 6 + body.len() as u64)?;
    write_through(file, place + 1, &bytes)?;
    Ok(write_through(file, place, &[1])?)
}

// Reads so many bytes from a place on. `None` is a file that ends before them.
pub fn read_exactly<E: Extent>(
    file: &mut E,
    alloc: Global,
    at: u64,
    count: u64,
) -> Result<Option<Bytes>, LogFault>
    requires { count ≤ longest_body }
    ensures reads { LogReads (E.seen file.old) (E.seen file.new) result }
    ensures answer { PieceAnswers at count (E.seen file.old) (E.seen file.new) result }
{
    let mut body = vec![in alloc; 0u8; count as usize]?;
    let got = file.read_at(at, &mut body)?;
    if got < body.len() {
        return Ok(None);
    }
    Ok(Some(Bytes::from_vec(body)))
}

// The body of the record at a place, and the next place. The record ends before `end`.
pub fn read_record<E: Extent>(
    file: &mut E,
    alloc: Global,
    place: u64,
    end: u64,
) -> Result<(Bytes, u64), LogFault>
    ensures reads { LogReads (E.seen file.old) (E.seen file.new) result }
    ensures calls { ReadCalls (E.seen file.old) (E.seen file.new) result }
    ensures answer { PlaceAnswers (E.seen file.old).content end place result }
{
    if place >= end {
        return Err(LogFault::BadChain { place });
    }
    let Some(next) = find_next(file, place, end)? else {
        return Err(LogFault::BadChain { place });
    };
    let Some(body) = read_exactly(file, alloc, place + 5, next - place - 5)? else {
        return Err(LogFault::BadChain { place });
    };
    Ok((body, next))
}
