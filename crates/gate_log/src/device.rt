//! The calls that a log makes on its file.

ghost use Rattle.std.specs.Prelude.{◌≡◌, ◌≢◌, ◌+◌, ◌<◌, ◌≤◌, ◌&&◌, nat_le, nat_lt, length, take, IfOk, IfSome, bytes_eq};
ghost use Rattle.disk_base.specs.Faults.{one_more};
ghost use Rattle.disk_base.specs.Disk.{Reads, Calls};
ghost use Rattle.gate_log.specs.LogFile.{mark, is_open, length_at, is_body_length};
ghost use Rattle.gate_log.specs.GateLog.{LogReads, IsGateAt, NextAnswers, EndAnswers, WritesThrough};

use crate::LogFault;
use disk_base::{Extent, Failed};

/// The file of an empty log: the mark with which the file of each log begins, and a closed gate.
pub const EMPTY: [u8; 9] = *b"BLOBLOG1\0";

/// The place of the first record.
pub const FIRST: u64 = 8;

/// How many bytes a body has at most.
pub const LONGEST_BODY: u64 = 4_194_400;

// What stands at the place of a record: whether the gate is open, and the length of the body.
#[derive(Clone, Copy)]
pub struct Gate {
    pub is_open: bool,
    pub count: u64,
}

// Whether a body of so many bytes has a length that a body may have and ends within so many bytes from its gate on.
pub fn is_whole(count: u64, within: u64) -> bool
    ensures { result ≡ (is_body_length count && nat_le (5 + count) within) }
{
    count >= 1 && count <= LONGEST_BODY && 5 + count <= within
}

// The length behind a gate.
fn length_in(head: &[u8; 5]) -> u32
    ensures { result ≡ length_at head.now 0 }
{
    u32::from_be_bytes([head[1], head[2], head[3], head[4]])
}

// The gate and the length at the front of what was read, of which so many bytes came. What didn't come counts as 0.
fn gate_in(head: &[u8; 5], count: usize) -> Gate
    ensures gate { result.is_open ≡ (nat_lt 0 count && is_open head.now 0) }
    ensures number { count ≡ 5 → result.count ≡ length_at head.now 0 }
    ensures none { count ≢ 5 → result.count ≡ 0 }
{
    let length = if count == 5 { length_in(head) } else { 0 };
    Gate {
        is_open: count > 0 && head[0] == 1,
        count: u64::from(length),
    }
}

// Reads the gate and the length at a place. Where the file ends before them, the gate is closed or the length is 0.
pub fn read_gate<E: Extent>(file: &mut E, place: u64) -> Result<Gate, Failed>
    ensures gate { IfOk result (λ gate. IfSome (E.seen file.old).content (λ bytes. IsGateAt bytes place gate)) }
    ensures reads { Reads (E.seen file.old) (E.seen file.new) result }
{
    let mut head = [0u8; 5];
    let count = file.read_at(place, &mut head)?;
    Ok(gate_in(&head, count))
}

// Whether the file begins with the mark of a log.
pub fn has_mark<E: Extent>(file: &mut E) -> Result<bool, Failed>
    ensures mark { IfOk result (λ is_there. IfSome (E.seen file.old).content (λ bytes. 8 ≤ length bytes → is_there ≡ bytes_eq (take 8 bytes) mark)) }
    ensures reads { Reads (E.seen file.old) (E.seen file.new) result }
{
    let mut head = [0u8; 8];
    let count = file.read_at(0, &mut head)?;
    Ok(count == 8 && head[..] == EMPTY[..8])
}

// What stands at a place before an end: `None` for a closed gate, and for a record the place behind it.
pub fn find_next<E: Extent>(file: &mut E, place: u64, end: u64) -> Result<Option<u64>, LogFault>
    requires { place < end }
    ensures reads { LogReads (E.seen file.old) (E.seen file.new) result }
    ensures counted { (E.seen file.new).calls ≡ one_more (E.seen file.old).calls }
    ensures answer { NextAnswers (E.seen file.old).content end place result }
{
    let gate = read_gate(file, place)?;
    if !gate.is_open {
        return Ok(None);
    }
    if !is_whole(gate.count, end - place) {
        return Err(LogFault::BadChain { place });
    }
    Ok(Some(place + 5 + gate.count))
}

// Follows the chain of a file of so many bytes from one of its places to where it ends.
pub fn find_end<E: Extent>(file: &mut E, from: u64, len: u64) -> Result<u64, LogFault>
    requires { 8 ≤ len }
    ensures reads { LogReads (E.seen file.old) (E.seen file.new) result }
    ensures answer { EndAnswers from len (E.seen file.old) (E.seen file.new) result }
{
    let mut place = from;
    while place < len {
        match find_next(file, place, len)? {
            None => return Ok(place),
            Some(next) => place = next,
        }
    }
    Ok(place)
}

// Writes bytes from a place on and settles them. A crash at any moment of it leaves a file in which any part of the write was done.
pub fn write_through<E: Extent>(file: &mut E, at: u64, bytes: &[u8]) -> Result<(), Failed>
    requires place { IfSome (E.seen file.old).content (λ was. at ≤ length was) }
    requires room { at + length bytes.now ≤ (E.seen file.old).room }
    requires spare { 2 ≤ (E.seen file.old).spare }
    ensures calls { Calls 2 (E.seen file.old) (E.seen file.new) result }
    ensures through { WritesThrough at bytes.now (E.seen file.old) (E.seen file.new) result }
{
    file.write_at(at, bytes)?;
    file.sync()
}
