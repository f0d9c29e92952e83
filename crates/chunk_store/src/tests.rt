//! Worked rows, calls that fail, lies and bad records, and many rows.

use crate::{Chunk, ChunkFault, Got, Put};
use disk_base::{Extent, Failed, MemFile, NoMemory};
use gate_log::GateLog;
use shard_record::{
    ShardRecord, first_fence_stays, gone_rows_stay_gone, nothing_follows_a_release, write,
};
use std::alloc::Global;
use std::test::Fail;
use unit_id::{Bytes, UnitName};

const SHARD: [u8; 5] = *b"hello";

/// The lock that fences.
const LOCK: u64 = 3;

/// The unit of this epoch.
fn unit(epoch: u32) -> Result<UnitName, Fail> {
    Ok(UnitName::new(1, 0, epoch)?)
}

/// A started chunk over a file.
fn started(alloc: Global, file: MemFile) -> Result<Chunk<MemFile>, Fail> {
    let mut chunk = Chunk::over(alloc, file, unit(1)?);
    chunk.start()?;
    Ok(chunk)
}

/// A put of the tests' shard. Like the other writes below it is asked for only while the unit isn't released.
fn put(chunk: &mut Chunk<MemFile>, bid: u64) -> Result<Put, ChunkFault> {
    if !chunk.is_shut() && chunk.is_released() {
        return Err(ChunkFault::Memory);
    }
    chunk.put(bid, 7, &SHARD)
}

fn mark(chunk: &mut Chunk<MemFile>, bid: u64) -> Result<bool, ChunkFault> {
    if !chunk.is_shut() && chunk.is_released() {
        return Err(ChunkFault::Memory);
    }
    chunk.mark(bid)
}

fn free(chunk: &mut Chunk<MemFile>, bid: u64) -> Result<bool, ChunkFault> {
    if !chunk.is_shut() && chunk.is_released() {
        return Err(ChunkFault::Memory);
    }
    chunk.free(bid)
}

fn fence(chunk: &mut Chunk<MemFile>, lock: u64) -> Result<(), ChunkFault> {
    if !chunk.is_shut() && chunk.is_released() {
        return Err(ChunkFault::Memory);
    }
    chunk.fence(lock)
}

fn release(chunk: &mut Chunk<MemFile>) -> Result<(), ChunkFault> {
    if !chunk.is_shut() && chunk.is_released() {
        return Err(ChunkFault::Memory);
    }
    chunk.release()
}

/// What a get answers, as a number: 0 absent, 1 live with the shard of the tests, 2 marked, 3 gone.
fn row(chunk: &mut Chunk<MemFile>, bid: u64) -> Result<u64, ChunkFault> {
    Ok(match chunk.get(bid)? {
        Got::Absent => 0,
        Got::Live { blob_size, bytes } => {
            if blob_size == 7 && bytes.as_slice() == SHARD.as_slice() {
                1
            } else {
                9
            }
        }
        Got::Marked => 2,
        Got::Gone => 3,
    })
}

/// Whether a start answers Ok.
fn starts(chunk: &mut Chunk<MemFile>) -> bool {
    chunk.start().is_ok()
}

/// Whether each call of a chunk that isn't started is refused.
fn refuses_all(chunk: &mut Chunk<MemFile>) -> bool {
    chunk.is_shut()
        && matches!(put(chunk, 1), Err(ChunkFault::Shut))
        && matches!(mark(chunk, 1), Err(ChunkFault::Shut))
        && matches!(free(chunk, 1), Err(ChunkFault::Shut))
        && matches!(fence(chunk, 1), Err(ChunkFault::Shut))
        && matches!(release(chunk), Err(ChunkFault::Shut))
        && matches!(row(chunk, 1), Err(ChunkFault::Shut))
        && matches!(chunk.list(), Err(ChunkFault::Shut))
}

/// How many blobs are live, and how many are marked or gone.
fn listed(chunk: &Chunk<MemFile>) -> Result<(usize, usize), ChunkFault> {
    let (live, deleted) = chunk.list()?;
    Ok((live.len(), deleted.len()))
}

/// The lock that a fence of this number meets.
fn fenced_by(chunk: &mut Chunk<MemFile>, lock: u64) -> Option<u64> {
    match fence(chunk, lock) {
        Err(ChunkFault::Fenced { lock: first }) => Some(first),
        _ => None,
    }
}

/// What the calls of a blob's life answer, from its put to its end.
fn life(chunk: &mut Chunk<MemFile>) -> Result<[u64; 4], ChunkFault> {
    let first = put(chunk, 1)? == Put::Stored && put(chunk, 1)? == Put::Already;
    let live = row(chunk, 1)?;
    let unmarked = matches!(free(chunk, 1), Err(ChunkFault::NotMarked));
    Ok([u64::from(first), live, u64::from(unmarked), 0])
}

/// What its marks and its end answer.
fn death(chunk: &mut Chunk<MemFile>) -> Result<[u64; 4], ChunkFault> {
    let marked = mark(chunk, 1)? && !mark(chunk, 1)?;
    let shown = row(chunk, 1)?;
    let late = put(chunk, 1)? == Put::Deleted;
    let freed = free(chunk, 1)? && !free(chunk, 1)?;
    Ok([u64::from(marked), shown, u64::from(late), u64::from(freed)])
}

/// The rows of two blobs, and how many are live, and marked or gone.
fn shown(chunk: &mut Chunk<MemFile>) -> Result<(u64, u64, usize, usize), ChunkFault> {
    let (one, two) = (row(chunk, 1)?, row(chunk, 2)?);
    let (live, deleted) = listed(chunk)?;
    Ok((one, two, live, deleted))
}

/// A chunk that was started, and has room for a row.
fn opened(alloc: Global) -> Result<Chunk<MemFile>, Fail> {
    let mut chunk = Chunk::over(alloc, MemFile::new(alloc, Vec::new(alloc)), unit(1)?);
    if !refuses_all(&mut chunk) || !starts(&mut chunk) {
        return Err(Fail::from(ChunkFault::Shut));
    }
    chunk.reserve(1)?;
    Ok(chunk)
}

#[test]
fn rows_are_kept_and_found_again(rt: HostRuntime) -> Result<(), Fail> {
    gone_rows_stay_gone();
    first_fence_stays();
    nothing_follows_a_release();
    let mut chunk = opened(rt.alloc())?;
    assert_eq!(rt; life(&mut chunk)?, [1, 1, 1, 0]);
    assert_eq!(rt; death(&mut chunk)?, [1, 2, 1, 1]);
    assert!(rt; starts(&mut chunk));
    assert_eq!(rt; shown(&mut chunk)?, (3, 0, 0, 1));
    Ok(())
}

#[test]
fn a_fence_and_a_release_are_found_again(rt: HostRuntime) -> Result<(), Fail> {
    let mut chunk = opened(rt.alloc())?;
    assert_eq!(rt; put(&mut chunk, 1)?, Put::Stored);
    assert_eq!(rt;
        (fenced_by(&mut chunk, 3), fenced_by(&mut chunk, 3)),
        (None, None)
    );
    assert_eq!(rt; fenced_by(&mut chunk, 4), Some(3));
    assert!(rt; starts(&mut chunk));
    assert_eq!(rt; fenced_by(&mut chunk, 4), Some(3));
    assert!(rt; matches!(put(&mut chunk, 2), Err(ChunkFault::Fenced { lock: 3 })));
    release(&mut chunk)?;
    assert!(rt; starts(&mut chunk));
    assert_eq!(rt; shown(&mut chunk)?, (0, 0, 0, 0));
    Ok(())
}

/// The calls of a table, in order: each writes one record.
fn write_row(chunk: &mut Chunk<MemFile>, number: u64) -> Result<(), ChunkFault> {
    match number {
        0 => {
            put(chunk, 1)?;
        }
        1 => {
            mark(chunk, 1)?;
        }
        2 => {
            free(chunk, 1)?;
        }
        3 => fence(chunk, LOCK)?,
        _ => release(chunk)?,
    }
    Ok(())
}

/// How many of the table's calls the rows of a chunk show.
fn calls_shown(chunk: &mut Chunk<MemFile>) -> Result<u64, ChunkFault> {
    if chunk.is_shut() {
        return Ok(9);
    }
    if chunk.is_released() {
        return Ok(5);
    }
    let shown = row(chunk, 1)?;
    match free(chunk, 2) {
        Err(ChunkFault::Fenced { lock: LOCK }) => Ok(4),
        _ => Ok(shown),
    }
}

/// A chunk whose call on its file of this number fails: one of the table's call of that number.
fn failed_write(alloc: Global, call: u64, number: u64) -> Result<Chunk<MemFile>, Fail> {
    let mut chunk = started(alloc, MemFile::new(alloc, [call].to_vec(alloc)?))?;
    for earlier in 0..number {
        write_row(&mut chunk, earlier)?;
    }
    match write_row(&mut chunk, number) {
        Err(ChunkFault::Fault) => Ok(chunk),
        _ => Err(Fail::from(ChunkFault::Shut)),
    }
}

/// What the rows show after one device call of one write failed.
fn shown_as_it_is(alloc: Global, call: u64, number: u64) -> Result<u64, Fail> {
    let mut chunk = failed_write(alloc, call, number)?;
    chunk.start()?;
    Ok(calls_shown(&mut chunk)?)
}

/// The same after a crash that takes this byte for each one that isn't settled.
fn shown_after_crash(alloc: Global, call: u64, number: u64, byte: u8) -> Result<u64, Fail> {
    let file = failed_write(alloc, call, number)?
        .into_file()
        .crash(&[byte; 64]);
    Ok(calls_shown(&mut started(alloc, file)?)?)
}

/// As it is, and after a crash that takes zeros, or ones.
fn shown_after(alloc: Global, call: u64, number: u64) -> Result<[u64; 3], Fail> {
    Ok([
        shown_as_it_is(alloc, call, number)?,
        shown_after_crash(alloc, call, number, 0)?,
        shown_after_crash(alloc, call, number, 1)?,
    ])
}

#[test]
fn a_failed_call_leaves_before_or_after(rt: HostRuntime) -> Result<(), Fail> {
    let alloc = rt.alloc();
    // The start of an empty file makes 4 calls, and each record 4 more. Where one of the first two of a
    // record fails, the rows are those before it, and where the gate was written those after it, if the
    // crash keeps that.
    for number in 0..5u64 {
        for place in 0..4u64 {
            let call = 5 + 4 * number + place;
            let after = number + u64::from(place >= 2);
            assert_eq!(rt;
                shown_after(alloc, call, number)?,
                [after, number, after],
                "call {call}"
            );
        }
    }
    Ok(())
}

/// What the start of a chunk over a log of these bodies answers, as the place or the two sums that it tells.
fn start_over(alloc: Global, bodies: &[&[u8]]) -> Result<(u64, u64), Fail> {
    let mut log = GateLog::over(MemFile::new(alloc, Vec::new(alloc)));
    log.start()?;
    for body in bodies {
        append(alloc, &mut log, body)?;
    }
    told_by_start(alloc, log.into_file())
}

fn append(alloc: Global, log: &mut GateLog<MemFile>, body: &[u8]) -> Result<(), Fail> {
    log.append(alloc, body)?;
    Ok(())
}

/// What the start of a chunk over a file answers.
fn told_by_start(alloc: Global, file: MemFile) -> Result<(u64, u64), Fail> {
    let mut chunk = Chunk::over(alloc, file, unit(1)?);
    Ok(told(chunk.start()))
}

fn told<T: Drop>(answer: Result<T, ChunkFault>) -> (u64, u64) {
    match answer {
        Err(ChunkFault::Spoiled { place }) => (place, 0),
        Err(ChunkFault::Damaged { kept, computed }) => (u64::from(kept), u64::from(computed)),
        _ => (u64::MAX, u64::MAX),
    }
}

/// What the start of a chunk over a file of ten zero bytes answers.
fn start_over_zeros(alloc: Global) -> Result<(u64, u64), Fail> {
    let mut file = MemFile::new(alloc, Vec::new(alloc));
    file.grow(10)?;
    file.write_at(0, &[0; 10])?;
    told_by_start(alloc, file)
}

/// What a get and a start answer of a chunk whose file gives the lowest bit wrong of a byte of the shard that
/// was put into it.
fn told_over_a_lie(alloc: Global) -> Result<[(u64, u64); 2], Fail> {
    let mut chunk = started(alloc, MemFile::lying(alloc, [44].to_vec(alloc)?))?;
    put(&mut chunk, 1)?;
    let got = told(chunk.get(1));
    Ok([got, told(chunk.start())])
}

/// The spelling of a mark of the unit of this epoch.
fn mark_of(alloc: Global, epoch: u32) -> Result<Bytes, Fail> {
    let unit = unit(epoch)?;
    Ok(write(alloc, &ShardRecord::Mark { bid: 1, unit })?)
}

/// The same with a bit of its last byte changed.
fn flipped_mark(alloc: Global) -> Result<Vec<u8>, Fail> {
    let mut bytes = mark_of(alloc, 1)?.into_vec();
    if let Some(last) = bytes.last_mut() {
        *last ^= 2;
    }
    Ok(bytes)
}

#[test]
fn a_bad_record_is_told(rt: HostRuntime) -> Result<(), Fail> {
    let alloc = rt.alloc();
    let (marks, others) = (mark_of(alloc, 1)?, mark_of(alloc, 2)?);
    let releases = write(alloc, &ShardRecord::Release { unit: unit(1)? })?;
    let flips = flipped_mark(alloc)?;
    let (mark, other, flipped) = (marks.as_slice(), others.as_slice(), flips.as_slice());
    let rows = [
        (
            start_over(alloc, &[mark, flipped, other])?,
            (0x40cf_6c1f, 0xaec1_0d33),
        ),
        (start_over(alloc, &[other, flipped])?, (8, 0)),
        (start_over(alloc, &[mark, other])?, (34, 0)),
        (start_over(alloc, &[releases.as_slice(), mark])?, (34, 0)),
        (
            start_over(alloc, &[mark, &mark[..mark.len() / 2]])?,
            (34, 0),
        ),
        (start_over_zeros(alloc)?, (0, 0)),
    ];
    for (told, want) in rows {
        assert_eq!(rt; told, want);
    }
    assert_eq!(rt; told_over_a_lie(alloc)?, [(0x1b32_35bb, 0x1af0_5f8c); 2]);
    Ok(())
}

/// How many rows are put where many are.
const MANY: u64 = 10_000;

/// Puts many rows into a chunk over a file, and reads each back.
fn with_many(alloc: Global, file: MemFile) -> Result<Chunk<MemFile>, Fail> {
    let mut chunk = started(alloc, file)?;
    for bid in 1..=MANY {
        put(&mut chunk, bid)?;
    }
    for bid in 1..=MANY {
        if row(&mut chunk, bid)? != 1 {
            return Err(Fail::from(ChunkFault::Shut));
        }
    }
    Ok(chunk)
}

/// Whether a chunk with many rows starts again and finds them, over a file whose call of this number fails.
fn finds_many(alloc: Global, call: u64) -> Result<bool, Fail> {
    let mut chunk = with_many(alloc, MemFile::new(alloc, [call].to_vec(alloc)?))?;
    Ok(starts(&mut chunk) && listed(&chunk)? == (10_000, 0))
}

#[test]
fn many_rows_are_read_back_once(rt: HostRuntime) -> Result<(), Fail> {
    // The first start makes 4 calls, each put 4 and each get 2. The second start settles the file, asks for its
    // length and reads the mark. Each record takes two calls, one for its gate and length and one for its body,
    // and the last one reads the closed gate.
    let before = 4 + (4 + 2) * MANY;
    let calls = 3 + 2 * MANY + 1;
    assert!(rt; finds_many(rt.alloc(), before + calls + 1)?);
    assert!(rt; !finds_many(rt.alloc(), before + calls)?);
    Ok(())
}

/// A file that counts the bytes that are read of it.
#[derive(Drop)]
struct Counted<E: Extent> {
    file: E,
    read: u64,
}

impl<E: Extent> Extent for Counted<E> {
    ghost seen = { λ counted. E.seen counted.file };

    ghost is_file = { λ counted. E.is_file counted.file };

    fn len(&mut self) -> Result<u64, Failed> {
        self.file.len()
    }

    fn read_at(&mut self, at: u64, out: &mut [u8]) -> Result<usize, Failed> {
        match self.file.read_at(at, out) {
            Ok(count) => {
                self.read = self.read.saturating_add(count as u64);
                Ok(count)
            }
            Err(failed) => Err(failed),
        }
    }

    fn grow(&mut self, end: u64) -> Result<(), NoMemory> {
        self.file.grow(end)
    }

    fn write_at(&mut self, at: u64, bytes: &[u8]) -> Result<(), Failed> {
        self.file.write_at(at, bytes)
    }

    fn sync(&mut self) -> Result<(), Failed> {
        self.file.sync()
    }
}

/// The file of a chunk with so many rows.
fn file_of_rows(alloc: Global, rows: u64) -> Result<MemFile, Fail> {
    let mut chunk = started(alloc, MemFile::new(alloc, Vec::new(alloc)))?;
    for bid in 1..=rows {
        put(&mut chunk, bid)?;
    }
    Ok(chunk.into_file())
}

/// How many bytes the start of a chunk with so many rows reads, and how long its file is.
fn read_by_start(alloc: Global, rows: u64) -> Result<(u64, u64), Fail> {
    let mut file = file_of_rows(alloc, rows)?;
    let len = file.len()?;
    let mut chunk = Chunk::over(alloc, Counted { file, read: 0 }, unit(1)?);
    chunk.start()?;
    Ok((chunk.into_file().read, len))
}

#[test]
fn a_start_reads_each_byte_once(rt: HostRuntime) -> Result<(), Fail> {
    // The mark has 8 bytes and the closed gate 1. A record of the tests' shard has 5 bytes of gate and length, and
    // a body of 29 bytes before the 5 of the shard. An empty log's file is known by its length.
    assert_eq!(rt;
        read_by_start(rt.alloc(), 3)?,
        (8 + 3 * 39 + 1, 8 + 3 * 39 + 1)
    );
    assert_eq!(rt; read_by_start(rt.alloc(), 0)?, (0, 9));
    Ok(())
}
