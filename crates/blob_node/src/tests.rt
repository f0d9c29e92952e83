//! A unit's answers from its making to its end, a write that fails, and the fates of a link.

use crate::{Fate, HeldUnit, Link};
use chunk_store::Chunk;
use disk_base::{MemFile, NoMemory};
use std::alloc::Global;
use std::test::Fail;
use unit_id::{Answer, Bytes, Request, UnitName};

const SHARD: [u8; 5] = *b"hello";

/// The disk of the tests, which a unit doesn't look at.
const DISK: u32 = 1;

/// The greatest epoch that a released unit tells.
const HAVE: u32 = 1;

/// What is heard of an answer.
#[derive(Clone, Copy, Debug, PartialEq, Eq)]
pub(crate) enum Heard {
    Done,
    Already,
    /// The tests' shard with its size.
    Live,
    Marked,
    Gone,
    Absent,
    NoUnit,
    Broken,
    /// Blob 7 alone, as marked or gone, under lock 4.
    Listing,
    /// By a greatest epoch of 1.
    Stale,
    /// By lock 4.
    Fenced,
    Deleted,
    NotMarked,
    Fault,
    /// Memory knows that the unit is released.
    Released,
    Other,
}

/// A unit over a new file, some of whose calls fail.
fn made(alloc: Global, fails: Vec<u64>) -> Result<HeldUnit<MemFile>, Fail> {
    let unit = UnitName::new(1, 0, 1)?;
    let mut held = HeldUnit::over(Chunk::over(alloc, MemFile::new(alloc, fails), unit));
    held.start()?;
    Ok(held)
}

/// A put of the tests' shard. Like the other requests below it is sent only while the unit isn't known as released.
fn put(
    alloc: Global,
    held: &mut HeldUnit<MemFile>,
    bid: u64,
) -> Result<(Option<bool>, Heard), Fail> {
    if held.is_released() {
        return Ok((None, Heard::Released));
    }
    let request = Request::Put {
        unit: held.unit(),
        disk: DISK,
        bid,
        blob_size: 7,
        bytes: Bytes::from_vec(Vec::from_slice(alloc, &SHARD)?),
    };
    let (found, answer) = held.serve(&request, HAVE);
    Ok((found, word(answer)?))
}

fn read(held: &mut HeldUnit<MemFile>, bid: u64) -> Result<(Option<bool>, Heard), Fail> {
    if held.is_released() {
        return Ok((None, Heard::Released));
    }
    let request = Request::Read {
        unit: held.unit(),
        disk: DISK,
        bid,
    };
    let (found, answer) = held.serve(&request, HAVE);
    Ok((found, word(answer)?))
}

fn mark(held: &mut HeldUnit<MemFile>, bid: u64) -> Result<Heard, Fail> {
    if held.is_released() {
        return Ok(Heard::Released);
    }
    let request = Request::Mark {
        unit: held.unit(),
        disk: DISK,
        bid,
    };
    word(held.serve(&request, HAVE).1)
}

fn free(held: &mut HeldUnit<MemFile>, bid: u64) -> Result<Heard, Fail> {
    if held.is_released() {
        return Ok(Heard::Released);
    }
    let request = Request::Free {
        unit: held.unit(),
        disk: DISK,
        bid,
    };
    word(held.serve(&request, HAVE).1)
}

fn fence(held: &mut HeldUnit<MemFile>, lock: u64) -> Result<Heard, Fail> {
    if held.is_released() {
        return Ok(Heard::Released);
    }
    let request = Request::Fence {
        unit: held.unit(),
        disk: DISK,
        lock,
    };
    word(held.serve(&request, HAVE).1)
}

fn list(held: &mut HeldUnit<MemFile>) -> Result<Heard, Fail> {
    if held.is_released() {
        return Ok(Heard::Released);
    }
    let request = Request::List {
        unit: held.unit(),
        disk: DISK,
        lock: 4,
    };
    word(held.serve(&request, HAVE).1)
}

fn release(held: &mut HeldUnit<MemFile>) -> Result<(Option<bool>, Heard), Fail> {
    if held.is_released() {
        return Ok((None, Heard::Released));
    }
    let request = Request::Release {
        unit: held.unit(),
        disk: DISK,
    };
    let (found, answer) = held.serve(&request, HAVE);
    Ok((found, word(answer)?))
}

pub(crate) fn word(answer: Result<Answer, NoMemory>) -> Result<Heard, Fail> {
    Ok(match answer? {
        Answer::Done => Heard::Done,
        Answer::Already => Heard::Already,
        Answer::Live { blob_size, bytes } => {
            if blob_size == 7 && bytes.as_slice() == SHARD.as_slice() {
                Heard::Live
            } else {
                Heard::Other
            }
        }
        Answer::Marked => Heard::Marked,
        Answer::Gone => Heard::Gone,
        Answer::Absent => Heard::Absent,
        Answer::NoUnit => Heard::NoUnit,
        Answer::Broken => Heard::Broken,
        Answer::Listing { lock, live, marked } => {
            if lock == 4 && live.len() == 0 && marked.as_slice() == [7].as_slice() {
                Heard::Listing
            } else {
                Heard::Other
            }
        }
        Answer::Stale { have } => {
            if have == HAVE {
                Heard::Stale
            } else {
                Heard::Other
            }
        }
        Answer::Fenced { lock } => {
            if lock == 4 {
                Heard::Fenced
            } else {
                Heard::Other
            }
        }
        Answer::Deleted => Heard::Deleted,
        Answer::NotMarked => Heard::NotMarked,
        Answer::Fault => Heard::Fault,
        _ => Heard::Other,
    })
}

/// The answers from the put of a blob to its mark.
fn life(alloc: Global, held: &mut HeldUnit<MemFile>) -> Result<[Heard; 4], Fail> {
    let (_, first) = put(alloc, held, 7)?;
    let (_, again) = put(alloc, held, 7)?;
    let (_, shown) = read(held, 7)?;
    Ok([first, again, shown, free(held, 7)?])
}

/// The answers from its mark to the end of its shard.
fn end(alloc: Global, held: &mut HeldUnit<MemFile>) -> Result<[Heard; 5], Fail> {
    let marked = mark(held, 7)?;
    let (_, late) = put(alloc, held, 7)?;
    let (_, shown) = read(held, 7)?;
    let freed = free(held, 7)?;
    let (_, gone) = read(held, 7)?;
    Ok([marked, late, shown, freed, gone])
}

/// The answers under a fence.
fn fenced(alloc: Global, held: &mut HeldUnit<MemFile>) -> Result<[Heard; 4], Fail> {
    let first = fence(held, 4)?;
    let (_, late) = put(alloc, held, 8)?;
    Ok([first, late, fence(held, 5)?, list(held)?])
}

#[test]
fn a_unit_answers_from_its_making_to_its_end(rt: HostRuntime) -> Result<(), Fail> {
    let alloc = rt.alloc();
    let mut held = made(alloc, Vec::new(alloc))?;
    assert_eq!(rt;
        life(alloc, &mut held)?,
        [Heard::Done, Heard::Already, Heard::Live, Heard::NotMarked]
    );
    assert_eq!(rt;
        end(alloc, &mut held)?,
        [
            Heard::Done,
            Heard::Deleted,
            Heard::Marked,
            Heard::Done,
            Heard::Gone
        ]
    );
    assert_eq!(rt;
        fenced(alloc, &mut held)?,
        [Heard::Done, Heard::Fenced, Heard::Fenced, Heard::Listing]
    );
    assert!(rt; !held.start()?);
    assert_eq!(rt; fence(&mut held, 5)?, Heard::Fenced);
    assert_eq!(rt; release(&mut held)?, (None, Heard::Done));
    assert_eq!(rt; read(&mut held, 7)?, (None, Heard::Released));
    Ok(())
}

/// What a put answers whose call of this number on the file fails, and what the next put then finds and answers.
fn put_twice(alloc: Global, call: u64) -> Result<(Heard, Option<bool>, Heard), Fail> {
    let mut held = made(alloc, vec![in alloc; call]?)?;
    let (_, first) = put(alloc, &mut held, 7)?;
    let (found, again) = put(alloc, &mut held, 7)?;
    Ok((first, found, again))
}

#[test]
fn a_record_in_doubt_is_found_or_not(rt: HostRuntime) -> Result<(), Fail> {
    let alloc = rt.alloc();
    // A start over a new file makes four calls, and a put a write and a sync of the record, and then of its gate.
    assert_eq!(rt;
        put_twice(alloc, 5)?,
        (Heard::Fault, Some(false), Heard::Done)
    );
    assert_eq!(rt;
        put_twice(alloc, 6)?,
        (Heard::Fault, Some(false), Heard::Done)
    );
    assert_eq!(rt;
        put_twice(alloc, 7)?,
        (Heard::Fault, Some(true), Heard::Already)
    );
    assert_eq!(rt;
        put_twice(alloc, 8)?,
        (Heard::Fault, Some(true), Heard::Already)
    );
    assert_eq!(rt; put_twice(alloc, 9)?, (Heard::Done, None, Heard::Already));
    Ok(())
}

/// A release whose last call on the file fails, and what is answered then.
fn release_twice(alloc: Global) -> Result<(Heard, Option<bool>, Heard), Fail> {
    let mut held = made(alloc, vec![in alloc; 8]?)?;
    let (_, first) = release(&mut held)?;
    let (found, again) = release(&mut held)?;
    Ok((first, found, again))
}

#[test]
fn a_release_that_is_found_makes_the_unit_stale(rt: HostRuntime) -> Result<(), Fail> {
    let alloc = rt.alloc();
    assert_eq!(rt;
        release_twice(alloc)?,
        (Heard::Fault, Some(true), Heard::Stale)
    );
    let held = made(alloc, Vec::new(alloc))?;
    assert!(rt; !held.is_shut());
    assert!(rt; !held.into_chunk().is_shut());
    Ok(())
}

#[test]
fn planned_fates_come_in_order(rt: HostRuntime) -> Result<(), Fail> {
    let mut link = Link::make(rt.alloc(), 3)?;
    assert_eq!(rt; link.peek(2), Fate::Pass);
    link.plan(2, Fate::Lose, 1)?;
    link.plan(2, Fate::Slow, 1)?;
    assert_eq!(rt; link.peek(2), Fate::Lose);
    assert_eq!(rt; link.next(2), Fate::Lose);
    assert_eq!(rt; link.next(2), Fate::Slow);
    assert_eq!(rt; link.next(2), Fate::Pass);
    assert_eq!(rt; link.peek(3), Fate::Pass);
    Ok(())
}
