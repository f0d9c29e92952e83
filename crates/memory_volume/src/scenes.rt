//! What the tests of a volume in memory share: short words for what is replied and answered, and what is asked.

use crate::{MemoryVolume, Setup};
use blob_access::{Acked, GetFault, PutFault};
use blob_delete::{DeleteFault, Swept};
use code_mode::{Mode, Payload};
use std::alloc::Global;
use std::test::Fail;
use unit_id::{Answer, Bytes};
use volume_world::{Event, Reply, StepFault};

/// The blob of most tests, and its bytes.
pub(crate) const BID: u64 = 1;

pub(crate) const HELLO: [u8; 5] = *b"hello";

/// What is heard of a unit's answer.
#[derive(Clone, Copy, Debug, PartialEq, Eq)]
pub(crate) enum Heard {
    Done,
    Already,
    Live,
    Marked,
    Gone,
    Absent,
    Listing,
    Stale(u32),
    NoUnit,
    Fenced(u64),
    Deleted,
    NotMarked,
    Broken,
    Fault,
    Other,
}

fn answer_word(answer: &Answer) -> Heard {
    match answer {
        Answer::Done => Heard::Done,
        Answer::Already => Heard::Already,
        Answer::Live { .. } => Heard::Live,
        Answer::Marked => Heard::Marked,
        Answer::Gone => Heard::Gone,
        Answer::Absent => Heard::Absent,
        Answer::Listing { .. } => Heard::Listing,
        Answer::Stale { have } => Heard::Stale(*have),
        Answer::NoUnit => Heard::NoUnit,
        Answer::Fenced { lock } => Heard::Fenced(*lock),
        Answer::Deleted => Heard::Deleted,
        Answer::NotMarked => Heard::NotMarked,
        Answer::Broken => Heard::Broken,
        Answer::Fault => Heard::Fault,
        _ => Heard::Other,
    }
}

/// What a volume makes of an event.
#[derive(Clone, Copy, Debug, PartialEq, Eq)]
pub(crate) enum Told {
    Done,
    Now(u64),
    LeaseTo(u64),
    Begun(u64),
    BeginTwice,
    Heard(Heard),
    Unheard,
    Barred,
    Flushed { request: bool },
    NothingLate,
    Acked(u32),
    NotOpen,
    LeaseOver(u64, u64),
    Quorum(u32),
    Granted(u64),
    Locked(u64),
    NotLocked,
    NotFenced,
    NotListed(u32),
    NotCopied(u64),
    NotReleased,
    TooFewMarks(u32),
    Seen,
    Fault,
    Other,
    /// The event doesn't fit the volume.
    Unfit,
    HistoryFull,
    Memory,
}

fn reply_word(reply: Reply) -> Told {
    match reply {
        Reply::Done => Told::Done,
        Reply::Now { now } => Told::Now(now),
        Reply::LeaseTo { end } => Told::LeaseTo(end),
        Reply::Begun { end, .. } => Told::Begun(end),
        Reply::BeginTwice => Told::BeginTwice,
        Reply::Heard { answer } => Told::Heard(answer_word(&answer)),
        Reply::Unheard => Told::Unheard,
        Reply::Barred => Told::Barred,
        Reply::Flushed { request } => Told::Flushed { request },
        Reply::NothingLate => Told::NothingLate,
        Reply::Acked { accepted } => Told::Acked(accepted),
        Reply::NotOpen => Told::NotOpen,
        Reply::LeaseOver { end, now } => Told::LeaseOver(end, now),
        Reply::Quorum { accepted } => Told::Quorum(accepted),
        Reply::Granted { lock, .. } => Told::Granted(lock),
        Reply::Locked { task } => Told::Locked(task),
        Reply::NotLocked => Told::NotLocked,
        Reply::NotFenced => Told::NotFenced,
        Reply::NotListed { have } => Told::NotListed(have),
        Reply::NotCopied { bid } => Told::NotCopied(bid),
        Reply::NotReleased => Told::NotReleased,
        Reply::TooFewMarks { have } => Told::TooFewMarks(have),
        Reply::Seen { .. } => Told::Seen,
        Reply::Fault => Told::Fault,
        _ => Told::Other,
    }
}

pub(crate) fn ask(volume: &mut MemoryVolume, event: Event) -> Told {
    match volume.ask(event) {
        None => Told::Unfit,
        Some(Ok(reply)) => reply_word(reply),
        Some(Err(StepFault::HistoryFull)) => Told::HistoryFull,
        Some(Err(StepFault::Memory)) => Told::Memory,
    }
}

/// A volume of nine units on so many disks.
pub(crate) fn volume(alloc: Global, disks: u32, tells: bool) -> Result<MemoryVolume, Fail> {
    let mut setup = Setup::plain(alloc);
    setup.tells = tells;
    Ok(MemoryVolume::make(alloc, Mode::Ec6P3, disks, setup)?)
}

/// The bytes of a blob.
pub(crate) fn payload(alloc: Global, bytes: &[u8]) -> Result<Payload, Fail> {
    Ok(Payload::Plain(Bytes::from_vec(Vec::from_slice(alloc, bytes)?)))
}

/// What a put comes to.
#[derive(Clone, Copy, Debug, PartialEq, Eq)]
pub(crate) enum Put {
    Acked(u32),
    Begun,
    Locked(u64),
    LeaseEnded(u64, u64),
    Quorum(u32),
    Other,
    Unfit,
}

fn put_word(put: Option<Result<Acked, PutFault>>) -> Put {
    match put {
        None => Put::Unfit,
        Some(Ok(acked)) => Put::Acked(acked.accepted),
        Some(Err(PutFault::Begun)) => Put::Begun,
        Some(Err(PutFault::Locked { task })) => Put::Locked(task),
        Some(Err(PutFault::LeaseEnded { end, now })) => Put::LeaseEnded(end, now),
        Some(Err(PutFault::Quorum { accepted })) => Put::Quorum(accepted),
        Some(Err(_)) => Put::Other,
    }
}

/// Puts these bytes under a number.
pub(crate) fn put_blob(
    alloc: Global,
    volume: &mut MemoryVolume,
    bid: u64,
    bytes: &[u8],
) -> Result<Put, Fail> {
    let payload = payload(alloc, bytes)?;
    Ok(put_word(volume.put(bid, payload)))
}

/// What a get comes to.
#[derive(Clone, Copy, Debug, PartialEq, Eq)]
pub(crate) enum Got {
    /// The bytes that were wanted.
    Right,
    OtherBytes,
    Short(u32, u32, u32),
    Size(u32),
    Other,
    Unfit,
}

fn got_word(got: Option<Result<Bytes, GetFault>>, wanted: &[u8]) -> Got {
    match got {
        None => Got::Unfit,
        Some(Ok(bytes)) => {
            if bytes.as_slice() == wanted {
                Got::Right
            } else {
                Got::OtherBytes
            }
        }
        Some(
            Err(
                GetFault::Short {
                    live,
                    unheard,
                    broken,
                },
            ),
        ) => Got::Short(live, unheard, broken),
        Some(Err(GetFault::Size { kept })) => Got::Size(kept),
        Some(Err(_)) => Got::Other,
    }
}

/// Gets a blob, and compares it with these bytes.
pub(crate) fn get_blob(volume: &mut MemoryVolume, bid: u64, wanted: &[u8]) -> Got {
    let size = u32::try_from(wanted.len()).unwrap_or(u32::MAX);
    got_word(volume.get(bid, size), wanted)
}

/// What a sweep comes to.
#[derive(Clone, Copy, Debug, PartialEq, Eq)]
pub(crate) enum Sweep {
    Freed,
    Committed,
    Waits(u32),
    Locked(u64),
    NotAsked,
    Other,
    Unfit,
}

fn sweep_word(swept: Option<Result<Swept, DeleteFault>>) -> Sweep {
    match swept {
        None => Sweep::Unfit,
        Some(Ok(Swept::Freed)) => Sweep::Freed,
        Some(Ok(Swept::Committed)) => Sweep::Committed,
        Some(Ok(Swept::Waits { marks })) => Sweep::Waits(marks),
        Some(Err(DeleteFault::Locked { task })) => Sweep::Locked(task),
        Some(Err(DeleteFault::NotAsked)) => Sweep::NotAsked,
        Some(Err(_)) => Sweep::Other,
    }
}

/// Sweeps a blob.
pub(crate) fn sweep_blob(volume: &mut MemoryVolume, bid: u64) -> Sweep {
    sweep_word(volume.sweep(bid))
}
