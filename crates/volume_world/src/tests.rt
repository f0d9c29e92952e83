//! What a history keeps, how puts end, and the order of what comes late.

use crate::copies::copy_moves;
use crate::keeping::{answer_kept, request_kept};
use crate::late::{LateItem, LateQueue};
use crate::puts::PutBook;
use crate::{Event, Reply, TraceAnswer, TraceEvent, TraceReply, TraceRequest};
use code_mode::Mode;
use std::alloc::Global;
use std::test::Fail;
use unit_id::{Answer, Bytes, Home, Homes, Move, Moves, Request, UnitName};
use volume_entry::{LockView, View};

/// Six data and three parity shards, of which eight must be accepted.
const MODE: Mode = Mode::Ec6P3;

const BID: u64 = 7;

/// The lease end that each put of the tests sees.
const END: u64 = 10;

fn put(alloc: Global, unit: UnitName) -> Result<Request, Fail> {
    let bytes = Bytes::from_vec(b"hello".to_vec(alloc)?);
    Ok(Request::Put {
        unit,
        disk: 3,
        bid: BID,
        blob_size: 5,
        bytes,
    })
}

/// Whether a history keeps this of the sending of a request.
fn is_kept(request: Request, wanted: TraceRequest) -> bool {
    let kept = Event::Send { request }.into_kept();
    match &kept {
        TraceEvent::Send { request } => *request == wanted,
        _ => false,
    }
}

#[test]
fn a_history_keeps_no_shard_bytes(rt: HostRuntime) -> Result<(), Fail> {
    let unit = UnitName::new(1, 2, 4)?;
    let request = put(rt.alloc(), unit)?;
    let kept = TraceRequest::Put {
        unit,
        disk: 3,
        bid: BID,
        blob_size: 5,
    };
    assert_eq!(rt; request_kept(&request), kept);
    assert!(rt; is_kept(request, kept));
    let live = Answer::Live {
        blob_size: 5,
        bytes: Bytes::from_vec(b"hello".to_vec(rt.alloc())?),
    };
    assert_eq!(rt; answer_kept(&live), TraceAnswer::Live { blob_size: 5 });
    Ok(())
}

fn home() -> Result<Home, Fail> {
    Ok(Home {
        unit: UnitName::new(1, 0, 4)?,
        disk: 3,
        broken: true,
    })
}

fn moved() -> Result<Move, Fail> {
    Ok(Move {
        index: 2,
        unit: UnitName::new(1, 2, 5)?,
        disk: 11,
        dest_broken: false,
    })
}

/// What a history keeps of a begun put that shows one home.
fn begun_kept() -> Result<bool, Fail> {
    let home = home()?;
    let mut units = Homes::empty();
    units.push(home);
    match (Reply::Begun { end: END, units }).kept() {
        TraceReply::Begun { end, units } => {
            Ok(end == END && units.as_slice() == [home].as_slice())
        }
        _ => Ok(false),
    }
}

/// What a history keeps of a lock that moves one unit.
fn granted_kept() -> Result<bool, Fail> {
    let item = moved()?;
    let mut moves = Moves::empty();
    moves.push(item);
    match (Reply::Granted { lock: 6, moves }).kept() {
        TraceReply::Granted { lock, moves } => {
            Ok(lock == 6 && copy_moves(&moves).as_slice() == [item].as_slice())
        }
        _ => Ok(false),
    }
}

/// What a history keeps of a look at a volume with a lock that moves nothing.
fn seen_kept() -> bool {
    let lock = LockView {
        task: 4,
        lock: 6,
        moves: Moves::empty(),
        swapped: true,
    };
    let view = View {
        now: 1,
        version: 2,
        lease: 3,
        held: Some(lock),
        units: Homes::empty(),
    };
    match (Reply::Seen { view }).kept() {
        TraceReply::Seen { view } => {
            (view.now, view.version, view.lease) == (1, 2, 3)
                && view.held.is_some_and(|lock| lock.task == 4)
        }
        _ => false,
    }
}

#[test]
fn a_history_keeps_rows(rt: HostRuntime) -> Result<(), Fail> {
    assert!(rt; begun_kept()?, "homes");
    assert!(rt; granted_kept()?, "moves");
    assert!(rt; seen_kept(), "a view");
    Ok(())
}

/// How a put ended.
#[derive(Clone, Copy, Debug, PartialEq, Eq)]
enum Ending {
    Acked(u32),
    NotOpen,
    LeaseOver(u64, u64),
    Quorum(u32),
    Other,
}

fn outcome_of(reply: &Reply) -> Ending {
    match reply {
        Reply::Acked { accepted } => Ending::Acked(*accepted),
        Reply::NotOpen => Ending::NotOpen,
        Reply::LeaseOver { end, now } => Ending::LeaseOver(*end, *now),
        Reply::Quorum { accepted } => Ending::Quorum(*accepted),
        _ => Ending::Other,
    }
}

/// A book with the tests' put.
fn begun(alloc: Global) -> Result<PutBook, Fail> {
    let mut book = PutBook::none(alloc);
    book.reserve()?;
    book.begin(BID, END)?;
    Ok(book)
}

/// How the put ends at this time, with so many indexes accepted, and how it ends once more.
fn ends(alloc: Global, accepted: u8, now: u64) -> Result<(Ending, Ending), Fail> {
    let mut book = begun(alloc)?;
    for index in 0..accepted {
        book.accept(BID, index);
    }
    let first = outcome_of(&book.end(MODE, BID, now));
    Ok((first, outcome_of(&book.end(MODE, BID, now))))
}

#[test]
fn a_put_ends_by_lease_and_quorum(rt: HostRuntime) -> Result<(), Fail> {
    let rows = [
        (8, 9, Ending::Acked(8)),
        (9, 0, Ending::Acked(9)),
        (7, 9, Ending::Quorum(7)),
        (8, 10, Ending::LeaseOver(10, 10)),
    ];
    for (accepted, now, first) in rows {
        assert_eq!(rt;
            ends(rt.alloc(), accepted, now)?,
            (first, Ending::NotOpen),
            "{accepted} at {now}"
        );
    }
    Ok(())
}

/// How many units a put heard of, of one that took it and one that was fenced.
fn heard(alloc: Global) -> Result<Ending, Fail> {
    let mut book = begun(alloc)?;
    book.hear(&put(alloc, UnitName::new(1, 0, 1)?)?, &Answer::Already);
    book.hear(
        &put(alloc, UnitName::new(1, 1, 1)?)?,
        &Answer::Fenced { lock: 1 },
    );
    Ok(outcome_of(&book.end(MODE, BID, 0)))
}

#[test]
fn a_book_knows_what_was_begun(rt: HostRuntime) -> Result<(), Fail> {
    assert!(rt; begun(rt.alloc())?.is_begun(BID));
    assert!(rt; !begun(rt.alloc())?.is_begun(BID + 1));
    assert_eq!(rt; heard(rt.alloc())?, Ending::Quorum(1));
    Ok(())
}

/// Whether the item is a request.
fn is_request(item: &LateItem) -> bool {
    match item {
        LateItem::Request(_) => true,
        LateItem::Answer { .. } => false,
    }
}

/// A late request, and behind it a late answer.
fn queue(alloc: Global) -> Result<LateQueue, Fail> {
    let unit = UnitName::new(1, 0, 1)?;
    let mut queue = LateQueue::none(alloc);
    queue.reserve()?;
    queue.push(LateItem::Request(Request::Release { unit, disk: 3 }))?;
    queue.push(LateItem::Answer {
        request: Request::Release { unit, disk: 3 },
        answer: Answer::Done,
    })?;
    Ok(queue)
}

#[test]
fn late_items_keep_their_order(rt: HostRuntime) -> Result<(), Fail> {
    let mut queue = queue(rt.alloc())?;
    assert_eq!(rt; queue.first().map(is_request), Some(true));
    assert_eq!(rt;
        queue.take_first().map(|item| is_request(&item)),
        Some(true)
    );
    assert_eq!(rt;
        queue.take_first().map(|item| is_request(&item)),
        Some(false)
    );
    assert!(rt; queue.take_first().is_none());
    Ok(())
}
