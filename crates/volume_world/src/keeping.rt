//! What a history keeps of events and replies, made of them.

ghost use Rattle.std.specs.Prelude.{◌≡◌};
ghost use Rattle.volume_world.specs.FixedRows.{FitsRows};
ghost use Rattle.volume_world.specs.Trace.{answer_kept, event_kept, reply_kept, request_kept};

use crate::copies::{copy_homes, copy_moves, copy_view};
use crate::{Event, Reply, TraceAnswer, TraceEvent, TraceReply, TraceRequest};
use unit_id::{Answer, Request};

/// The request without the bytes of its shard.
pub(crate) fn request_kept(request: &Request) -> TraceRequest
    ensures { result ≡ request_kept request.now }
{
    match *request {
        Request::Create { unit, disk } => TraceRequest::Create { unit, disk },
        Request::Fence { unit, disk, lock } => TraceRequest::Fence { unit, disk, lock },
        Request::Put {
            unit,
            disk,
            bid,
            blob_size,
            ..
        } => TraceRequest::Put {
            unit,
            disk,
            bid,
            blob_size,
        },
        Request::Read { unit, disk, bid } => TraceRequest::Read { unit, disk, bid },
        Request::List { unit, disk, lock } => TraceRequest::List { unit, disk, lock },
        Request::Copy {
            unit,
            disk,
            bid,
            blob_size,
            ..
        } => TraceRequest::Copy {
            unit,
            disk,
            bid,
            blob_size,
        },
        Request::Mark { unit, disk, bid } => TraceRequest::Mark { unit, disk, bid },
        Request::Free { unit, disk, bid } => TraceRequest::Free { unit, disk, bid },
        Request::Release { unit, disk } => TraceRequest::Release { unit, disk },
    }
}

/// The answer without a shard's bytes and a listing's blobs.
pub(crate) fn answer_kept(answer: &Answer) -> TraceAnswer
    ensures { result ≡ answer_kept answer.now }
{
    match *answer {
        Answer::Done => TraceAnswer::Done,
        Answer::Already => TraceAnswer::Already,
        Answer::Live { blob_size, .. } => TraceAnswer::Live { blob_size },
        Answer::Marked => TraceAnswer::Marked,
        Answer::Gone => TraceAnswer::Gone,
        Answer::Absent => TraceAnswer::Absent,
        Answer::Listing { lock, .. } => TraceAnswer::Listing { lock },
        Answer::Stale { have } => TraceAnswer::Stale { have },
        Answer::NoUnit => TraceAnswer::NoUnit,
        Answer::Fenced { lock } => TraceAnswer::Fenced { lock },
        Answer::Deleted => TraceAnswer::Deleted,
        Answer::NotMarked => TraceAnswer::NotMarked,
        Answer::Broken => TraceAnswer::Broken,
        Answer::Full { end } => TraceAnswer::Full { end },
        Answer::Fault => TraceAnswer::Fault,
        Answer::Damaged { kept, computed } => TraceAnswer::Damaged { kept, computed },
        Answer::Spoiled { place } => TraceAnswer::Spoiled { place },
    }
}

impl Event {
    /// What the history keeps of the event. Takes no memory.
    pub fn into_kept(self) -> TraceEvent
        ensures { result ≡ event_kept self }
    {
        match self {
            Event::Tick { by } => TraceEvent::Tick { by },
            Event::Plan { disk, fate, count } => TraceEvent::Plan { disk, fate, count },
            Event::Lease => TraceEvent::Lease,
            Event::Begin { bid, payload } => TraceEvent::Begin { bid, payload },
            Event::Send { request } => TraceEvent::Send {
                request: request_kept(&request),
            },
            Event::FlushOne => TraceEvent::FlushOne,
            Event::End { bid } => TraceEvent::End { bid },
            Event::Lock { task, targets } => TraceEvent::Lock { task, targets },
            Event::Retarget { task, index, disk } => TraceEvent::Retarget { task, index, disk },
            Event::Swap { task } => TraceEvent::Swap { task },
            Event::Unlock { task } => TraceEvent::Unlock { task },
            Event::Break { disk } => TraceEvent::Break { disk },
            Event::Ask { bid } => TraceEvent::Ask { bid },
            Event::Commit { bid } => TraceEvent::Commit { bid },
            Event::Restart { disk } => TraceEvent::Restart { disk },
            Event::RestartManager => TraceEvent::RestartManager,
            Event::Look => TraceEvent::Look,
        }
    }
}

impl Reply {
    /// What the history keeps of the reply. Takes no memory.
    pub fn kept(&self) -> TraceReply
        requires { FitsRows self.now }
        ensures { result ≡ reply_kept self.now }
    {
        match self {
            Reply::Begun { end, units } => TraceReply::Begun {
                end: *end,
                units: copy_homes(units),
            },
            Reply::Heard { answer } => TraceReply::Heard {
                answer: answer_kept(answer),
            },
            Reply::Granted { lock, moves } => TraceReply::Granted {
                lock: *lock,
                moves: copy_moves(moves),
            },
            Reply::Seen { view } => TraceReply::Seen {
                view: copy_view(view),
            },
            Reply::Done => TraceReply::Done,
            Reply::Already => TraceReply::Already,
            Reply::Now { now } => TraceReply::Now { now: *now },
            Reply::LeaseTo { end } => TraceReply::LeaseTo { end: *end },
            Reply::BeginTwice => TraceReply::BeginTwice,
            Reply::Unheard => TraceReply::Unheard,
            Reply::Barred => TraceReply::Barred,
            Reply::Flushed { request } => TraceReply::Flushed { request: *request },
            Reply::NothingLate => TraceReply::NothingLate,
            Reply::Acked { accepted } => TraceReply::Acked {
                accepted: *accepted,
            },
            Reply::NotOpen => TraceReply::NotOpen,
            Reply::LeaseOver { end, now } => TraceReply::LeaseOver {
                end: *end,
                now: *now,
            },
            Reply::Quorum { accepted } => TraceReply::Quorum {
                accepted: *accepted,
            },
            Reply::Locked { task } => TraceReply::Locked { task: *task },
            Reply::LeaseRuns { end } => TraceReply::LeaseRuns { end: *end },
            Reply::DestBroken => TraceReply::DestBroken,
            Reply::DestHeld { index } => TraceReply::DestHeld { index: *index },
            Reply::EpochSpent => TraceReply::EpochSpent,
            Reply::NotLocked => TraceReply::NotLocked,
            Reply::OtherTask { task } => TraceReply::OtherTask { task: *task },
            Reply::AlreadySwapped => TraceReply::AlreadySwapped,
            Reply::NotMoved => TraceReply::NotMoved,
            Reply::DestGood => TraceReply::DestGood,
            Reply::NotFenced => TraceReply::NotFenced,
            Reply::NotListed { have } => TraceReply::NotListed { have: *have },
            Reply::NotCopied { bid } => TraceReply::NotCopied { bid: *bid },
            Reply::NotSwapped => TraceReply::NotSwapped,
            Reply::NotReleased => TraceReply::NotReleased,
            Reply::NotBegun => TraceReply::NotBegun,
            Reply::NotAsked => TraceReply::NotAsked,
            Reply::TooFewMarks { have } => TraceReply::TooFewMarks { have: *have },
            Reply::Fault => TraceReply::Fault,
            Reply::Damaged { kept, computed } => TraceReply::Damaged {
                kept: *kept,
                computed: *computed,
            },
            Reply::Spoiled { place } => TraceReply::Spoiled { place: *place },
        }
    }
}
