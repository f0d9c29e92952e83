//! What is told of replies, answers and calls, in the words of stories.

use blob_access::{Acked, GetFault, PutFault};
use blob_delete::{DeleteFault, Swept};
use migrate_task::{Stage, TaskFault, Why};
use std::alloc::{AllocError, Global};
use unit_id::{Answer, Bids, Bytes, Homes};
use volume_entry::View;
use volume_world::{Reply, StepFault};

type Told = Result<String, AllocError>;

/// Bids with commas between, or `-` for none.
fn bids_text(alloc: Global, bids: &Bids) -> Told {
    let mut text = String::new(alloc);
    for bid in bids.as_slice() {
        let mark = if text.is_empty() { "" } else { "," };
        text.push_str(format!(in alloc; "{mark}{bid}")?.as_str())?;
    }
    if text.is_empty() {
        text.push('-')?;
    }
    Ok(text)
}

/// The word of an answer that carries nothing.
fn bare_answer(answer: &Answer) -> Option<&'static str> {
    match answer {
        Answer::Done => Some("done"),
        Answer::Already => Some("already"),
        Answer::Marked => Some("marked"),
        Answer::Gone => Some("gone"),
        Answer::Absent => Some("absent"),
        Answer::NoUnit => Some("no-unit"),
        Answer::Deleted => Some("deleted"),
        Answer::NotMarked => Some("not-marked"),
        Answer::Broken => Some("broken"),
        Answer::Fault => Some("fault"),
        _ => None,
    }
}

fn answer_text(alloc: Global, answer: &Answer) -> Told {
    if let Some(word) = bare_answer(answer) {
        return format!(in alloc; "heard {word}");
    }
    match answer {
        Answer::Live { blob_size, .. } => format!(in alloc; "heard live {blob_size}"),
        Answer::Listing { lock, live, marked } => {
            let live = bids_text(alloc, live)?;
            let marked = bids_text(alloc, marked)?;
            format!(in alloc; "heard listing {lock} live {live} marked {marked}")
        }
        Answer::Stale { have } => format!(in alloc; "heard stale {have}"),
        Answer::Fenced { lock } => format!(in alloc; "heard fenced {lock}"),
        Answer::Full { end } => format!(in alloc; "heard full {end}"),
        Answer::Damaged { .. } => format!(in alloc; "heard damaged"),
        Answer::Spoiled { place } => format!(in alloc; "heard spoiled {place}"),
        _ => format!(in alloc; "heard"),
    }
}

/// A volume as a look shows it, without its units.
fn view_text(alloc: Global, view: &View) -> Told {
    let (version, now, lease) = (view.version, view.now, view.lease);
    match &view.held {
        None => format!(in alloc; "version {version} now {now} lease {lease} lock none"),
        Some(held) => {
            let task = held.task;
            format!(in alloc; "version {version} now {now} lease {lease} lock {task}")
        }
    }
}

/// The word of a reply that carries nothing.
fn bare_reply(reply: &Reply) -> Option<&'static str> {
    match reply {
        Reply::Done => Some("done"),
        Reply::Already => Some("already"),
        Reply::BeginTwice => Some("begin-twice"),
        Reply::Unheard => Some("unheard"),
        Reply::Barred => Some("barred"),
        Reply::NothingLate => Some("nothing-late"),
        Reply::NotOpen => Some("not-open"),
        Reply::DestBroken => Some("dest-broken"),
        Reply::EpochSpent => Some("epoch-spent"),
        Reply::NotLocked => Some("not-locked"),
        Reply::AlreadySwapped => Some("already-swapped"),
        Reply::NotMoved => Some("not-moved"),
        Reply::DestGood => Some("dest-good"),
        Reply::NotFenced => Some("not-fenced"),
        Reply::NotSwapped => Some("not-swapped"),
        Reply::NotReleased => Some("not-released"),
        Reply::NotBegun => Some("not-begun"),
        Reply::NotAsked => Some("not-asked"),
        Reply::Fault => Some("fault"),
        _ => None,
    }
}

/// What the manager's refusals tell.
fn refusal_text(alloc: Global, reply: &Reply) -> Told {
    match reply {
        Reply::Locked { task } => format!(in alloc; "locked {task}"),
        Reply::LeaseRuns { end } => format!(in alloc; "lease-runs {end}"),
        Reply::DestHeld { index } => format!(in alloc; "dest-held {index}"),
        Reply::OtherTask { task } => format!(in alloc; "other-task {task}"),
        Reply::NotListed { have } => format!(in alloc; "not-listed {have}"),
        Reply::NotCopied { bid } => format!(in alloc; "not-copied {bid}"),
        Reply::TooFewMarks { have } => format!(in alloc; "too-few-marks {have}"),
        Reply::Damaged { .. } => format!(in alloc; "damaged"),
        Reply::Spoiled { place } => format!(in alloc; "spoiled {place}"),
        _ => format!(in alloc; "no word"),
    }
}

fn reply_text(alloc: Global, reply: &Reply) -> Told {
    if let Some(word) = bare_reply(reply) {
        return format!(in alloc; "{word}");
    }
    match reply {
        Reply::Now { now } => format!(in alloc; "now {now}"),
        Reply::LeaseTo { end } => format!(in alloc; "lease-to {end}"),
        Reply::Begun { end, .. } => format!(in alloc; "begun {end}"),
        Reply::Heard { answer } => answer_text(alloc, answer),
        Reply::Flushed { request: true } => format!(in alloc; "flushed request"),
        Reply::Flushed { request: false } => format!(in alloc; "flushed answer"),
        Reply::Acked { accepted } => format!(in alloc; "acked {accepted}"),
        Reply::LeaseOver { end, now } => format!(in alloc; "lease-over {end} {now}"),
        Reply::Quorum { accepted } => format!(in alloc; "quorum {accepted}"),
        Reply::Granted { lock, .. } => format!(in alloc; "granted {lock}"),
        Reply::Seen { view } => view_text(alloc, view),
        _ => refusal_text(alloc, reply),
    }
}

/// The epoch and the disk of the unit of an index, as a look shows it.
pub(crate) fn home_text(alloc: Global, reply: &Reply, place: u8) -> Told {
    let Reply::Seen { view } = reply else {
        return reply_text(alloc, reply);
    };
    let Some(home) = view.units.as_slice().get(usize::from(place)) else {
        return format!(in alloc; "no such index");
    };
    let (epoch, disk) = (home.unit.epoch, home.disk);
    let broken = if home.broken { " broken" } else { "" };
    format!(in alloc; "{epoch} {disk}{broken}")
}

/// What a step tells.
pub(crate) fn step_text(alloc: Global, step: Result<Reply, StepFault>) -> Told {
    match step {
        Ok(reply) => reply_text(alloc, &reply),
        Err(StepFault::HistoryFull) => format!(in alloc; "history-full"),
        Err(StepFault::Memory) => format!(in alloc; "no memory"),
    }
}

/// What a put tells.
pub(crate) fn put_text(alloc: Global, put: Result<Acked, PutFault>) -> Told {
    match put {
        Ok(acked) => {
            let accepted = acked.accepted;
            format!(in alloc; "acked {accepted}")
        }
        Err(PutFault::Locked { task }) => format!(in alloc; "locked {task}"),
        Err(PutFault::Begun) => format!(in alloc; "begun"),
        Err(PutFault::LeaseEnded { end, now }) => format!(in alloc; "lease-ended {end} {now}"),
        Err(PutFault::NotOpen) => format!(in alloc; "not-open"),
        Err(PutFault::Quorum { accepted }) => format!(in alloc; "quorum {accepted}"),
        Err(PutFault::Fault) => format!(in alloc; "fault"),
        Err(PutFault::Spoiled { place }) => format!(in alloc; "spoiled {place}"),
        Err(PutFault::HistoryFull) => format!(in alloc; "history-full"),
        Err(PutFault::Memory) => format!(in alloc; "no memory"),
    }
}

/// What a get tells whose bytes should be these.
pub(crate) fn get_text(alloc: Global, got: Result<Bytes, GetFault>, wanted: &[u8]) -> Told {
    match got {
        Ok(bytes) if bytes.as_slice() == wanted => format!(in alloc; "right"),
        Ok(_) => format!(in alloc; "other-bytes"),
        Err(fault) => get_fault_text(alloc, &fault),
    }
}

fn get_fault_text(alloc: Global, fault: &GetFault) -> Told {
    match fault {
        GetFault::Short {
            live,
            unheard,
            broken,
        } => format!(in alloc; "short {live} unheard {unheard} broken {broken}"),
        GetFault::Size { kept } => format!(in alloc; "size {kept}"),
        GetFault::Moving { .. } => format!(in alloc; "moving"),
        GetFault::Fault => format!(in alloc; "fault"),
        GetFault::Spoiled { place } => format!(in alloc; "spoiled {place}"),
        GetFault::HistoryFull => format!(in alloc; "history-full"),
        GetFault::Memory => format!(in alloc; "no memory"),
    }
}

/// What a sweep tells.
pub(crate) fn sweep_text(alloc: Global, swept: Result<Swept, DeleteFault>) -> Told {
    match swept {
        Ok(Swept::Freed) => format!(in alloc; "freed"),
        Ok(Swept::Committed) => format!(in alloc; "committed"),
        Ok(Swept::Waits { marks }) => format!(in alloc; "waits {marks}"),
        Err(DeleteFault::Locked { task }) => format!(in alloc; "locked {task}"),
        Err(DeleteFault::NotAsked) => format!(in alloc; "not-asked"),
        Err(DeleteFault::Fault) => format!(in alloc; "fault"),
        Err(DeleteFault::Spoiled { place }) => format!(in alloc; "spoiled {place}"),
        Err(DeleteFault::HistoryFull) => format!(in alloc; "history-full"),
        Err(DeleteFault::Memory) => format!(in alloc; "no memory"),
    }
}

/// Units, each as INDEX EPOCH DISK, behind `done`.
fn units_text(alloc: Global, units: &Homes) -> Told {
    let mut text = format!(in alloc; "done")?;
    for home in units.as_slice() {
        let (index, epoch, disk) = (home.unit.index, home.unit.epoch, home.disk);
        text.push_str(format!(in alloc; " unit {index} {epoch} {disk}")?.as_str())?;
    }
    Ok(text)
}

/// Why a task waits.
fn why_text(alloc: Global, why: Why) -> Told {
    match why {
        Why::Locked { task } => format!(in alloc; "waits locked {task}"),
        Why::Leased { end } => format!(in alloc; "waits leased {end}"),
        Why::NoDisk => format!(in alloc; "waits no-disk"),
        Why::DestBroken => format!(in alloc; "waits dest"),
        Why::DestHeld { index } => format!(in alloc; "waits held {index}"),
        Why::Short { listed } => format!(in alloc; "waits short {listed}"),
        Why::ShortShards { bid, live, unheard } => {
            format!(in alloc; "waits shards {bid} {live} unheard {unheard}")
        }
        Why::Unheard { disk } => format!(in alloc; "waits unheard {disk}"),
        Why::Sick { disk } => format!(in alloc; "waits sick {disk}"),
    }
}

/// What a call of a task tells.
pub(crate) fn stage_text(alloc: Global, stage: Result<Stage, TaskFault>) -> Told {
    match stage {
        Ok(Stage::Done { units }) => units_text(alloc, &units),
        Ok(Stage::Waits(why)) => why_text(alloc, why),
        Err(TaskFault::EpochSpent) => format!(in alloc; "refused epochs"),
        Err(TaskFault::Fault) => format!(in alloc; "refused fault"),
        Err(TaskFault::Spoiled { place }) => format!(in alloc; "refused spoiled {place}"),
        Err(TaskFault::HistoryFull) => format!(in alloc; "history-full"),
        Err(TaskFault::Memory) => format!(in alloc; "no memory"),
    }
}
