//! What the answers of calls make of a reply.

ghost use Rattle.std.specs.Prelude.{◌≡◌};
ghost use Rattle.volume_turns.specs.Answers.{put_reply, got_reply, fetched_reply, ask_reply, tick_reply, broken_reply, planned_reply, seen_reply, flush_reply, restart_reply, manager_reply, refused, put_refused, get_refused, log_refused};

use crate::{VolumeRefusal, VolumeReply};
use blob_access::{GetFault, PutFault};
use unit_id::Bytes;
use volume_calls::{AskFault, Flushed, LogFault, RestartFault};
use volume_entry::View;
use volume_world::StepFault;

/// The reply of a command that isn't done.
fn refused(refusal: VolumeRefusal) -> Result<VolumeReply, StepFault>
    ensures { result ≡ refused refusal }
{
    Ok(VolumeReply::Refused { refusal })
}

fn put_refused(fault: PutFault) -> Result<VolumeReply, StepFault>
    ensures { result ≡ put_refused fault }
{
    match fault {
        PutFault::Locked { task } => refused(VolumeRefusal::Locked { task }),
        PutFault::Begun => refused(VolumeRefusal::Begun),
        PutFault::LeaseEnded { end, now: _ } => refused(VolumeRefusal::Lease { end }),
        PutFault::NotOpen => refused(VolumeRefusal::NotOpen),
        PutFault::Quorum { accepted } => refused(VolumeRefusal::Quorum { accepted }),
        PutFault::Fault => refused(VolumeRefusal::Fault),
        PutFault::Spoiled { place } => refused(VolumeRefusal::Spoiled { place }),
        PutFault::HistoryFull => Err(StepFault::HistoryFull),
        PutFault::Memory => Err(StepFault::Memory),
    }
}

pub(crate) fn put_reply(answer: Result<(), PutFault>) -> Result<VolumeReply, StepFault>
    ensures { result ≡ put_reply answer }
{
    match answer {
        Ok(()) => Ok(VolumeReply::Put),
        Err(fault) => put_refused(fault),
    }
}

fn get_refused(fault: GetFault) -> Result<VolumeReply, StepFault>
    ensures { result ≡ get_refused fault }
{
    match fault {
        GetFault::Short {
            live,
            unheard: _,
            broken: _,
        } => refused(VolumeRefusal::Short { live }),
        GetFault::Size { kept } => refused(VolumeRefusal::Size { kept }),
        GetFault::Moving { versions: _ } => refused(VolumeRefusal::Moving),
        GetFault::Fault => refused(VolumeRefusal::Fault),
        GetFault::Spoiled { place } => refused(VolumeRefusal::Spoiled { place }),
        GetFault::HistoryFull => Err(StepFault::HistoryFull),
        GetFault::Memory => Err(StepFault::Memory),
    }
}

pub(crate) fn got_reply(answer: Result<Bytes, GetFault>) -> Result<VolumeReply, StepFault>
    ensures { result ≡ got_reply answer }
{
    match answer {
        Ok(bytes) => Ok(VolumeReply::Got { bytes }),
        Err(fault) => get_refused(fault),
    }
}

pub(crate) fn fetched_reply(answer: Result<Bytes, GetFault>) -> Result<VolumeReply, StepFault>
    ensures { result ≡ fetched_reply answer }
{
    match answer {
        Ok(bytes) => Ok(VolumeReply::Fetched { bytes }),
        Err(fault) => get_refused(fault),
    }
}

pub(crate) fn ask_reply(answer: Result<(), AskFault>) -> Result<VolumeReply, StepFault>
    ensures { result ≡ ask_reply answer }
{
    match answer {
        Ok(()) => Ok(VolumeReply::Asked),
        Err(AskFault::NotBegun) => refused(VolumeRefusal::NotBegun),
        Err(AskFault::Fault) => refused(VolumeRefusal::Fault),
        Err(AskFault::Spoiled { place }) => refused(VolumeRefusal::Spoiled { place }),
        Err(AskFault::HistoryFull) => Err(StepFault::HistoryFull),
        Err(AskFault::Memory) => Err(StepFault::Memory),
    }
}

pub(crate) fn tick_reply(answer: Result<u64, StepFault>) -> Result<VolumeReply, StepFault>
    ensures { result ≡ tick_reply answer }
{
    match answer {
        Ok(now) => Ok(VolumeReply::Ticked { now }),
        Err(fault) => Err(fault),
    }
}

pub(crate) fn broken_reply(answer: Result<(), StepFault>) -> Result<VolumeReply, StepFault>
    ensures { result ≡ broken_reply answer }
{
    match answer {
        Ok(()) => Ok(VolumeReply::Broken),
        Err(fault) => Err(fault),
    }
}

pub(crate) fn planned_reply(answer: Result<(), StepFault>) -> Result<VolumeReply, StepFault>
    ensures { result ≡ planned_reply answer }
{
    match answer {
        Ok(()) => Ok(VolumeReply::Planned),
        Err(fault) => Err(fault),
    }
}

/// The reply of a command that ends with a fault of the manager's log.
fn log_refused(fault: LogFault) -> Result<VolumeReply, StepFault>
    ensures { result ≡ log_refused fault }
{
    match fault {
        LogFault::Fault => refused(VolumeRefusal::Fault),
        LogFault::Spoiled { place } => refused(VolumeRefusal::Spoiled { place }),
        LogFault::HistoryFull => Err(StepFault::HistoryFull),
        LogFault::Memory => Err(StepFault::Memory),
    }
}

/// What a look shows.
pub(crate) fn seen_reply(answer: Result<View, LogFault>) -> Result<VolumeReply, StepFault>
    ensures { result ≡ seen_reply answer }
{
    match answer {
        Ok(view) => Ok(VolumeReply::Seen { view }),
        Err(fault) => log_refused(fault),
    }
}

pub(crate) fn flush_reply(answer: Result<Flushed, LogFault>) -> Result<VolumeReply, StepFault>
    ensures { result ≡ flush_reply answer }
{
    match answer {
        Ok(flushed) => Ok(VolumeReply::Flushed {
            requests: flushed.requests,
            answers: flushed.answers,
        }),
        Err(fault) => log_refused(fault),
    }
}

pub(crate) fn restart_reply(answer: Result<(), RestartFault>) -> Result<VolumeReply, StepFault>
    ensures { result ≡ restart_reply answer }
{
    match answer {
        Ok(()) => Ok(VolumeReply::Restarted),
        Err(RestartFault::Fault) => refused(VolumeRefusal::Fault),
        Err(
            RestartFault::Damaged {
                kept: _,
                computed: _,
            },
        ) => refused(VolumeRefusal::Damaged),
        Err(RestartFault::Spoiled { place }) => refused(VolumeRefusal::Spoiled { place }),
        Err(RestartFault::HistoryFull) => Err(StepFault::HistoryFull),
        Err(RestartFault::Memory) => Err(StepFault::Memory),
    }
}

pub(crate) fn manager_reply(answer: Result<(), LogFault>) -> Result<VolumeReply, StepFault>
    ensures { result ≡ manager_reply answer }
{
    match answer {
        Ok(()) => Ok(VolumeReply::RestartedManager),
        Err(fault) => log_refused(fault),
    }
}
