//! Replies of a volume's manager as replies of the volume.

ghost use Rattle.std.specs.Prelude.{◌≡◌};
ghost use Rattle.volume_world.specs.ManagerReplies.{IsOfOpenLog, IsStartFault, start_refusal, step_reply, volume_reply};

use crate::{Reply, StepFault};
use volume_entry::{EntryFault, ManagerReply};

impl From<ManagerReply> for Reply {
    ghost from_gives = { λ given reply. reply ≡ volume_reply given };

    fn from(given: ManagerReply) -> Reply {
        match given {
            ManagerReply::Done => Reply::Done,
            ManagerReply::Already => Reply::Already,
            ManagerReply::LeaseTo { end } => Reply::LeaseTo { end },
            ManagerReply::Locked { task } => Reply::Locked { task },
            ManagerReply::LeaseRuns { end } => Reply::LeaseRuns { end },
            ManagerReply::Granted { lock, moves } => Reply::Granted { lock, moves },
            ManagerReply::DestBroken => Reply::DestBroken,
            ManagerReply::DestHeld { index } => Reply::DestHeld { index },
            ManagerReply::EpochSpent => Reply::EpochSpent,
            ManagerReply::NotLocked => Reply::NotLocked,
            ManagerReply::OtherTask { task } => Reply::OtherTask { task },
            ManagerReply::AlreadySwapped => Reply::AlreadySwapped,
            ManagerReply::NotMoved => Reply::NotMoved,
            ManagerReply::DestGood => Reply::DestGood,
            ManagerReply::NotFenced => Reply::NotFenced,
            ManagerReply::NotListed { have } => Reply::NotListed { have },
            ManagerReply::NotCopied { bid } => Reply::NotCopied { bid },
            ManagerReply::NotSwapped => Reply::NotSwapped,
            ManagerReply::NotReleased => Reply::NotReleased,
            ManagerReply::NotAsked => Reply::NotAsked,
            ManagerReply::TooFewMarks { have } => Reply::TooFewMarks { have },
        }
    }
}

/// What the volume replies where its manager, whose log is started, answers a step so.
pub(crate) fn step_reply(answer: Result<ManagerReply, EntryFault>) -> Result<Reply, StepFault>
    requires { IsOfOpenLog answer }
    ensures { result ≡ step_reply answer }
{
    match answer {
        Ok(reply) => Ok(Reply::from(reply)),
        Err(EntryFault::Fault) => Ok(Reply::Fault),
        Err(EntryFault::Memory) => Err(StepFault::Memory),
        Err(EntryFault::Shut | EntryFault::Spoiled { .. }) => unreachable!(),
    }
}

/// What the volume replies to an event that needs the manager's log, where the log doesn't start.
pub(crate) fn start_refusal(fault: EntryFault) -> Result<Reply, StepFault>
    requires { IsStartFault fault }
    ensures { result ≡ start_refusal fault }
{
    match fault {
        EntryFault::Fault => Ok(Reply::Fault),
        EntryFault::Spoiled { place } => Ok(Reply::Spoiled { place }),
        EntryFault::Memory => Err(StepFault::Memory),
        EntryFault::Shut => unreachable!(),
    }
}
