//! Destinations get the blobs that they lack.

ghost use Rattle.std.specs.Prelude.{ℕ, List, Option, ◌≡◌};
ghost use Rattle.unit_id.specs.declared.task.Task.{Task as TaskView};
ghost use Rattle.unit_id.specs.declared.request.Request.TheVariants.{Read, Copy as CopyRequest};
ghost use Rattle.code_mode.specs.declared.mode.Mode.{Mode as ModeView};
ghost use Rattle.volume_entry.specs.Manager.{IsBid};
ghost use Rattle.volume_world.specs.Asking.{IsUnitOn, MayAsk};
ghost use Rattle.volume_world.specs.Replying.{RepliesSend};
ghost use Rattle.volume_world.specs.Call.{Next};
ghost use Rattle.migrate_task.specs.declared.copying.Errand.{Errand as ErrandView};
ghost use Rattle.migrate_task.specs.Work.{Work as WorkView};
ghost use Rattle.migrate_task.specs.declared.usable.KnownSize.{KnownSize};
ghost use Rattle.migrate_task.specs.Copies.{CopyStage, copy_asks, next_errand};
ghost use Rattle.migrate_task.specs.AdvanceCall.{TaskStage, task_call, copying, after_copy};
ghost use Rattle.migrate_task.specs.Rows.{IsReadRight};
ghost use Rattle.migrate_task.specs.TaskParts.{GoesOn, told};
ghost use Rattle.std.specs.Prelude.{IfOk};

use crate::Why;
use crate::halt::{Halt, step};
use crate::work::Journey;
use unit_id::{Answer, Bytes, Home, Request};
use volume_world::{Event, Port, Reply};

/// What a blob gets at a destination.
#[derive(Clone, Copy, Debug, PartialEq, Eq)]
pub(crate) enum Due {
    /// A mark.
    Mark,
    /// A copy.
    Copy,
    /// Nothing.
    Left,
}

/// A blob that a destination is to get.
#[derive(Clone, Copy)]
pub(crate) struct Errand {
    pub(crate) bid: u64,
    pub(crate) due: Due,
    pub(crate) journey: Journey,
}

/// What the answer to a mark makes of a call.
fn marked(reply: Reply, errand: &Errand) -> Result<(), Halt>
    requires { RepliesSend reply }
    ensures { (work : WorkView) (known : Option KnownSize) (left : List ErrandView)
        → told result (λ _. copying work (next_errand work known left)) ≡ after_copy work (CopyStage.Marking known errand.now left) reply }
{
    let disk = errand.journey.dest.disk;
    match reply {
        Reply::Heard {
            answer: Answer::Done | Answer::Already,
        } => Ok(()),
        Reply::Heard {
            answer: Answer::Broken,
        } => Err(Halt::Waits(Why::DestBroken)),
        Reply::Heard { answer: _ } | Reply::Barred => Err(Halt::Waits(Why::Sick { disk })),
        Reply::Unheard => Err(Halt::Waits(Why::Unheard { disk })),
        Reply::Fault => Err(Halt::Fault),
        Reply::Spoiled { place } => Err(Halt::Spoiled { place }),
        _ => unreachable!(),
    }
}

/// Marks a blob at its destination.
pub(crate) fn mark<P: Port>(port: &mut P, errand: &Errand) -> Result<(), Halt>
    requires unit { IsUnitOn (P.seen port.old).origin errand.now.journey.dest.unit errand.now.journey.dest.disk }
    requires number { IsBid errand.now.bid }
    ensures goes { (mode : ModeView) (task : TaskView) (work : WorkView) (known : Option KnownSize) (left : List ErrandView)
        → GoesOn (task_call mode task) (P.seen port.old) (P.seen port.new) (Next.Go (TaskStage.Copying work (CopyStage.Marking known errand.now left))) result
        (λ _. copying work (next_errand work known left)) }
    ensures origin { (P.seen port.new).origin ≡ (P.seen port.old).origin }
{
    let unit = errand.journey.dest.unit;
    let disk = errand.journey.dest.disk;
    let bid = errand.bid;
    let request = Request::Mark { unit, disk, bid };
    let reply = step(port, Event::Send { request })?;
    marked(reply, errand)
}

/// Reads a blob's shard of a unit.
pub(crate) fn read<P: Port>(port: &mut P, bid: u64, home: &Home) -> Result<Reply, Halt>
    requires unit { IsUnitOn (P.seen port.old).origin home.now.unit home.now.disk }
    requires number { IsBid bid }
    ensures goes { (mode : ModeView) (task : TaskView) (work : WorkView) (copy : CopyStage) → copy_asks copy ≡ Read home.now.unit home.now.disk bid
        → GoesOn (task_call mode task) (P.seen port.old) (P.seen port.new) (Next.Go (TaskStage.Copying work copy)) result (after_copy work copy) }
    ensures origin { (P.seen port.new).origin ≡ (P.seen port.old).origin }
    ensures replies { IfOk result RepliesSend }
    ensures right { IfOk result (IsReadRight (P.seen port.new) bid home.now.unit.index) }
{
    let unit = home.unit;
    let disk = home.disk;
    let request = Request::Read { unit, disk, bid };
    port.is_way();
    let reply = step(port, Event::Send { request })?;
    port.is_way();
    Ok(reply)
}

/// What the answer to a copy makes of a call.
fn written(reply: Reply, errand: &Errand) -> Result<(), Halt>
    requires { RepliesSend reply }
    ensures { (work : WorkView) (known : Option KnownSize) (left : List ErrandView) (size : ℕ) (bytes : List ℕ)
        → told result (λ _. copying work (next_errand work known left)) ≡ after_copy work (CopyStage.Writing known errand.now left size bytes) reply }
{
    let disk = errand.journey.dest.disk;
    match reply {
        Reply::Heard {
            answer: Answer::Done | Answer::Already | Answer::Deleted,
        } => Ok(()),
        Reply::Heard {
            answer: Answer::Broken,
        } => Err(Halt::Waits(Why::DestBroken)),
        Reply::Heard { answer: _ } | Reply::Barred => Err(Halt::Waits(Why::Sick { disk })),
        Reply::Unheard => Err(Halt::Waits(Why::Unheard { disk })),
        Reply::Fault => Err(Halt::Fault),
        Reply::Spoiled { place } => Err(Halt::Spoiled { place }),
        _ => unreachable!(),
    }
}

/// Writes a blob's shard at its destination.
pub(crate) fn write<P: Port>(
    port: &mut P,
    errand: &Errand,
    blob_size: u32,
    bytes: Bytes,
) -> Result<(), Halt>
    requires { MayAsk (P.seen port.old) (Event.Send (CopyRequest errand.now.journey.dest.unit errand.now.journey.dest.disk errand.now.bid blob_size bytes)) }
    ensures goes { (mode : ModeView) (task : TaskView) (work : WorkView) (known : Option KnownSize) (left : List ErrandView)
        → GoesOn (task_call mode task) (P.seen port.old) (P.seen port.new) (Next.Go (TaskStage.Copying work (CopyStage.Writing known errand.now left blob_size bytes))) result
        (λ _. copying work (next_errand work known left)) }
    ensures origin { (P.seen port.new).origin ≡ (P.seen port.old).origin }
{
    let unit = errand.journey.dest.unit;
    let disk = errand.journey.dest.disk;
    let bid = errand.bid;
    let request = Request::Copy {
        unit,
        disk,
        bid,
        blob_size,
        bytes,
    };
    let reply = step(port, Event::Send { request })?;
    written(reply, errand)
}
