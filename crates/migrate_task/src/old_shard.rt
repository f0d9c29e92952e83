//! The shard of a blob that a destination lacks, as the old unit has it.

ghost use Rattle.std.specs.Prelude.{List, ◌≡◌, IfOk};
ghost use Rattle.unit_id.specs.declared.task.Task.{Task as TaskView};
ghost use Rattle.code_mode.specs.declared.mode.Mode.{Mode as ModeView};
ghost use Rattle.volume_entry.specs.Manager.{IsBid};
ghost use Rattle.volume_world.specs.Asking.{IsUnitOn};
ghost use Rattle.volume_world.specs.Replying.{RepliesSend};
ghost use Rattle.volume_world.specs.Call.{Next};
ghost use Rattle.migrate_task.specs.declared.copying.Errand.{Errand as ErrandView};
ghost use Rattle.migrate_task.specs.Copies.{CopyStage};
ghost use Rattle.migrate_task.specs.AdvanceCall.{TaskStage, task_call, copying, after_copy};
ghost use Rattle.migrate_task.specs.TaskParts.{GoesOn, told, work_of, old_heard};
ghost use Rattle.migrate_task.specs.GatherParts.{IsOldRow, IsOldRight};

use crate::copying::{Errand, read};
use crate::halt::Halt;
use crate::usable::{KnownSize, is_usable};
use crate::work::Work;
use unit_id::{Answer, Bytes};
use volume_world::{Port, Reply};

/// A live row that a copy can use.
#[derive(Drop)]
pub(crate) struct Row {
    pub(crate) size: u32,
    pub(crate) bytes: Bytes,
}

/// What the old unit answered.
#[derive(Drop)]
pub(crate) enum OldShard {
    /// A row that is taken as it is.
    Usable(Row),
    /// Nothing of use.
    Useless,
    /// No answer was heard.
    Unheard,
}

/// What a live row of the old unit is to a copy.
fn live_row(
    work: &Work,
    known: Option<KnownSize>,
    errand: &Errand,
    size: u32,
    bytes: Bytes,
) -> OldShard
    ensures row { IsOldRow work.now.mode known errand.now.bid (Reply.Heard (Answer.Live size bytes)) result }
    ensures makes { (left : List ErrandView)
        → copying (work_of work.now) (old_heard (work_of work.now) known errand.now left result) ≡ after_copy (work_of work.now) (CopyStage.ReadingOld known errand.now left) (Reply.Heard (Answer.Live size bytes)) }
{
    if !is_usable(work.mode, known, errand.bid, size, &bytes) {
        return OldShard::Useless;
    }
    OldShard::Usable(Row { size, bytes })
}

/// What the answer to a read of the old unit makes of a call.
fn old_read(
    reply: Reply,
    work: &Work,
    known: Option<KnownSize>,
    errand: &Errand,
) -> Result<OldShard, Halt>
    requires { RepliesSend reply }
    ensures row { IfOk result (IsOldRow work.now.mode known errand.now.bid reply) }
    ensures makes { (left : List ErrandView)
        → told result (λ old. copying (work_of work.now) (old_heard (work_of work.now) known errand.now left old)) ≡ after_copy (work_of work.now) (CopyStage.ReadingOld known errand.now left) reply }
{
    match reply {
        Reply::Heard {
            answer: Answer::Live { blob_size, bytes },
        } => Ok(live_row(work, known, errand, blob_size, bytes)),
        Reply::Heard { answer: _ } | Reply::Barred => Ok(OldShard::Useless),
        Reply::Unheard => Ok(OldShard::Unheard),
        Reply::Fault => Err(Halt::Fault),
        Reply::Spoiled { place } => Err(Halt::Spoiled { place }),
        _ => unreachable!(),
    }
}

/// Reads the shard of the old unit.
pub(crate) fn read_old<P: Port>(
    port: &mut P,
    work: &Work,
    known: Option<KnownSize>,
    errand: &Errand,
) -> Result<OldShard, Halt>
    requires unit { IsUnitOn (P.seen port.old).origin errand.now.journey.old.unit errand.now.journey.old.disk }
    requires number { IsBid errand.now.bid }
    ensures goes { (mode : ModeView) (task : TaskView) (left : List ErrandView)
        → GoesOn (task_call mode task) (P.seen port.old) (P.seen port.new) (Next.Go (TaskStage.Copying (work_of work.now) (CopyStage.ReadingOld known errand.now left))) result
        (λ old. copying (work_of work.now) (old_heard (work_of work.now) known errand.now left old)) }
    ensures origin { (P.seen port.new).origin ≡ (P.seen port.old).origin }
    ensures right { IfOk result (IsOldRight (P.seen port.new) work.now.mode errand.now.bid errand.now.journey.old.unit.index) }
{
    let home = errand.journey.old;
    let reply = read(port, errand.bid, &home)?;
    old_read(reply, work, known, errand)
}
