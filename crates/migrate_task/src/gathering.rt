//! Shards of other units, from which a lacking one is rebuilt.

ghost use Rattle.std.specs.Prelude.{List, ◌≡◌, IfOk};
ghost use Rattle.unit_id.specs.declared.homes.Home.{Home as HomeView};
ghost use Rattle.unit_id.specs.declared.task.Task.{Task as TaskView};
ghost use Rattle.code_mode.specs.declared.mode.Mode.{Mode as ModeView};
ghost use Rattle.volume_entry.specs.Manager.{IsBid};
ghost use Rattle.volume_world.specs.Asking.{IsUnitOn};
ghost use Rattle.volume_world.specs.Replying.{RepliesSend};
ghost use Rattle.volume_world.specs.Call.{Next};
ghost use Rattle.migrate_task.specs.declared.copying.Errand.{Errand as ErrandView};
ghost use Rattle.migrate_task.specs.Copies.{CopyStage};
ghost use Rattle.migrate_task.specs.AdvanceCall.{TaskStage, task_call, copying, after_copy};
ghost use Rattle.migrate_task.specs.TaskParts.{GoesOn, Makes, CanGather, work_of, other_heard};
ghost use Rattle.migrate_task.specs.GatherParts.{Adds, AddsRight};

use crate::copying::{Errand, read};
use crate::halt::Halt;
use crate::usable::{KnownSize, is_usable};
use crate::work::Work;
use code_mode::hold;
use rs_code::Shards;
use unit_id::{Answer, Bytes, Home};
use volume_world::{Port, Reply};

/// Of a copy: the shards that were heard live of others than the old unit, how many these are, and how many reads had no
/// answer.
#[derive(Drop)]
pub(crate) struct Gathered {
    pub(crate) shards: Shards,
    pub(crate) live: u32,
    pub(crate) unheard: u32,
}

/// What a live row of another unit is to a copy: the size of the blob, where it can be used.
fn hear_live(
    work: &Work,
    known: Option<KnownSize>,
    errand: &Errand,
    home: &Home,
    gathered: &mut Gathered,
    size: u32,
    bytes: Bytes,
) -> Result<Option<u32>, Halt>
    requires { CanGather work.now.mode known errand.now.bid home.now.unit.index gathered.old }
    ensures adds { IfOk result (Adds work.now.mode known errand.now.bid home.now.unit.index gathered.old gathered.new (Reply.Heard (Answer.Live size bytes))) }
    ensures makes { (left : List ErrandView) (homes : List HomeView)
        → Makes result (λ found. copying (work_of work.now) (other_heard (work_of work.now) known errand.now left gathered.new homes found))
        (after_copy (work_of work.now) (CopyStage.ReadingOther known errand.now left gathered.old home.now homes) (Reply.Heard (Answer.Live size bytes))) }
{
    if !is_usable(work.mode, known, errand.bid, size, &bytes) {
        return Ok(None);
    }
    let unit = home.unit;
    hold(&mut gathered.shards, usize::from(unit.index), bytes)?;
    gathered.live += 1;
    Ok(Some(size))
}

/// What the answer to a read of another unit makes of a copy: the size of the blob, where a row can be used.
fn hear(
    reply: Reply,
    work: &Work,
    known: Option<KnownSize>,
    errand: &Errand,
    home: &Home,
    gathered: &mut Gathered,
) -> Result<Option<u32>, Halt>
    requires reply { RepliesSend reply }
    requires gathers { CanGather work.now.mode known errand.now.bid home.now.unit.index gathered.old }
    ensures adds { IfOk result (Adds work.now.mode known errand.now.bid home.now.unit.index gathered.old gathered.new reply) }
    ensures makes { (left : List ErrandView) (homes : List HomeView)
        → Makes result (λ found. copying (work_of work.now) (other_heard (work_of work.now) known errand.now left gathered.new homes found))
        (after_copy (work_of work.now) (CopyStage.ReadingOther known errand.now left gathered.old home.now homes) reply) }
{
    match reply {
        Reply::Heard {
            answer: Answer::Live { blob_size, bytes },
        } => hear_live(work, known, errand, home, gathered, blob_size, bytes),
        Reply::Heard { answer: _ } | Reply::Barred => Ok(None),
        Reply::Unheard => {
            gathered.unheard += 1;
            Ok(None)
        }
        Reply::Fault => Err(Halt::Fault),
        Reply::Spoiled { place } => Err(Halt::Spoiled { place }),
        _ => unreachable!(),
    }
}

/// Reads one other unit: the size of the blob, where its row can be used.
pub(crate) fn read_other<P: Port>(
    port: &mut P,
    work: &Work,
    known: Option<KnownSize>,
    errand: &Errand,
    home: &Home,
    gathered: &mut Gathered,
) -> Result<Option<u32>, Halt>
    requires unit { IsUnitOn (P.seen port.old).origin home.now.unit home.now.disk }
    requires number { IsBid errand.now.bid }
    requires gathers { CanGather work.now.mode known errand.now.bid home.now.unit.index gathered.old }
    ensures goes { (mode : ModeView) (task : TaskView) (left : List ErrandView) (homes : List HomeView)
        → GoesOn (task_call mode task) (P.seen port.old) (P.seen port.new) (Next.Go (TaskStage.Copying (work_of work.now) (CopyStage.ReadingOther known errand.now left gathered.old home.now homes))) result
        (λ found. copying (work_of work.now) (other_heard (work_of work.now) known errand.now left gathered.new homes found)) }
    ensures origin { (P.seen port.new).origin ≡ (P.seen port.old).origin }
    ensures adds { IfOk result (AddsRight (P.seen port.new) work.now.mode known errand.now.bid home.now.unit.index gathered.old gathered.new) }
{
    let reply = read(port, errand.bid, home)?;
    hear(reply, work, known, errand, home, gathered)
}
