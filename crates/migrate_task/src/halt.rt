//! What ends a call of a task before it is done, and its steps.

ghost use Rattle.std.specs.Prelude.{◌≡◌, IfOk};
ghost use Rattle.code_mode.specs.declared.mode.Mode.{Mode as ModeView};
ghost use Rattle.unit_id.specs.declared.task.Task.{Task as TaskView};
ghost use Rattle.volume_world.specs.Asking.{MayAsk};
ghost use Rattle.volume_world.specs.Replying.{MayReply, ShowsMoves};
ghost use Rattle.volume_world.specs.Course.{Happens};
ghost use Rattle.volume_world.specs.Call.{Next};
ghost use Rattle.volume_world.specs.declared.fault.StepFault.TheVariants.{Memory};
ghost use Rattle.migrate_task.specs.declared.halt.Halt.TheVariants.{BrokenOff};
ghost use Rattle.migrate_task.specs.declared.stage.TaskFault.TheVariants.{HistoryFull, Memory as NoMemoryLeft};
ghost use Rattle.migrate_task.specs.AdvanceCall.{TaskStage, task_asks, task_after, task_call};
ghost use Rattle.migrate_task.specs.TaskParts.{GoesOn, stop};

use crate::{Stage, TaskFault, Why};
use disk_base::NoMemory;
use std::alloc::AllocError;
use volume_world::{Event, Port, Reply, StepFault};

/// What ends a call of a task before it is done.
#[derive(Drop)]
pub(crate) enum Halt {
    /// A later call may go on.
    Waits(Why),
    /// An index has no epochs left.
    EpochSpent,
    /// A file failed.
    Fault,
    /// The manager's log has no legal record at this place.
    Spoiled { place: u64 },
    /// A step wasn't done.
    BrokenOff(StepFault),
}

impl From<AllocError> for Halt {
    ghost from_gives = { λ _ halt. halt ≡ BrokenOff Memory };

    fn from(_error: AllocError) -> Halt {
        Halt::BrokenOff(StepFault::Memory)
    }
}

impl From<NoMemory> for Halt {
    ghost from_gives = { λ _ halt. halt ≡ BrokenOff Memory };

    fn from(_error: NoMemory) -> Halt {
        Halt::BrokenOff(StepFault::Memory)
    }
}

/// What a call answers that ends so.
pub(crate) fn answer_of(halt: Halt) -> Result<Stage, TaskFault>
    ensures { result ≡ stop halt }
{
    match halt {
        Halt::Waits(why) => Ok(Stage::Waits(why)),
        Halt::EpochSpent => Err(TaskFault::EpochSpent),
        Halt::Fault => Err(TaskFault::Fault),
        Halt::Spoiled { place } => Err(TaskFault::Spoiled { place }),
        Halt::BrokenOff(StepFault::HistoryFull) => Err(TaskFault::HistoryFull),
        Halt::BrokenOff(StepFault::Memory) => Err(TaskFault::Memory),
    }
}

/// One step of a task.
pub(crate) fn step<P: Port>(port: &mut P, event: Event) -> Result<Reply, Halt>
    requires { MayAsk (P.seen port.old) event }
    ensures steps { (mode : ModeView) (task : TaskView) (stage : TaskStage) → event ≡ task_asks task stage
        → GoesOn (task_call mode task) (P.seen port.old) (P.seen port.new) (Next.Go stage) result (task_after mode task stage) }
    ensures origin { (P.seen port.new).origin ≡ (P.seen port.old).origin }
    ensures fits { IfOk result (MayReply (P.seen port.old).origin event) }
    ensures moves { IfOk result (ShowsMoves (P.seen port.old).origin) }
    ensures happens { IfOk result (Happens (P.seen port.old) (P.seen port.new) event) }
{
    match port.step(event) {
        Ok(reply) => Ok(reply),
        Err(fault) => Err(Halt::BrokenOff(fault)),
    }
}
