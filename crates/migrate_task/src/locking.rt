//! The look at the volume, its lock, and disks for destinations that broke.

ghost use Rattle.std.specs.Prelude.{ℕ, ◌≡◌, false, List, IfOk};
ghost use Rattle.code_mode.specs.declared.mode.Mode.{Mode as ModeView};
ghost use Rattle.volume_world.specs.Way.{Origin};
ghost use Rattle.volume_world.specs.Replying.{RepliesLook, RepliesLock, ShowsMoves, AreHomes};
ghost use Rattle.volume_world.specs.Call.{Next};
ghost use Rattle.unit_id.specs.declared.homes.Home.{Home as HomeView};
ghost use Rattle.unit_id.specs.declared.task.Task.{Task as TaskView};
ghost use Rattle.volume_world.specs.Replying.{AreMoves};
ghost use Rattle.migrate_task.specs.AdvanceCall.{TaskStage, task_call, after_look, after_lock, creating};
ghost use Rattle.migrate_task.specs.TaskParts.{GoesOn, told, sighted, granted, IsSightOf, IsTaskOf, IsWorkOn, lacks_disk, work_of};

use crate::Why;
use crate::halt::{Halt, step};
use crate::work::{Work, work_to};
use std::alloc::{AllocError, Global};
use unit_id::{Homes, Moves, Targets, Task};
use volume_entry::{LockView, View};
use volume_world::{Event, Port, Reply};

/// What a look shows where no other task has the lock.
#[derive(Drop)]
pub(crate) enum Sight {
    /// There is no lock.
    Free { homes: Homes },
    /// The task has the lock.
    Own { homes: Homes, lock: LockView },
}

/// Whether a target has no disk.
fn lacks_disk(targets: &Targets) -> bool
    ensures { result ≡ lacks_disk targets.now }
{
    targets.as_slice().iter().any(|target| target.disk == 0)
}

/// What a look shows a task.
fn viewed(view: View, task: &Task) -> Result<Sight, Halt>
    ensures makes { (mode : ModeView) → told result (sighted mode task.now) ≡ after_look mode task.now (Reply.Seen view) }
    ensures shown { (origin : Origin) → RepliesLook origin (Reply.Seen view) → ShowsMoves origin (Reply.Seen view) → IfOk result (IsSightOf origin task.now.targets) }
{
    let View { held, units, .. } = view;
    match held {
        Some(lock) => {
            if lock.task == task.id {
                return Ok(Sight::Own { homes: units, lock });
            }
            Err(Halt::Waits(Why::Locked { task: lock.task }))
        }
        None => {
            if lacks_disk(&task.targets) {
                return Err(Halt::Waits(Why::NoDisk));
            }
            Ok(Sight::Free { homes: units })
        }
    }
}

fn seen(reply: Reply, task: &Task) -> Result<Sight, Halt>
    requires { (origin : Origin) × RepliesLook origin reply }
    ensures makes { (mode : ModeView) → told result (sighted mode task.now) ≡ after_look mode task.now reply }
    ensures shown { (origin : Origin) → RepliesLook origin reply → ShowsMoves origin reply → IfOk result (IsSightOf origin task.now.targets) }
{
    match reply {
        Reply::Seen { view } => viewed(view, task),
        Reply::Fault => Err(Halt::Fault),
        Reply::Spoiled { place } => Err(Halt::Spoiled { place }),
        _ => unreachable!(),
    }
}

/// Looks at the volume.
pub(crate) fn look<P: Port>(port: &mut P, task: &Task) -> Result<Sight, Halt>
    ensures goes { (mode : ModeView)
        → GoesOn (task_call mode task.now) (P.seen port.old) (P.seen port.new) (Next.Go TaskStage.Looking) result (sighted mode task.now) }
    ensures origin { (P.seen port.new).origin ≡ (P.seen port.old).origin }
    ensures shown { IfOk result (IsSightOf (P.seen port.old).origin task.now.targets) }
{
    let reply = step(port, Event::Look)?;
    seen(reply, task)
}

/// A lock that was granted: its number, and what it moves.
#[derive(Drop)]
struct Grant {
    lock: u64,
    moves: Moves,
}

/// What the manager makes of a lock that is asked for.
fn locked(reply: Reply) -> Result<Grant, Halt>
    requires { RepliesLock reply }
    ensures makes { (mode : ModeView) (task : TaskView) (homes : List HomeView) → told result (λ grant. granted mode task homes grant.lock grant.moves) ≡ after_lock mode task homes reply }
    ensures shown { (origin : Origin) → ShowsMoves origin reply → IfOk result (λ grant. AreMoves origin grant.moves) }
{
    match reply {
        Reply::Granted { lock, moves } => Ok(Grant { lock, moves }),
        Reply::Locked { task } => Err(Halt::Waits(Why::Locked { task })),
        Reply::LeaseRuns { end } => Err(Halt::Waits(Why::Leased { end })),
        Reply::DestBroken => Err(Halt::Waits(Why::DestBroken)),
        Reply::DestHeld { index } => Err(Halt::Waits(Why::DestHeld { index })),
        Reply::EpochSpent => Err(Halt::EpochSpent),
        Reply::Fault => Err(Halt::Fault),
        Reply::Spoiled { place } => Err(Halt::Spoiled { place }),
        _ => unreachable!(),
    }
}

/// A copy of a task's targets.
fn copy_targets(alloc: Global, task: &Task) -> Result<Targets, AllocError>
    ensures { IfOk result (λ targets. targets ≡ task.now.targets) }
{
    Ok(Targets::from_vec(Vec::from_slice(alloc, task.targets.as_slice())?))
}

/// Asks for the lock.
fn ask_lock<P: Port>(alloc: Global, port: &mut P, task: &Task) -> Result<Grant, Halt>
    requires task { IsTaskOf (P.seen port.old).origin task.now }
    requires disks { lacks_disk task.now.targets ≡ false }
    ensures goes { (mode : ModeView) (homes : List HomeView)
        → GoesOn (task_call mode task.now) (P.seen port.old) (P.seen port.new) (Next.Go (TaskStage.Locking homes)) result (λ grant. granted mode task.now homes grant.lock grant.moves) }
    ensures origin { (P.seen port.new).origin ≡ (P.seen port.old).origin }
    ensures shown { IfOk result (λ grant. AreMoves (P.seen port.old).origin grant.moves) }
{
    let targets = copy_targets(alloc, task)?;
    let reply = step(
        port,
        Event::Lock {
            task: task.id,
            targets,
        },
    )?;
    locked(reply)
}

/// Locks the volume, to move units to the targets.
pub(crate) fn lock<P: Port>(
    alloc: Global,
    port: &mut P,
    task: &Task,
    homes: &Homes,
) -> Result<Work, Halt>
    requires task { IsTaskOf (P.seen port.old).origin task.now }
    requires disks { lacks_disk task.now.targets ≡ false }
    requires homes { AreHomes (P.seen port.old).origin homes.now }
    ensures goes { GoesOn (task_call (P.seen port.old).origin.mode task.now) (P.seen port.old) (P.seen port.new) (Next.Go (TaskStage.Locking homes.now)) result
        (λ work. creating (work_of work) work.journeys.items) }
    ensures origin { (P.seen port.new).origin ≡ (P.seen port.old).origin }
    ensures work { IfOk result (λ work. IsWorkOn (P.seen port.old).origin (work_of work)) }
{
    let grant = ask_lock(alloc, port, task)?;
    let mode = port.mode();
    let work = work_to(alloc, mode, task.id, grant.lock, homes, &grant.moves)?;
    Ok(work)
}
