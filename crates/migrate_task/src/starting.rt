//! How a call begins: by the lock that the task has, or by a new one.

ghost use Rattle.std.specs.Prelude.{◌≡◌, false, IfOk};
ghost use Rattle.volume_world.specs.Call.{Next};
ghost use Rattle.volume_world.specs.Replying.{AreHomes, AreMoves};
ghost use Rattle.migrate_task.specs.AdvanceCall.{TaskStage, task_call, creating};
ghost use Rattle.migrate_task.specs.TaskParts.{GoesOn, IsTaskOf, IsWorkOn, IsSightOf, lacks_disk, own_lock, sighted, starting, start_work, work_of};

use crate::halt::Halt;
use crate::locking::{Sight, lock, look};
use crate::retargeting::{broken_moves, retarget_all};
use crate::work::{Work, work_from, work_to};
use std::alloc::Global;
use unit_id::{Homes, Task};
use volume_entry::LockView;
use volume_world::Port;

/// What a task knows once it has the lock.
#[derive(Drop)]
pub(crate) enum Start {
    /// The units aren't swapped yet.
    Locked(Work),
    /// They are.
    Swapped(Work),
}

/// Goes on under a lock that isn't swapped: each destination that broke gets another disk.
fn go_on<P: Port>(
    alloc: Global,
    port: &mut P,
    task: &Task,
    homes: &Homes,
    held: &LockView,
) -> Result<Work, Halt>
    requires task { IsTaskOf (P.seen port.old).origin task.now }
    requires homes { AreHomes (P.seen port.old).origin homes.now }
    requires moves { AreMoves (P.seen port.old).origin held.now.moves }
    requires open { held.now.swapped ≡ false }
    ensures goes { GoesOn (task_call (P.seen port.old).origin.mode task.now) (P.seen port.old) (P.seen port.new) (own_lock (P.seen port.old).origin.mode task.now homes.now held.now) result
        (λ work. creating (work_of work) work.journeys.items) }
    ensures origin { (P.seen port.new).origin ≡ (P.seen port.old).origin }
    ensures work { IfOk result (λ work. IsWorkOn (P.seen port.old).origin (work_of work)) }
{
    let mode = port.mode();
    let mut work = work_to(alloc, mode, task.id, held.lock, homes, &held.moves)?;
    let broken = broken_moves(alloc, held.moves.as_slice())?;
    retarget_all(alloc, port, task, &mut work, broken.as_slice())?;
    Ok(work)
}

/// Goes on under the lock that the task has.
fn resume<P: Port>(
    alloc: Global,
    port: &mut P,
    task: &Task,
    homes: &Homes,
    held: &LockView,
) -> Result<Start, Halt>
    requires task { IsTaskOf (P.seen port.old).origin task.now }
    requires homes { AreHomes (P.seen port.old).origin homes.now }
    requires moves { AreMoves (P.seen port.old).origin held.now.moves }
    ensures goes { GoesOn (task_call (P.seen port.old).origin.mode task.now) (P.seen port.old) (P.seen port.new) (own_lock (P.seen port.old).origin.mode task.now homes.now held.now) result starting }
    ensures origin { (P.seen port.new).origin ≡ (P.seen port.old).origin }
    ensures work { IfOk result (λ start. IsWorkOn (P.seen port.old).origin (start_work start)) }
{
    if held.swapped {
        let mode = port.mode();
        let work = work_from(alloc, mode, task.id, held.lock, homes, &held.moves)?;
        return Ok(Start::Swapped(work));
    }
    let work = go_on(alloc, port, task, homes, held)?;
    Ok(Start::Locked(work))
}

/// Locks the volume.
fn begin<P: Port>(alloc: Global, port: &mut P, task: &Task, homes: &Homes) -> Result<Start, Halt>
    requires task { IsTaskOf (P.seen port.old).origin task.now }
    requires disks { lacks_disk task.now.targets ≡ false }
    requires homes { AreHomes (P.seen port.old).origin homes.now }
    ensures goes { GoesOn (task_call (P.seen port.old).origin.mode task.now) (P.seen port.old) (P.seen port.new) (Next.Go (TaskStage.Locking homes.now)) result starting }
    ensures origin { (P.seen port.new).origin ≡ (P.seen port.old).origin }
    ensures work { IfOk result (λ start. IsWorkOn (P.seen port.old).origin (start_work start)) }
{
    let work = lock(alloc, port, task, homes)?;
    Ok(Start::Locked(work))
}

/// What the look makes of a call.
fn follow<P: Port>(alloc: Global, port: &mut P, task: &Task, sight: &Sight) -> Result<Start, Halt>
    requires task { IsTaskOf (P.seen port.old).origin task.now }
    requires shown { IsSightOf (P.seen port.old).origin task.now.targets sight.now }
    ensures goes { GoesOn (task_call (P.seen port.old).origin.mode task.now) (P.seen port.old) (P.seen port.new) (sighted (P.seen port.old).origin.mode task.now sight.now) result starting }
    ensures origin { (P.seen port.new).origin ≡ (P.seen port.old).origin }
    ensures work { IfOk result (λ start. IsWorkOn (P.seen port.old).origin (start_work start)) }
{
    match sight {
        Sight::Free { homes } => begin(alloc, port, task, homes),
        Sight::Own { homes, lock } => resume(alloc, port, task, homes, lock),
    }
}

/// Looks at the volume, and has the lock in the end.
pub(crate) fn take_lock<P: Port>(alloc: Global, port: &mut P, task: &Task) -> Result<Start, Halt>
    requires { IsTaskOf (P.seen port.old).origin task.now }
    ensures goes { GoesOn (task_call (P.seen port.old).origin.mode task.now) (P.seen port.old) (P.seen port.new) (Next.Go TaskStage.Looking) result starting }
    ensures origin { (P.seen port.new).origin ≡ (P.seen port.old).origin }
    ensures work { IfOk result (λ start. IsWorkOn (P.seen port.old).origin (start_work start)) }
{
    let sight = look(port, task)?;
    follow(alloc, port, task, &sight)
}
