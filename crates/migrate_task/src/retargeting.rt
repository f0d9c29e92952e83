//! Other disks for destinations that broke.

ghost use Rattle.std.specs.Prelude.{ℕ, List, [], ◌∷◌, ◌≡◌, ◌<◌, IfOk, filter};
ghost use Rattle.unit_id.specs.declared.moves.Move.{Move as MoveView};
ghost use Rattle.code_mode.specs.declared.mode.Mode.{Mode as ModeView};
ghost use Rattle.volume_world.specs.Way.{Origin, shape_of};
ghost use Rattle.volume_world.specs.Replying.{RepliesRetarget, ShowsMoves, AreMoves, AreMovesEach};
ghost use Rattle.volume_world.specs.Call.{Next};
ghost use Rattle.migrate_task.specs.Work.{Work as WorkView, journeys_to};
ghost use Rattle.migrate_task.specs.AdvanceCall.{TaskStage, task_call, target_disk, retargeting, after_retarget};
ghost use Rattle.migrate_task.specs.TaskParts.{GoesOn, told, IsTaskOf, IsWorkOn, work_of, granted_again};

use crate::Why;
use crate::halt::{Halt, step};
use crate::work::{Work, move_again};
use std::alloc::{AllocError, Global};
use unit_id::{Move, Moves, Target, Task};
use volume_world::{Event, Port, Reply};

/// The disk of the target of this index; 0 where there is none.
fn target_disk(targets: &[Target], index: u8) -> u32
    ensures { result ≡ target_disk targets.now index }
{
    'targets: for target in targets {
        if target.index == index {
            return target.disk;
        }
    }
    0
}

/// The moves whose destinations are on broken disks.
pub(crate) fn broken_moves(alloc: Global, moves: &[Move]) -> Result<Vec<Move>, AllocError>
    ensures { IfOk result (λ broken. broken.items ≡ filter (λ (move : MoveView). move.dest_broken) moves.now) }
{
    moves
        .iter()
        .copied()
        .filter(|item| item.dest_broken)
        .collect(alloc)
}

/// What the manager makes of another disk that is asked for.
fn retargeted(reply: Reply, task: &Task) -> Result<Moves, Halt>
    requires { RepliesRetarget reply }
    ensures makes { (work : WorkView) (left : List MoveView) → told result (granted_again task.now work left) ≡ after_retarget task.now work left reply }
    ensures shown { (origin : Origin) → ShowsMoves origin reply → IfOk result (AreMoves origin) }
{
    match reply {
        Reply::Granted { lock: _, moves } => Ok(moves),
        Reply::DestBroken => Err(Halt::Waits(Why::DestBroken)),
        Reply::DestHeld { index } => Err(Halt::Waits(Why::DestHeld { index })),
        Reply::EpochSpent => Err(Halt::EpochSpent),
        Reply::OtherTask { task } => Err(Halt::Waits(Why::Locked { task })),
        Reply::NotLocked | Reply::AlreadySwapped | Reply::NotMoved | Reply::DestGood => {
            Err(Halt::Waits(Why::Locked { task: task.id }))
        }
        Reply::Fault => Err(Halt::Fault),
        Reply::Spoiled { place } => Err(Halt::Spoiled { place }),
        _ => unreachable!(),
    }
}

/// The disk to which a move whose destination broke is to go.
#[tactic(auto, unfolding(crate::specs::AdvanceCall::retargeting))]
fn other_disk(task: &Task, item: &Move) -> Result<u32, Halt>
    ensures makes { (work : WorkView) (left : List MoveView)
        → told result (λ _. Next.Go (TaskStage.Retargeting work item.now left)) ≡ retargeting task.now.targets work (item.now ∷ left) }
    ensures is { IfOk result (λ disk. (disk ≡ target_disk task.now.targets item.now.index) × (disk ≡ 0 → ⊥)) }
{
    let disk = target_disk(task.targets.as_slice(), item.index);
    if disk == 0 {
        return Err(Halt::Waits(Why::NoDisk));
    }
    if disk == item.disk {
        return Err(Halt::Waits(Why::DestBroken));
    }
    Ok(disk)
}

/// Asks for another disk for one destination.
fn ask_retarget<P: Port>(port: &mut P, task: &Task, item: &Move) -> Result<Moves, Halt>
    requires task { IsTaskOf (P.seen port.old).origin task.now }
    requires index { item.now.index < (shape_of (P.seen port.old).origin).total }
    ensures goes { (mode : ModeView) (work : WorkView) (left : List MoveView)
        → GoesOn (task_call mode task.now) (P.seen port.old) (P.seen port.new) (retargeting task.now.targets work (item.now ∷ left)) result (granted_again task.now work left) }
    ensures origin { (P.seen port.new).origin ≡ (P.seen port.old).origin }
    ensures shown { IfOk result (AreMoves (P.seen port.old).origin) }
{
    let disk = other_disk(task, item)?;
    let index = item.index;
    let reply = step(
        port,
        Event::Retarget {
            task: task.id,
            index,
            disk,
        },
    )?;
    retargeted(reply, task)
}

/// Moves one destination to another disk.
fn retarget<P: Port>(
    alloc: Global,
    port: &mut P,
    task: &Task,
    work: &mut Work,
    item: &Move,
) -> Result<(), Halt>
    requires task { IsTaskOf (P.seen port.old).origin task.now }
    requires work { IsWorkOn (P.seen port.old).origin (work_of work.old) }
    requires index { item.now.index < (shape_of (P.seen port.old).origin).total }
    ensures goes { (mode : ModeView) (left : List MoveView)
        → GoesOn (task_call mode task.now) (P.seen port.old) (P.seen port.new) (retargeting task.now.targets (work_of work.old) (item.now ∷ left)) result
        (λ _. retargeting task.now.targets (work_of work.new) left) }
    ensures origin { (P.seen port.new).origin ≡ (P.seen port.old).origin }
    ensures work { IsWorkOn (P.seen port.old).origin (work_of work.new) }
{
    let moves = ask_retarget(port, task, item)?;
    move_again(alloc, work, &moves)?;
    Ok(())
}

/// Moves each of these destinations to another disk, in order of index.
pub(crate) fn retarget_all<P: Port>(
    alloc: Global,
    port: &mut P,
    task: &Task,
    work: &mut Work,
    moves: &[Move],
) -> Result<(), Halt>
    requires task { IsTaskOf (P.seen port.old).origin task.now }
    requires work { IsWorkOn (P.seen port.old).origin (work_of work.old) }
    requires moves { AreMovesEach (P.seen port.old).origin moves.now }
    ensures goes { (mode : ModeView)
        → GoesOn (task_call mode task.now) (P.seen port.old) (P.seen port.new) (retargeting task.now.targets (work_of work.old) moves.now) result
        (λ _. retargeting task.now.targets (work_of work.new) []) }
    ensures origin { (P.seen port.new).origin ≡ (P.seen port.old).origin }
    ensures work { IsWorkOn (P.seen port.old).origin (work_of work.new) }
{
    'moves: for item in moves {
        retarget(alloc, port, task, work, item)?;
    }
    Ok(())
}
