//! Destinations are made, and old units fenced.

ghost use Rattle.std.specs.Prelude.{ℕ, List, [], ◌≡◌, cond};
ghost use Rattle.unit_id.specs.declared.task.Task.{Task as TaskView};
ghost use Rattle.code_mode.specs.declared.mode.Mode.{Mode as ModeView};
ghost use Rattle.volume_world.specs.Asking.{IsUnitOn};
ghost use Rattle.volume_world.specs.Replying.{RepliesSend};
ghost use Rattle.volume_world.specs.Call.{Next};
ghost use Rattle.migrate_task.specs.declared.work.Journey.{Journey as JourneyView};
ghost use Rattle.migrate_task.specs.Work.{Work as WorkView, with_broken, with_old_units};
ghost use Rattle.migrate_task.specs.AdvanceCall.{TaskStage, task_call, creating, fencing, after_create, after_fence};
ghost use Rattle.migrate_task.specs.TaskParts.{GoesOn, told, AreJourneys, IsWorkOn, work_of};

use crate::Why;
use crate::halt::{Halt, step};
use crate::work::{Journey, Work, count_broken, with_old_units};
use std::alloc::Global;
use unit_id::{Answer, Request};
use volume_world::{Event, Port, Reply};

/// What the answer to a create makes of a call.
fn created(reply: Reply, disk: u32) -> Result<(), Halt>
    requires { RepliesSend reply }
    ensures { (work : WorkView) (left : List JourneyView) → told result (λ _. creating work left) ≡ after_create work disk left reply }
{
    match reply {
        Reply::Heard {
            answer: Answer::Done | Answer::Already,
        } => Ok(()),
        Reply::Heard {
            answer: Answer::Broken,
        } => Err(Halt::Waits(Why::DestBroken)),
        Reply::Heard { answer: _ } | Reply::Barred => Err(Halt::Waits(Why::Sick { disk })),
        Reply::Unheard => Err(Halt::Waits(Why::Unheard { disk })),
        Reply::Fault => Err(Halt::Fault),
        Reply::Spoiled { place } => Err(Halt::Spoiled { place }),
        _ => unreachable!(),
    }
}

/// Makes one destination.
fn create<P: Port>(port: &mut P, journey: &Journey) -> Result<(), Halt>
    requires { IsUnitOn (P.seen port.old).origin journey.now.dest.unit journey.now.dest.disk }
    ensures goes { (mode : ModeView) (task : TaskView) (work : WorkView) (left : List JourneyView)
        → GoesOn (task_call mode task) (P.seen port.old) (P.seen port.new) (Next.Go (TaskStage.Creating work journey.now left)) result (λ _. creating work left) }
    ensures origin { (P.seen port.new).origin ≡ (P.seen port.old).origin }
{
    let unit = journey.dest.unit;
    let disk = journey.dest.disk;
    let request = Request::Create { unit, disk };
    let reply = step(port, Event::Send { request })?;
    created(reply, disk)
}

/// Makes each destination, in order of index.
pub(crate) fn create_all<P: Port>(port: &mut P, journeys: &[Journey]) -> Result<(), Halt>
    requires { AreJourneys (P.seen port.old).origin journeys.now }
    ensures goes { (mode : ModeView) (task : TaskView) (work : WorkView)
        → GoesOn (task_call mode task) (P.seen port.old) (P.seen port.new) (creating work journeys.now) result (λ _. creating work []) }
    ensures origin { (P.seen port.new).origin ≡ (P.seen port.old).origin }
{
    'journeys: for journey in journeys {
        create(port, journey)?;
    }
    Ok(())
}

/// What the answer to a fence makes of a call: `true` where the disk is broken.
fn fenced(reply: Reply, disk: u32) -> Result<bool, Halt>
    requires { RepliesSend reply }
    ensures { (work : WorkView) (left : List JourneyView) → told result (λ broken. fencing (cond broken (with_broken disk work) work) left) ≡ after_fence work disk left reply }
{
    match reply {
        Reply::Heard {
            answer: Answer::Done,
        } => Ok(false),
        Reply::Heard {
            answer: Answer::Broken,
        } => Ok(true),
        Reply::Heard { answer: _ } | Reply::Barred => Err(Halt::Waits(Why::Sick { disk })),
        Reply::Unheard => Err(Halt::Waits(Why::Unheard { disk })),
        Reply::Fault => Err(Halt::Fault),
        Reply::Spoiled { place } => Err(Halt::Spoiled { place }),
        _ => unreachable!(),
    }
}

/// Asks one old unit to take no writes any more: `true` where its disk is broken.
fn ask_fence<P: Port>(port: &mut P, lock: u64, journey: &Journey) -> Result<bool, Halt>
    requires { IsUnitOn (P.seen port.old).origin journey.now.old.unit journey.now.old.disk }
    ensures goes { (mode : ModeView) (task : TaskView) (work : WorkView) (left : List JourneyView) → work.lock ≡ lock
        → GoesOn (task_call mode task) (P.seen port.old) (P.seen port.new) (Next.Go (TaskStage.Fencing work journey.now left)) result
        (λ broken. fencing (cond broken (with_broken journey.now.old.disk work) work) left) }
    ensures origin { (P.seen port.new).origin ≡ (P.seen port.old).origin }
{
    let unit = journey.old.unit;
    let disk = journey.old.disk;
    let request = Request::Fence { unit, disk, lock };
    let reply = step(port, Event::Send { request })?;
    fenced(reply, disk)
}

/// Fences one old unit, whose disk counts as broken from then on where it answers so.
fn fence<P: Port>(port: &mut P, work: &mut Work, journey: &Journey) -> Result<(), Halt>
    requires unit { IsUnitOn (P.seen port.old).origin journey.now.old.unit journey.now.old.disk }
    requires work { IsWorkOn (P.seen port.old).origin (work_of work.old) }
    ensures goes { (mode : ModeView) (task : TaskView) (left : List JourneyView)
        → GoesOn (task_call mode task) (P.seen port.old) (P.seen port.new) (Next.Go (TaskStage.Fencing (work_of work.old) journey.now left)) result
        (λ _. fencing (work_of work.new) left) }
    ensures origin { (P.seen port.new).origin ≡ (P.seen port.old).origin }
    ensures work { IsWorkOn (P.seen port.old).origin (work_of work.new) }
{
    let is_broken = ask_fence(port, work.lock, journey)?;
    count_broken(work, journey.old.disk, is_broken);
    Ok(())
}

/// Fences these old units, in order of index.
fn fence_each<P: Port>(port: &mut P, work: &mut Work, units: &[Journey]) -> Result<(), Halt>
    requires units { AreJourneys (P.seen port.old).origin units.now }
    requires work { IsWorkOn (P.seen port.old).origin (work_of work.old) }
    ensures goes { (mode : ModeView) (task : TaskView)
        → GoesOn (task_call mode task) (P.seen port.old) (P.seen port.new) (fencing (work_of work.old) units.now) result (λ _. fencing (work_of work.new) []) }
    ensures origin { (P.seen port.new).origin ≡ (P.seen port.old).origin }
    ensures work { IsWorkOn (P.seen port.old).origin (work_of work.new) }
{
    'units: for journey in units {
        fence(port, work, journey)?;
    }
    Ok(())
}

/// Fences each old unit whose disk isn't broken, in order of index.
pub(crate) fn fence_all<P: Port>(alloc: Global, port: &mut P, work: &mut Work) -> Result<(), Halt>
    requires { IsWorkOn (P.seen port.old).origin (work_of work.old) }
    ensures goes { (mode : ModeView) (task : TaskView)
        → GoesOn (task_call mode task) (P.seen port.old) (P.seen port.new) (fencing (work_of work.old) (with_old_units work.old.journeys.items)) result
        (λ _. fencing (work_of work.new) []) }
    ensures origin { (P.seen port.new).origin ≡ (P.seen port.old).origin }
    ensures work { IsWorkOn (P.seen port.old).origin (work_of work.new) }
{
    let units = with_old_units(alloc, work.journeys.as_slice())?;
    fence_each(port, work, units.as_slice())
}
