//! The swap, the releases of old units, and the unlock.

ghost use Rattle.std.specs.Prelude.{ℕ, List, [], ◌≡◌, ◌<◌, ◌≤◌, ◌++◌, length, cond, Ok};
ghost use Rattle.unit_id.specs.declared.homes.Home.{Home as HomeView};
ghost use Rattle.code_mode.specs.declared.mode.Mode.{Mode as ModeView};
ghost use Rattle.volume_world.specs.Asking.{IsUnitOn};
ghost use Rattle.volume_world.specs.Replying.{RepliesSwap, RepliesSend, RepliesUnlock};
ghost use Rattle.volume_world.specs.Call.{Next};
ghost use Rattle.migrate_task.specs.declared.work.Journey.{Journey as JourneyView};
ghost use Rattle.migrate_task.specs.declared.stage.Stage.TheVariants.{Done as StageDone};
ghost use Rattle.migrate_task.specs.Work.{Work as WorkView, with_broken, with_old_units};
ghost use Rattle.migrate_task.specs.AdvanceCall.{TaskStage, task_call, releasing, after_swap, after_release, after_unlock, first_old, units_in};
ghost use Rattle.migrate_task.specs.TaskParts.{GoesOn, told, AreJourneys, IsWorkOn, work_of};
ghost use Rattle.unit_id.specs.declared.task.Task.{Task as TaskView};

use crate::Why;
use crate::halt::{Halt, step};
use crate::work::{Journey, Work, count_broken};
use unit_id::{Answer, Home, Homes, Request, Task};
use volume_world::{Event, Port, Reply};

/// The disk of the first old unit that isn't on a broken disk; where there is none, that of the first.
fn first_old(journeys: &[Journey]) -> u32
    ensures { result ≡ first_old (with_old_units journeys.now ++ journeys.now) }
{
    'journeys: for journey in journeys {
        if !journey.old.broken {
            return journey.old.disk;
        }
    }
    match journeys.first() {
        Some(journey) => journey.old.disk,
        None => 0,
    }
}

/// What the reply to a swap makes of a call.
fn swapped(reply: Reply, work: &Work) -> Result<(), Halt>
    requires { RepliesSwap reply }
    ensures { told result (λ _. Next.Go (releasing (work_of work.now) (with_old_units work.now.journeys.items))) ≡ after_swap (work_of work.now) reply }
{
    match reply {
        Reply::Done => Ok(()),
        Reply::NotListed { have } => Err(Halt::Waits(Why::Short { listed: have })),
        Reply::DestBroken => Err(Halt::Waits(Why::DestBroken)),
        Reply::NotFenced => {
            let disk = first_old(&work.journeys);
            Err(Halt::Waits(Why::Sick { disk }))
        }
        Reply::NotCopied { bid } => Err(Halt::Waits(Why::ShortShards {
            bid,
            live: 0,
            unheard: 0,
        })),
        Reply::OtherTask { task } => Err(Halt::Waits(Why::Locked { task })),
        Reply::NotLocked | Reply::AlreadySwapped => {
            Err(Halt::Waits(Why::Locked { task: work.task }))
        }
        Reply::Fault => Err(Halt::Fault),
        Reply::Spoiled { place } => Err(Halt::Spoiled { place }),
        _ => unreachable!(),
    }
}

/// Has the destinations become the units of their indexes.
pub(crate) fn swap<P: Port>(port: &mut P, task: &Task, work: &Work) -> Result<(), Halt>
    ensures goes { (mode : ModeView)
        → GoesOn (task_call mode task.now) (P.seen port.old) (P.seen port.new) (Next.Go (TaskStage.Swapping (work_of work.now))) result
        (λ _. Next.Go (releasing (work_of work.now) (with_old_units work.now.journeys.items))) }
    ensures origin { (P.seen port.new).origin ≡ (P.seen port.old).origin }
{
    let reply = step(port, Event::Swap { task: task.id })?;
    swapped(reply, work)
}

/// What the answer to a release makes of a call: `true` where the disk is broken.
fn released(reply: Reply, disk: u32) -> Result<bool, Halt>
    requires { RepliesSend reply }
    ensures { (work : WorkView) (left : List JourneyView)
        → told result (λ broken. Next.Go (releasing (cond broken (with_broken disk work) work) left)) ≡ after_release work disk left reply }
{
    match reply {
        Reply::Heard {
            answer: Answer::Done | Answer::Stale { have: _ },
        } => Ok(false),
        Reply::Heard {
            answer: Answer::Broken,
        } => Ok(true),
        Reply::Heard { answer: _ } | Reply::Barred => Err(Halt::Waits(Why::Sick { disk })),
        Reply::Unheard => Err(Halt::Waits(Why::Unheard { disk })),
        Reply::Fault => Err(Halt::Fault),
        Reply::Spoiled { place } => Err(Halt::Spoiled { place }),
        _ => unreachable!(),
    }
}

/// Asks one old unit to end: `true` where its disk is broken.
fn ask_release<P: Port>(port: &mut P, journey: &Journey) -> Result<bool, Halt>
    requires { IsUnitOn (P.seen port.old).origin journey.now.old.unit journey.now.old.disk }
    ensures goes { (mode : ModeView) (task : TaskView) (work : WorkView) (left : List JourneyView)
        → GoesOn (task_call mode task) (P.seen port.old) (P.seen port.new) (Next.Go (TaskStage.Releasing work journey.now left)) result
        (λ broken. Next.Go (releasing (cond broken (with_broken journey.now.old.disk work) work) left)) }
    ensures origin { (P.seen port.new).origin ≡ (P.seen port.old).origin }
{
    let unit = journey.old.unit;
    let disk = journey.old.disk;
    let request = Request::Release { unit, disk };
    let reply = step(port, Event::Send { request })?;
    released(reply, disk)
}

/// Releases one old unit, whose disk counts as broken from then on where it answers so.
fn release<P: Port>(port: &mut P, work: &mut Work, journey: &Journey) -> Result<(), Halt>
    requires unit { IsUnitOn (P.seen port.old).origin journey.now.old.unit journey.now.old.disk }
    requires work { IsWorkOn (P.seen port.old).origin (work_of work.old) }
    ensures goes { (mode : ModeView) (task : TaskView) (left : List JourneyView)
        → GoesOn (task_call mode task) (P.seen port.old) (P.seen port.new) (Next.Go (TaskStage.Releasing (work_of work.old) journey.now left)) result
        (λ _. Next.Go (releasing (work_of work.new) left)) }
    ensures origin { (P.seen port.new).origin ≡ (P.seen port.old).origin }
    ensures work { IsWorkOn (P.seen port.old).origin (work_of work.new) }
{
    let is_broken = ask_release(port, journey)?;
    count_broken(work, journey.old.disk, is_broken);
    Ok(())
}

/// Releases these old units, in order of index.
pub(crate) fn release_all<P: Port>(
    port: &mut P,
    work: &mut Work,
    units: &[Journey],
) -> Result<(), Halt>
    requires units { AreJourneys (P.seen port.old).origin units.now }
    requires work { IsWorkOn (P.seen port.old).origin (work_of work.old) }
    ensures goes { (mode : ModeView) (task : TaskView)
        → GoesOn (task_call mode task) (P.seen port.old) (P.seen port.new) (Next.Go (releasing (work_of work.old) units.now)) result
        (λ _. Next.Go (TaskStage.Unlocking (work_of work.new))) }
    ensures origin { (P.seen port.new).origin ≡ (P.seen port.old).origin }
    ensures work { IsWorkOn (P.seen port.old).origin (work_of work.new) }
{
    'units: for journey in units {
        release(port, work, journey)?;
    }
    Ok(())
}

/// The units that the swap put in.
fn units_in(journeys: &[Journey]) -> Homes
    requires { length journeys.now ≤ 9 }
    ensures { result ≡ units_in journeys.now }
{
    let mut units = Homes::empty();
    'journeys: for journey in journeys {
        units.push(Home {
            unit: journey.dest.unit,
            disk: journey.dest.disk,
            broken: false,
        });
    }
    units
}

/// What the reply to an unlock makes of a call.
fn unlocked(reply: Reply, work: &Work) -> Result<Homes, Halt>
    requires reply { RepliesUnlock reply }
    requires few { length work.now.journeys.items ≤ 9 }
    ensures { told result (λ units. Next.Over (Ok (StageDone units))) ≡ after_unlock (work_of work.now) reply }
{
    match reply {
        Reply::Done => Ok(units_in(&work.journeys)),
        Reply::NotReleased => {
            let disk = first_old(&work.journeys);
            Err(Halt::Waits(Why::Sick { disk }))
        }
        Reply::OtherTask { task } => Err(Halt::Waits(Why::Locked { task })),
        Reply::NotLocked | Reply::NotSwapped => {
            Err(Halt::Waits(Why::Locked { task: work.task }))
        }
        Reply::Fault => Err(Halt::Fault),
        Reply::Spoiled { place } => Err(Halt::Spoiled { place }),
        _ => unreachable!(),
    }
}

/// Gives the volume free.
pub(crate) fn unlock<P: Port>(port: &mut P, task: &Task, work: &Work) -> Result<Homes, Halt>
    requires { length work.now.journeys.items ≤ 9 }
    ensures goes { (mode : ModeView)
        → GoesOn (task_call mode task.now) (P.seen port.old) (P.seen port.new) (Next.Go (TaskStage.Unlocking (work_of work.now))) result
        (λ units. Next.Over (Ok (StageDone units))) }
    ensures origin { (P.seen port.new).origin ≡ (P.seen port.old).origin }
{
    let reply = step(port, Event::Unlock { task: task.id })?;
    unlocked(reply, work)
}

/// Releases these old units and gives the volume free.
pub(crate) fn finish<P: Port>(
    port: &mut P,
    task: &Task,
    work: &mut Work,
    units: &[Journey],
) -> Result<Homes, Halt>
    requires units { AreJourneys (P.seen port.old).origin units.now }
    requires work { IsWorkOn (P.seen port.old).origin (work_of work.old) }
    ensures goes { (mode : ModeView)
        → GoesOn (task_call mode task.now) (P.seen port.old) (P.seen port.new) (Next.Go (releasing (work_of work.old) units.now)) result
        (λ given. Next.Over (Ok (StageDone given))) }
    ensures origin { (P.seen port.new).origin ≡ (P.seen port.old).origin }
{
    release_all(port, work, units)?;
    unlock(port, task, work)
}
