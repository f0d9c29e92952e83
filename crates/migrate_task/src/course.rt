//! The course of a task: from its lock to the listings, and from the swap to its end.

ghost use Rattle.std.specs.Prelude.{[], ◌≡◌, None, Ok};
ghost use Rattle.unit_id.specs.declared.task.Task.{Task as TaskView};
ghost use Rattle.code_mode.specs.declared.mode.Mode.{Mode as ModeView};
ghost use Rattle.volume_world.specs.Call.{Next};
ghost use Rattle.migrate_task.specs.declared.stage.Stage.TheVariants.{Done as StageDone};
ghost use Rattle.migrate_task.specs.Work.{errands};
ghost use Rattle.migrate_task.specs.Copies.{next_errand};
ghost use Rattle.migrate_task.specs.AdvanceCall.{TaskStage, task_call, creating, listing_dests, copying};
ghost use Rattle.migrate_task.specs.TaskParts.{GoesOn, IsWorkOn, work_of};

use crate::halt::Halt;
use crate::listing::{Listing, list_dests, list_units, see};
use crate::preparing::{create_all, fence_all};
use crate::swapping::{finish, swap};
use crate::work::{Work, unbroken, with_old_units};
use std::alloc::Global;
use unit_id::{Homes, Task};
use volume_world::Port;

/// What was heard to be listed: by destinations, and by current units.
#[derive(Drop)]
pub(crate) struct Heard {
    pub(crate) dests: Vec<Listing>,
    pub(crate) units: Vec<Listing>,
}

/// Makes destinations and fences old units.
fn prepare<P: Port>(alloc: Global, port: &mut P, work: &mut Work) -> Result<(), Halt>
    requires { IsWorkOn (P.seen port.old).origin (work_of work.old) }
    ensures goes { (mode : ModeView) (task : TaskView)
        → GoesOn (task_call mode task) (P.seen port.old) (P.seen port.new) (creating (work_of work.old) work.old.journeys.items) result
        (λ _. listing_dests (work_of work.new) [] work.new.journeys.items) }
    ensures origin { (P.seen port.new).origin ≡ (P.seen port.old).origin }
    ensures work { IsWorkOn (P.seen port.old).origin (work_of work.new) }
{
    create_all(port, work.journeys.as_slice())?;
    fence_all(alloc, port, work)
}

/// Hears what destinations and current units have.
fn hear<P: Port>(alloc: Global, port: &mut P, work: &Work) -> Result<Heard, Halt>
    requires { IsWorkOn (P.seen port.old).origin (work_of work.now) }
    ensures goes { (mode : ModeView) (task : TaskView)
        → GoesOn (task_call mode task) (P.seen port.old) (P.seen port.new) (listing_dests (work_of work.now) [] work.now.journeys.items) result
        (λ heard. copying (work_of work.now) (next_errand (work_of work.now) None (errands (work_of work.now) heard.dests.items heard.units.items))) }
    ensures origin { (P.seen port.new).origin ≡ (P.seen port.old).origin }
{
    let dests = list_dests(alloc, port, work.lock, work.journeys.as_slice())?;
    let homes = unbroken(alloc, work.homes.as_slice())?;
    let units = list_units(alloc, port, work.lock, homes.as_slice())?;
    see(work, units.as_slice())?;
    Ok(Heard { dests, units })
}

/// From the lock to the listings.
pub(crate) fn list_all<P: Port>(alloc: Global, port: &mut P, work: &mut Work) -> Result<Heard, Halt>
    requires { IsWorkOn (P.seen port.old).origin (work_of work.old) }
    ensures goes { (mode : ModeView) (task : TaskView)
        → GoesOn (task_call mode task) (P.seen port.old) (P.seen port.new) (creating (work_of work.old) work.old.journeys.items) result
        (λ heard. copying (work_of work.new) (next_errand (work_of work.new) None (errands (work_of work.new) heard.dests.items heard.units.items))) }
    ensures origin { (P.seen port.new).origin ≡ (P.seen port.old).origin }
    ensures work { IsWorkOn (P.seen port.old).origin (work_of work.new) }
{
    prepare(alloc, port, work)?;
    hear(alloc, port, work)
}

/// From the swap to the end.
pub(crate) fn complete<P: Port>(
    alloc: Global,
    port: &mut P,
    task: &Task,
    work: &mut Work,
) -> Result<Homes, Halt>
    requires { IsWorkOn (P.seen port.old).origin (work_of work.old) }
    ensures goes { (mode : ModeView)
        → GoesOn (task_call mode task.now) (P.seen port.old) (P.seen port.new) (Next.Go (TaskStage.Swapping (work_of work.old))) result
        (λ given. Next.Over (Ok (StageDone given))) }
    ensures origin { (P.seen port.new).origin ≡ (P.seen port.old).origin }
{
    swap(port, task, work)?;
    let units = with_old_units(alloc, work.journeys.as_slice())?;
    finish(port, task, work, units.as_slice())
}
