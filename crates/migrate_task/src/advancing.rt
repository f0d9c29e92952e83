//! One call of a task.

ghost use Rattle.std.specs.Prelude.{◌≡◌, Ok};
ghost use Rattle.rs_code.specs.Shape.{shape};
ghost use Rattle.code_mode.specs.declared.mode.Mode.{Mode as ModeView};
ghost use Rattle.volume_world.specs.Call.{Next};
ghost use Rattle.migrate_task.specs.declared.stage.Stage.TheVariants.{Done as StageDone};
ghost use Rattle.migrate_task.specs.AdvanceCall.{TaskStage, task_call, creating, releasing, Advances};
ghost use Rattle.migrate_task.specs.TaskParts.{GoesOn, IsTaskOf, IsWorkOn, work_of, ended};
ghost use Rattle.migrate_task.specs.GatherParts.{coder_shape};

use crate::copies::run_all;
use crate::course::{complete, list_all};
use crate::halt::{Halt, answer_of};
use crate::merging::errands;
use crate::starting::{Start, take_lock};
use crate::swapping::finish;
use crate::work::Work;
use crate::{Stage, TaskFault};
use rs_code::Coder;
use std::alloc::Global;
use unit_id::{Homes, Task};
use volume_world::Port;

/// From the lock to the end.
fn move_units<P: Port>(
    alloc: Global,
    port: &mut P,
    coder: &mut Coder,
    task: &Task,
    work: &mut Work,
) -> Result<Homes, Halt>
    requires coder { shape coder.old ≡ coder_shape (P.seen port.old).origin.mode }
    requires work { IsWorkOn (P.seen port.old).origin (work_of work.old) }
    ensures goes { (mode : ModeView)
        → GoesOn (task_call mode task.now) (P.seen port.old) (P.seen port.new) (creating (work_of work.old) work.old.journeys.items) result (λ units. Next.Over (Ok (StageDone units))) }
    ensures origin { (P.seen port.new).origin ≡ (P.seen port.old).origin }
    ensures shape { shape coder.new ≡ shape coder.old }
{
    let heard = list_all(alloc, port, work)?;
    let left = errands(alloc, work, &heard)?;
    run_all(alloc, port, coder, work, left.as_slice())?;
    complete(alloc, port, task, work)
}

/// From the swap to the end, in a later call.
fn give_free<P: Port>(
    alloc: Global,
    port: &mut P,
    task: &Task,
    work: &mut Work,
) -> Result<Homes, Halt>
    requires { IsWorkOn (P.seen port.old).origin (work_of work.old) }
    ensures goes { (mode : ModeView)
        → GoesOn (task_call mode task.now) (P.seen port.old) (P.seen port.new) (Next.Go (releasing (work_of work.old) work.old.journeys.items)) result (λ units. Next.Over (Ok (StageDone units))) }
    ensures origin { (P.seen port.new).origin ≡ (P.seen port.old).origin }
{
    let units = Vec::from_slice(alloc, work.journeys.as_slice())?;
    finish(port, task, work, units.as_slice())
}

/// What one call does: the units that it put in, or what ends it before.
fn run<P: Port>(alloc: Global, port: &mut P, coder: &mut Coder, task: &Task) -> Result<Homes, Halt>
    requires task { IsTaskOf (P.seen port.old).origin task.now }
    requires coder { shape coder.old ≡ coder_shape (P.seen port.old).origin.mode }
    ensures goes { GoesOn (task_call (P.seen port.old).origin.mode task.now) (P.seen port.old) (P.seen port.new) (Next.Go TaskStage.Looking) result (λ units. Next.Over (Ok (StageDone units))) }
    ensures shape { shape coder.new ≡ shape coder.old }
{
    let start = take_lock(alloc, port, task)?;
    match start {
        Start::Locked(work) => {
            let mut work = work;
            move_units(alloc, port, coder, task, &mut work)
        }
        Start::Swapped(work) => {
            let mut work = work;
            give_free(alloc, port, task, &mut work)
        }
    }
}

/// The answer of a call.
fn answer(outcome: Result<Homes, Halt>) -> Result<Stage, TaskFault>
    ensures { result ≡ ended outcome }
{
    match outcome {
        Ok(units) => Ok(Stage::Done { units }),
        Err(halt) => answer_of(halt),
    }
}

/// Takes a task as far as it goes in one call: it locks the volume, makes the destinations, fences the old units, hears
/// what each unit has, gives the destinations what they lack, swaps the units, releases the old ones, and gives the
/// volume free. It keeps nothing between calls: a later one goes on from what the volume shows. `Done` has the units that
/// the swap put in.
///
/// # Errors
///
/// `EpochSpent` where an index of the volume has no epochs left. `Fault` and `Spoiled` where the manager's log replied
/// so. `HistoryFull` only where the volume's history takes no more entries. Behind `Memory` a later call may go on. No
/// error comes behind an unlock that was done.
pub fn advance<P: Port>(
    alloc: Global,
    port: &mut P,
    coder: &mut Coder,
    task: &Task,
) -> Result<Stage, TaskFault>
    requires task { IsTaskOf (P.seen port.old).origin task.now }
    requires coder { shape coder.old ≡ coder_shape (P.seen port.old).origin.mode }
    ensures advances { Advances (P.seen port.old) (P.seen port.new) task.now result }
    ensures shape { shape coder.new ≡ shape coder.old }
{
    let outcome = run(alloc, port, coder, task);
    answer(outcome)
}
