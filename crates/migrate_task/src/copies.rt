//! All copies of a call, one errand behind the other.

ghost use Rattle.std.specs.Prelude.{List, ◌≡◌, None};
ghost use Rattle.unit_id.specs.declared.task.Task.{Task as TaskView};
ghost use Rattle.rs_code.specs.Shape.{shape};
ghost use Rattle.code_mode.specs.declared.mode.Mode.{Mode as ModeView};
ghost use Rattle.volume_world.specs.Call.{Next};
ghost use Rattle.migrate_task.specs.declared.copying.Errand.{Errand as ErrandView};
ghost use Rattle.migrate_task.specs.Copies.{copy_begins, errand_begins, next_errand};
ghost use Rattle.migrate_task.specs.AdvanceCall.{TaskStage, task_call, copying};
ghost use Rattle.migrate_task.specs.TaskParts.{GoesOn, IsWorkOn, work_of};
ghost use Rattle.migrate_task.specs.GatherParts.{coder_shape, IsErrand, AreErrands};

use crate::copying::{Due, Errand, mark, write};
use crate::halt::Halt;
use crate::rebuilding::shard_for;
use crate::usable::KnownSize;
use crate::work::Work;
use rs_code::Coder;
use std::alloc::Global;
use volume_world::Port;

/// Copies a blob's shard to its destination.
fn copy<P: Port>(
    alloc: Global,
    port: &mut P,
    coder: &mut Coder,
    work: &Work,
    known: &mut Option<KnownSize>,
    errand: &Errand,
) -> Result<(), Halt>
    requires coder { shape coder.old ≡ coder_shape (P.seen port.old).origin.mode }
    requires work { IsWorkOn (P.seen port.old).origin (work_of work.now) }
    requires errand { IsErrand (P.seen port.old).origin errand.now }
    ensures goes { (mode : ModeView) (task : TaskView) (left : List ErrandView)
        → GoesOn (task_call mode task) (P.seen port.old) (P.seen port.new) (copying (work_of work.now) (copy_begins (work_of work.now) known.old errand.now left)) result
        (λ _. copying (work_of work.now) (next_errand (work_of work.now) known.new left)) }
    ensures origin { (P.seen port.new).origin ≡ (P.seen port.old).origin }
    ensures shape { shape coder.new ≡ shape coder.old }
{
    let row = shard_for(alloc, port, coder, work, *known, errand)?;
    *known = Some(KnownSize {
        bid: errand.bid,
        size: row.size,
    });
    port.is_way();
    write(port, errand, row.size, row.bytes)
}

/// Does one errand.
fn run<P: Port>(
    alloc: Global,
    port: &mut P,
    coder: &mut Coder,
    work: &Work,
    known: &mut Option<KnownSize>,
    errand: &Errand,
) -> Result<(), Halt>
    requires coder { shape coder.old ≡ coder_shape (P.seen port.old).origin.mode }
    requires work { IsWorkOn (P.seen port.old).origin (work_of work.now) }
    requires errand { IsErrand (P.seen port.old).origin errand.now }
    ensures goes { (mode : ModeView) (task : TaskView) (left : List ErrandView)
        → GoesOn (task_call mode task) (P.seen port.old) (P.seen port.new) (copying (work_of work.now) (errand_begins (work_of work.now) known.old errand.now left errand.now.due)) result
        (λ _. copying (work_of work.now) (next_errand (work_of work.now) known.new left)) }
    ensures origin { (P.seen port.new).origin ≡ (P.seen port.old).origin }
    ensures shape { shape coder.new ≡ shape coder.old }
{
    match errand.due {
        Due::Mark => mark(port, errand),
        Due::Copy => copy(alloc, port, coder, work, known, errand),
        Due::Left => unreachable!(),
    }
}

/// Does these errands in order.
pub(crate) fn run_all<P: Port>(
    alloc: Global,
    port: &mut P,
    coder: &mut Coder,
    work: &Work,
    errands: &[Errand],
) -> Result<(), Halt>
    requires coder { shape coder.old ≡ coder_shape (P.seen port.old).origin.mode }
    requires work { IsWorkOn (P.seen port.old).origin (work_of work.now) }
    requires errands { AreErrands (P.seen port.old).origin errands.now }
    ensures goes { (mode : ModeView) (task : TaskView)
        → GoesOn (task_call mode task) (P.seen port.old) (P.seen port.new) (copying (work_of work.now) (next_errand (work_of work.now) None errands.now)) result
        (λ _. Next.Go (TaskStage.Swapping (work_of work.now))) }
    ensures origin { (P.seen port.new).origin ≡ (P.seen port.old).origin }
    ensures shape { shape coder.new ≡ shape coder.old }
{
    let mut known = None;
    'errands: for errand in errands {
        run(alloc, port, coder, work, &mut known, errand)?;
    }
    Ok(())
}
