//! A shard that a destination lacks: taken from the old unit, or rebuilt from those of others.

ghost use Rattle.std.specs.Prelude.{ℕ, List, ◌≡◌, ◌≤◌, ◌<◌, ◌+◌, length, IfOk};
ghost use Rattle.unit_id.specs.declared.homes.Home.{Home as HomeView};
ghost use Rattle.unit_id.specs.declared.task.Task.{Task as TaskView};
ghost use Rattle.rs_code.specs.Shape.{shape};
ghost use Rattle.rs_code.specs.Shards.{held_count};
ghost use Rattle.rs_code.specs.ShardValue.{rebuilt};
ghost use Rattle.code_mode.specs.declared.mode.Mode.{Mode as ModeView};
ghost use Rattle.code_mode.specs.Mode.{total_count};
ghost use Rattle.volume_entry.specs.Manager.{IsBid};
ghost use Rattle.volume_world.specs.Asking.{IsUnitOn};
ghost use Rattle.volume_world.specs.Call.{Next};
ghost use Rattle.migrate_task.specs.declared.copying.Errand.{Errand as ErrandView};
ghost use Rattle.migrate_task.specs.Copies.{CopyStage, reading, others_than, copy_begins};
ghost use Rattle.migrate_task.specs.AdvanceCall.{TaskStage, task_call, copying};
ghost use Rattle.migrate_task.specs.TaskParts.{GoesOn, AreUnits, IsWorkOn, work_of};
ghost use Rattle.migrate_task.specs.Rows.{AreShardsRight, IsBlobRight};
ghost use Rattle.migrate_task.specs.GatherParts.{coder_shape, none_gathered, AreFrom, IsErrand, IsGathered, IsEnough, known_after, enough_by, rebuilding, visited, writing, IsVisited, IsRightBy, IsRowFor};

use crate::Why;
use crate::copying::Errand;
use crate::gathering::{Gathered, read_other};
use crate::halt::Halt;
use crate::old_shard::{OldShard, Row, read_old};
use crate::usable::{KnownSize, others_than};
use crate::work::Work;
use code_mode::Mode;
use disk_base::NoMemory;
use rs_code::{CodeFault, Coder, Shards};
use std::alloc::Global;
use unit_id::{Bytes, Home};
use volume_world::Port;

/// No shard, and so many reads without an answer.
fn nothing(alloc: Global, mode: Mode, unheard: u32) -> Gathered
    ensures { result ≡ none_gathered mode unheard }
{
    let total = mode.total();
    Gathered {
        shards: Shards::make(alloc, total as usize),
        live: 0,
        unheard,
    }
}

/// Which size is known behind a visit; and the size of the blob, where enough shards are held.
fn settle(
    known: &mut Option<KnownSize>,
    mode: Mode,
    bid: u64,
    live: u32,
    found: Option<u32>,
) -> Option<u32>
    ensures known { known.new ≡ known_after bid found known.old }
    ensures enough { result ≡ enough_by mode live found }
{
    match found {
        Some(size) => {
            *known = Some(KnownSize { bid, size });
            if live == mode.n() {
                return Some(size);
            }
            None
        }
        None => None,
    }
}

/// Reads one other unit: the size of the blob, once enough shards are held.
fn visit<P: Port>(
    port: &mut P,
    work: &Work,
    known: &mut Option<KnownSize>,
    errand: &Errand,
    home: &Home,
    gathered: &mut Gathered,
) -> Result<Option<u32>, Halt>
    requires unit { IsUnitOn (P.seen port.old).origin home.now.unit home.now.disk }
    requires number { IsBid errand.now.bid }
    requires within { home.now.unit.index < total_count work.now.mode }
    requires heard { IsGathered work.now.mode known.old errand.now.bid home.now.unit.index gathered.old }
    requires right { AreShardsRight (P.seen port.old) errand.now.bid gathered.old.shards }
    ensures goes { (mode : ModeView) (task : TaskView) (left : List ErrandView) (homes : List HomeView)
        → GoesOn (task_call mode task) (P.seen port.old) (P.seen port.new) (Next.Go (TaskStage.Copying (work_of work.now) (CopyStage.ReadingOther known.old errand.now left gathered.old home.now homes))) result
        (visited (work_of work.now) known.new errand.now left gathered.new homes) }
    ensures origin { (P.seen port.new).origin ≡ (P.seen port.old).origin }
    ensures heard { IfOk result (IsVisited work.now.mode known.new errand.now.bid (home.now.unit.index + 1) gathered.new) }
    ensures right { IfOk result (IsRightBy (P.seen port.new) errand.now.bid gathered.new.shards) }
{
    let found = read_other(port, work, *known, errand, home, gathered)?;
    Ok(settle(known, work.mode, errand.bid, gathered.live, found))
}

/// Reads other units in order of index until enough shards are held: the size of the blob.
fn read_others<P: Port>(
    port: &mut P,
    work: &Work,
    known: Option<KnownSize>,
    errand: &Errand,
    others: &[Home],
    gathered: &mut Gathered,
) -> Result<u32, Halt>
    requires units { AreUnits (P.seen port.old).origin others.now }
    requires order { AreFrom (total_count work.now.mode) 0 others.now }
    requires number { IsBid errand.now.bid }
    requires heard { IsGathered work.now.mode known errand.now.bid 0 gathered.old }
    requires right { AreShardsRight (P.seen port.old) errand.now.bid gathered.old.shards }
    ensures goes { (mode : ModeView) (task : TaskView) (left : List ErrandView)
        → GoesOn (task_call mode task) (P.seen port.old) (P.seen port.new) (copying (work_of work.now) (reading known errand.now left gathered.old others.now)) result
        (rebuilding (work_of work.now) errand.now left gathered.new) }
    ensures origin { (P.seen port.new).origin ≡ (P.seen port.old).origin }
    ensures enough { IfOk result (λ size. IsEnough work.now.mode size gathered.new) }
    ensures right { IfOk result (λ size. IsBlobRight (P.seen port.new) errand.now.bid size gathered.new.shards) }
{
    let mut latest = known;
    'others: for home in others {
        let found = visit(port, work, &mut latest, errand, home, gathered)?;
        match found {
            Some(size) => return Ok(size),
            None => {}
        }
    }
    Err(Halt::Waits(Why::ShortShards {
        bid: errand.bid,
        live: gathered.live,
        unheard: gathered.unheard,
    }))
}

/// The shard of an index by enough others.
fn rebuild(coder: &mut Coder, shards: &Shards, index: u8) -> Result<Bytes, NoMemory>
    requires total { length shards.now ≡ coder.old.data_shards + coder.old.parity_shards }
    requires below { index < length shards.now }
    requires enough { coder.old.data_shards ≤ held_count shards.now }
    ensures rebuilt { IfOk result (λ bytes. bytes ≡ rebuilt coder.old.data_shards shards.now index) }
    ensures shape { shape coder.new ≡ shape coder.old }
{
    match coder.rebuild(shards, usize::from(index)) {
        Ok(bytes) => Ok(bytes),
        Err(CodeFault::Memory) => Err(NoMemory),
        Err(CodeFault::BadShape) => unreachable!(),
        Err(CodeFault::TooFew { have: _ }) => unreachable!(),
    }
}

/// Rebuilds the shard that a destination lacks from those of other units.
fn gather<P: Port>(
    alloc: Global,
    port: &mut P,
    coder: &mut Coder,
    work: &Work,
    known: Option<KnownSize>,
    errand: &Errand,
    unheard: u32,
) -> Result<Row, Halt>
    requires coder { shape coder.old ≡ coder_shape (P.seen port.old).origin.mode }
    requires work { IsWorkOn (P.seen port.old).origin (work_of work.now) }
    requires errand { IsErrand (P.seen port.old).origin errand.now }
    requires once { unheard ≤ 1 }
    ensures goes { (mode : ModeView) (task : TaskView) (left : List ErrandView)
        → GoesOn (task_call mode task) (P.seen port.old) (P.seen port.new)
        (copying (work_of work.now) (reading known errand.now left (none_gathered work.now.mode unheard) (others_than errand.now.journey.index work.now.homes.items))) result (writing (work_of work.now) errand.now left) }
    ensures origin { (P.seen port.new).origin ≡ (P.seen port.old).origin }
    ensures right { IfOk result (IsRowFor (P.seen port.new) work.now.mode errand.now.bid errand.now.journey.index) }
    ensures shape { shape coder.new ≡ shape coder.old }
{
    let others = others_than(alloc, work.homes.as_slice(), errand.journey.index)?;
    let mut gathered = nothing(alloc, work.mode, unheard);
    let size = read_others(port, work, known, errand, others.as_slice(), &mut gathered)?;
    let bytes = rebuild(coder, &gathered.shards, errand.journey.index)?;
    Ok(Row { size, bytes })
}

/// The shard that a destination lacks: the old unit's, where it has one of use, or else a rebuilt one.
pub(crate) fn shard_for<P: Port>(
    alloc: Global,
    port: &mut P,
    coder: &mut Coder,
    work: &Work,
    known: Option<KnownSize>,
    errand: &Errand,
) -> Result<Row, Halt>
    requires coder { shape coder.old ≡ coder_shape (P.seen port.old).origin.mode }
    requires work { IsWorkOn (P.seen port.old).origin (work_of work.now) }
    requires errand { IsErrand (P.seen port.old).origin errand.now }
    ensures goes { (mode : ModeView) (task : TaskView) (left : List ErrandView)
        → GoesOn (task_call mode task) (P.seen port.old) (P.seen port.new) (copying (work_of work.now) (copy_begins (work_of work.now) known errand.now left)) result (writing (work_of work.now) errand.now left) }
    ensures origin { (P.seen port.new).origin ≡ (P.seen port.old).origin }
    ensures right { IfOk result (IsRowFor (P.seen port.new) work.now.mode errand.now.bid errand.now.journey.index) }
    ensures shape { shape coder.new ≡ shape coder.old }
{
    if errand.journey.old.broken {
        return gather(alloc, port, coder, work, known, errand, 0);
    }
    let old = read_old(port, work, known, errand)?;
    match old {
        OldShard::Usable(row) => Ok(row),
        OldShard::Useless => gather(alloc, port, coder, work, known, errand, 0),
        OldShard::Unheard => gather(alloc, port, coder, work, known, errand, 1),
    }
}
