//! Sweeping a blob.

ghost use Rattle.std.specs.Prelude.{ℕ, Bool, cond, List, [], ◌∷◌, ◌++◌, ◌≡◌, ◌+◌, ◌<◌, ◌≤◌, ◌==◌, length, Ok, IfOk};
ghost use Rattle.unit_id.specs.declared.homes.Home.{Home as HomeView};
ghost use Rattle.volume_entry.specs.Manager.{IsBid};
ghost use Rattle.volume_world.specs.Way.{Origin};
ghost use Rattle.volume_world.specs.Asking.{IsUnitOn};
ghost use Rattle.volume_world.specs.Replying.{AreHomes, RepliesLook, RepliesSend, RepliesCommit};
ghost use Rattle.volume_world.specs.Call.{Next};
ghost use Rattle.blob_delete.specs.SweepCall.{SweepStage, SweepNext, unbroken, marking, freeing, has_done, after_look, after_send, after_mark, after_commit, after_free};
ghost use Rattle.blob_delete.specs.Sweeps.{Sweeps};
ghost use Rattle.blob_delete.specs.SweepParts.{told, SweepsOn, decided_on, AreUnits};

use crate::DeleteFault;
use std::alloc::Global;
use unit_id::{Answer, Home, Homes, Request};
use volume_world::{Event, Port, Reply};

/// What a sweep came to.
#[derive(Clone, Copy, Debug, PartialEq, Eq)]
pub enum Swept {
    /// The deletion is committed, and each unit of the volume has let its shard go.
    Freed,
    /// The deletion is committed, and some unit wasn't heard to let its shard go.
    Committed,
    /// Only so many units are known to have the mark, which is too few.
    Waits { marks: u32 },
}

/// What the manager made of the commit.
#[derive(Drop)]
enum Decided {
    Committed,
    Waits { marks: u32 },
}

fn looked(reply: Reply) -> Result<Homes, DeleteFault>
    requires { (origin : Origin) × RepliesLook origin reply }
    ensures reply { told result (λ units. Next.Go (marking (length units) [] (unbroken units))) ≡ after_look reply }
    ensures homes { (origin : Origin) → RepliesLook origin reply → IfOk result (λ units. AreHomes origin units) }
{
    match reply {
        Reply::Seen { view } => match view.held {
            Some(lock) => Err(DeleteFault::Locked { task: lock.task }),
            None => Ok(view.units),
        },
        Reply::Fault => Err(DeleteFault::Fault),
        Reply::Spoiled { place } => Err(DeleteFault::Spoiled { place }),
        _ => unreachable!(),
    }
}

/// Whether a unit did what it was asked, now or before.
fn did(answer: &Answer) -> bool
    ensures { result ≡ has_done answer.now }
{
    match answer {
        Answer::Done | Answer::Already => true,
        _ => false,
    }
}

fn sent(reply: Reply) -> Result<bool, DeleteFault>
    requires { RepliesSend reply }
    ensures { (then : Bool → SweepNext) → told result then ≡ after_send then reply }
{
    match reply {
        Reply::Heard { answer } => Ok(did(&answer)),
        Reply::Unheard | Reply::Barred => Ok(false),
        Reply::Fault => Err(DeleteFault::Fault),
        Reply::Spoiled { place } => Err(DeleteFault::Spoiled { place }),
        _ => unreachable!(),
    }
}

fn decision(reply: Reply) -> Result<Decided, DeleteFault>
    requires { RepliesCommit reply }
    ensures { (total : ℕ) (marked : List HomeView) → told result (decided_on total marked) ≡ after_commit total marked reply }
{
    match reply {
        Reply::Done | Reply::Already => Ok(Decided::Committed),
        Reply::TooFewMarks { have } => Ok(Decided::Waits { marks: have }),
        Reply::Locked { task } => Err(DeleteFault::Locked { task }),
        Reply::NotAsked => Err(DeleteFault::NotAsked),
        Reply::Fault => Err(DeleteFault::Fault),
        Reply::Spoiled { place } => Err(DeleteFault::Spoiled { place }),
        _ => unreachable!(),
    }
}

/// The volume's units, where no task has locked it.
fn look<P: Port>(port: &mut P) -> Result<Homes, DeleteFault>
    ensures sweeps { (bid : ℕ) → SweepsOn bid (P.seen port.old) (P.seen port.new) (Next.Go SweepStage.Looking) result
        (λ units. Next.Go (marking (length units) [] (unbroken units))) }
    ensures homes { IfOk result (λ units. AreHomes (P.seen port.new).origin units) }
{
    match port.step(Event::Look) {
        Ok(reply) => looked(reply),
        Err(fault) => Err(DeleteFault::from(fault)),
    }
}

/// Marks the blob at a unit: whether it has the mark.
fn mark<P: Port>(port: &mut P, bid: u64, home: &Home) -> Result<bool, DeleteFault>
    requires number { IsBid bid }
    requires home { IsUnitOn (P.seen port.old).origin home.now.unit home.now.disk }
    ensures { (total : ℕ) (marked left : List HomeView)
        → SweepsOn bid (P.seen port.old) (P.seen port.new) (Next.Go (SweepStage.Marking total marked home.now left)) result (after_mark total marked home.now left) }
{
    let request = Request::Mark {
        unit: home.unit,
        disk: home.disk,
        bid,
    };
    match port.step(Event::Send { request }) {
        Ok(reply) => sent(reply),
        Err(fault) => Err(DeleteFault::from(fault)),
    }
}

/// Keeps a unit that has the mark.
fn keep(marked: &mut Homes, home: &Home, has_mark: bool)
    requires { length marked.old < 27 }
    ensures { marked.new ≡ cond has_mark (marked.old ++ home.now ∷ []) marked.old }
{
    if has_mark {
        marked.push(*home);
    }
}

/// Marks the blob at a unit, unless its disk is broken, and keeps the unit where it has the mark.
fn mark_unit<P: Port>(
    port: &mut P,
    bid: u64,
    home: &Home,
    marked: &mut Homes,
) -> Result<(), DeleteFault>
    requires number { IsBid bid }
    requires home { IsUnitOn (P.seen port.old).origin home.now.unit home.now.disk }
    requires room { length marked.old < 27 }
    ensures sweeps { (total : ℕ) (left : List HomeView)
        → SweepsOn bid (P.seen port.old) (P.seen port.new) (Next.Go (marking total marked.old (unbroken (home.now ∷ left)))) result
        (λ _. Next.Go (marking total marked.new (unbroken left))) }
    ensures units { AreUnits (P.seen port.old).origin marked.old → AreUnits (P.seen port.new).origin marked.new }
    ensures room { length marked.new ≤ length marked.old + 1 }
{
    if home.broken {
        return Ok(());
    }
    let has_mark = mark(port, bid, home)?;
    keep(marked, home, has_mark);
    Ok(())
}

/// Marks the blob at each unit on an unbroken disk, in order of index: those that have the mark.
fn mark_units<P: Port>(port: &mut P, bid: u64, units: &Homes) -> Result<Homes, DeleteFault>
    requires number { IsBid bid }
    requires homes { AreHomes (P.seen port.old).origin units.now }
    ensures sweeps { (total : ℕ) → SweepsOn bid (P.seen port.old) (P.seen port.new) (Next.Go (marking total [] (unbroken units.now))) result
        (λ marked. Next.Go (SweepStage.Committing total marked)) }
    ensures units { IfOk result (λ marked. AreUnits (P.seen port.new).origin marked) }
{
    let mut marked = Homes::empty();
    'units: for home in units.as_slice() {
        mark_unit(port, bid, home, &mut marked)?;
    }
    Ok(marked)
}

/// Commits the blob's deletion.
fn commit<P: Port>(port: &mut P, bid: u64) -> Result<Decided, DeleteFault>
    requires { IsBid bid }
    ensures { (total : ℕ) (marked : List HomeView)
        → SweepsOn bid (P.seen port.old) (P.seen port.new) (Next.Go (SweepStage.Committing total marked)) result (decided_on total marked) }
{
    match port.step(Event::Commit { bid }) {
        Ok(reply) => decision(reply),
        Err(fault) => Err(DeleteFault::from(fault)),
    }
}

/// Has a unit let the blob's shard go: whether it did.
fn free<P: Port>(port: &mut P, bid: u64, home: &Home) -> Result<bool, DeleteFault>
    requires number { IsBid bid }
    requires home { IsUnitOn (P.seen port.old).origin home.now.unit home.now.disk }
    ensures { (total freed : ℕ) (left : List HomeView)
        → SweepsOn bid (P.seen port.old) (P.seen port.new) (Next.Go (SweepStage.Freeing total freed home.now left)) result (after_free total freed left) }
{
    let request = Request::Free {
        unit: home.unit,
        disk: home.disk,
        bid,
    };
    match port.step(Event::Send { request }) {
        Ok(reply) => sent(reply),
        Err(fault) => Err(DeleteFault::from(fault)),
    }
}

/// Has each of these units let the blob's shard go, in order: how many did.
fn free_units<P: Port>(port: &mut P, bid: u64, marked: &Homes) -> Result<usize, DeleteFault>
    requires number { IsBid bid }
    requires units { AreUnits (P.seen port.old).origin marked.now }
    ensures { (total : ℕ) → SweepsOn bid (P.seen port.old) (P.seen port.new) (freeing total 0 marked.now) result (λ freed. freeing total freed []) }
{
    let mut freed = 0;
    'units: for home in marked.as_slice() {
        freed += free(port, bid, home)? as usize;
    }
    Ok(freed)
}

/// What a sweep came to whose deletion is committed.
fn outcome(freed: usize, total: usize) -> Swept
    ensures { Next.Over (Ok result) ≡ freeing total freed [] }
{
    if freed == total {
        Swept::Freed
    } else {
        Swept::Committed
    }
}

/// What a sweep asks, and what it comes to.
fn sweep_units<P: Port>(port: &mut P, bid: u64) -> Result<Swept, DeleteFault>
    requires { IsBid bid }
    ensures { SweepsOn bid (P.seen port.old) (P.seen port.new) (Next.Go SweepStage.Looking) result (λ swept. Next.Over (Ok swept)) }
{
    let units = look(port)?;
    let marked = mark_units(port, bid, &units)?;
    match commit(port, bid)? {
        Decided::Committed => {
            let freed = free_units(port, bid, &marked)?;
            Ok(outcome(freed, units.len()))
        }
        Decided::Waits { marks } => Ok(Swept::Waits { marks }),
    }
}

/// Sweeps a blob whose deletion was asked for. It looks at the volume, marks the blob at each unit on an unbroken disk in
/// order of index, commits the deletion, and has each unit that was heard to have the mark let the blob's shard go. Blob
/// numbers are 1 to 2^62. It answers `Freed` exactly where every unit of the volume let its shard go in this call, and
/// `Freed` or `Committed` only where the deletion is committed. It allocates nothing itself.
///
/// # Errors
///
/// `Locked` exactly where the look shows a lock or the commit replied so; `NotAsked`, `Fault` and `Spoiled` exactly where
/// a step of this call replied so, which is then the last one. After `Memory` or `HistoryFull` the blob may be marked
/// at some units, or committed: a call made again goes on from there.
pub fn sweep<P: Port>(_alloc: Global, port: &mut P, bid: u64) -> Result<Swept, DeleteFault>
    requires { IsBid bid }
    ensures { Sweeps (P.seen port.old) (P.seen port.new) bid result }
{
    let swept = sweep_units(port, bid);
    port.is_way();
    swept
}
