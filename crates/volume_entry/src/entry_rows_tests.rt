//! Worked rows of an entry: what a task's move of units waits for, what is refused, and a lock whose calls on the file fail.

ghost use Rattle.std.specs.Prelude.{◌≡◌, true};
ghost use Rattle.volume_entry.specs.Entry.{HasRoomIfOpen};
ghost use Rattle.volume_entry.specs.ManagerStep.{AreTargets, IsTarget};
ghost use Rattle.volume_entry.specs.TableParts.{shape_of};

use crate::legal::is_disk;
use crate::record::UnitHome;
use crate::{Entry, EntryFault, ManagerReply as Reply, Shape, are_first_homes};
use code_mode::Mode;
use disk_base::MemFile;
use std::alloc::Global;
use std::process::Abort;
use std::test::Fail;
use unit_id::{Answer, Move, Moves, Request, Target, Targets, UnitName};

const VID: u32 = 1;

/// Six data shards of nine; seven units are enough to see.
const SHAPE: Shape = Shape {
    mode: Mode::Ec6P3,
    disks: 11,
};

/// The task that moves units, and the number of its lock.
const TASK: u64 = 1;

const LOCK: u64 = 1;

/// The last epoch that an index can have.
const LAST_EPOCH: u32 = 16_777_215;

/// A volume in a new file, with homes of this epoch on disks 1 to 9. These calls on the file fail.
fn made_in(
    rt: &impl Abort,
    alloc: Global,
    epoch: u32,
    fails: &[u64],
) -> Result<Entry<MemFile>, EntryFault> {
    let mut homes = Vec::new(alloc);
    for disk in 1..10u32 {
        homes.push(UnitHome { epoch, disk })?;
    }
    assert!(rt; are_first_homes(SHAPE, &homes));
    let file = MemFile::new(alloc, fails.to_vec(alloc)?);
    match Entry::make(alloc, file, VID, SHAPE, &homes) {
        Ok(entry) => Ok(entry),
        Err((fault, _file)) => Err(fault),
    }
}

/// .. of the first epoch.
fn made(rt: &impl Abort, alloc: Global, fails: &[u64]) -> Result<Entry<MemFile>, EntryFault> {
    made_in(rt, alloc, 1, fails)
}

/// Whether there is room for a step's record, where the log isn't shut.
fn has_room(entry: &Entry<MemFile>) -> bool
    ensures { result ≡ true → HasRoomIfOpen entry.now.book.log.end }
{
    match entry.end() {
        Some(end) => end < 100_000,
        None => true,
    }
}

/// Whether the volume has the index, and may use the disk.
fn is_target(shape: Shape, target: Target) -> bool
    ensures { result ≡ true → IsTarget (shape_of shape) target }
{
    u32::from(target.index) < shape.mode.total() && is_disk(shape, target.disk)
}

/// Whether one lock may be asked to move these units, of which there are one or two.
fn are_targets(shape: Shape, targets: &[Target]) -> bool
    ensures { result ≡ true → AreTargets (shape_of shape) targets.now }
{
    let mode = shape.mode;
    match targets {
        [one] => is_target(shape, *one) && mode.n() < mode.quorum(),
        [one, two] => {
            is_target(shape, *one)
                && is_target(shape, *two)
                && one.index < two.index
                && mode.n() + 1 < mode.quorum()
        }
        _ => false,
    }
}

/// Whether a lock of this volume may be asked to move these units.
fn may_lock(entry: &Entry<MemFile>, targets: &Targets) -> bool
    ensures { result ≡ true → AreTargets (shape_of entry.now.book.shape) targets.now }
{
    are_targets(entry.book.shape, targets.as_slice())
}

/// Whether a unit of this volume may be asked to go to a disk.
fn may_retarget(entry: &Entry<MemFile>, target: Target) -> bool
    ensures { result ≡ true → IsTarget (shape_of entry.now.book.shape) target }
{
    is_target(entry.book.shape, target)
}

fn lease(rt: &impl Abort, entry: &mut Entry<MemFile>, now: u32) -> Result<Reply, EntryFault> {
    assert!(rt; has_room(entry));
    entry.lease(u64::from(now))
}

/// Units from the first on, each to one of these disks.
fn targets_to(alloc: Global, disks: &[u32]) -> Result<Targets, EntryFault> {
    let mut targets = Vec::new(alloc);
    let mut index = 0;
    for disk in disks {
        targets.push(Target { index, disk: *disk })?;
        index = 1;
    }
    Ok(Targets::from_vec(targets))
}

/// A task locks the volume, to move units from the first on to these disks.
fn lock(
    rt: &impl Abort,
    alloc: Global,
    entry: &mut Entry<MemFile>,
    now: u32,
    task: u64,
    disks: &[u32],
) -> Result<Reply, EntryFault> {
    let targets = targets_to(alloc, disks)?;
    assert!(rt; may_lock(entry, &targets));
    assert!(rt; has_room(entry));
    entry.lock(u64::from(now), task, &targets)
}

fn retarget(
    rt: &impl Abort,
    entry: &mut Entry<MemFile>,
    task: u64,
    index: u8,
    disk: u32,
) -> Result<Reply, EntryFault> {
    assert!(rt; may_retarget(entry, Target { index, disk }));
    assert!(rt; has_room(entry));
    entry.retarget(task, index, disk)
}

fn swap(rt: &impl Abort, entry: &mut Entry<MemFile>, task: u64) -> Result<Reply, EntryFault> {
    assert!(rt; has_room(entry));
    entry.swap(task)
}

fn unlock(rt: &impl Abort, entry: &mut Entry<MemFile>, task: u64) -> Result<Reply, EntryFault> {
    assert!(rt; has_room(entry));
    entry.unlock(task)
}

/// A unit of the first epoch.
fn unit(index: u8) -> UnitName {
    UnitName {
        vid: VID,
        index,
        epoch: 1,
    }
}

/// The disk on which the unit of an index stands at first.
fn first_disk(index: u8) -> u32 {
    u32::from(index) + 1
}

/// Whether it is heard that an old unit is fenced under the lock.
fn hears_fence(entry: &mut Entry<MemFile>, index: u8) -> Result<bool, EntryFault> {
    entry.reserve()?;
    let request = Request::Fence {
        unit: unit(index),
        disk: first_disk(index),
        lock: LOCK,
    };
    Ok(entry.hear(&request, &Answer::Done).is_ok())
}

/// Whether a start finds nothing in doubt.
fn starts(entry: &mut Entry<MemFile>) -> Result<bool, EntryFault> {
    Ok(!entry.start()?)
}

/// Whether a move at its place leads the unit of that index to this disk, which isn't broken, in this epoch.
fn leads_to(moves: &Moves, index: u8, epoch: u32, disk: u32) -> bool {
    match moves.as_slice().get(usize::from(index)) {
        Some(one) => {
            let Move {
                index: place,
                unit,
                disk: on,
                dest_broken,
            } = *one;
            let is_named = unit.vid == VID && unit.index == index && unit.epoch == epoch;
            is_named && place == index && on == disk && !dest_broken
        }
        None => false,
    }
}

/// Whether the lock is granted, to move the first unit to this disk in this epoch.
fn grants_one(reply: Reply, epoch: u32, disk: u32) -> bool {
    match reply {
        Reply::Granted { lock, moves } => {
            lock == LOCK && moves.len() == 1 && leads_to(&moves, 0, epoch, disk)
        }
        _ => false,
    }
}

/// Whether a lease at 0 runs until 10.
fn leases(rt: &impl Abort, entry: &mut Entry<MemFile>) -> Result<bool, EntryFault> {
    Ok(matches!(lease(rt, entry, 0)?, Reply::LeaseTo { end: 10 }))
}

/// Whether a lock at 9 waits for the lease.
fn waits_for_lease(
    rt: &impl Abort,
    alloc: Global,
    entry: &mut Entry<MemFile>,
) -> Result<bool, EntryFault> {
    Ok(matches!(
        lock(rt, alloc, entry, 9, TASK, &[10])?,
        Reply::LeaseRuns { end: 10 }
    ))
}

/// Whether a lock to disk 2 is told that the second unit stands there.
fn refuses_home(
    rt: &impl Abort,
    alloc: Global,
    entry: &mut Entry<MemFile>,
) -> Result<bool, EntryFault> {
    Ok(matches!(
        lock(rt, alloc, entry, 10, TASK, &[2])?,
        Reply::DestHeld { index: 1 }
    ))
}

/// Whether a lock of the first unit to disk 10 is granted.
fn locks_one(
    rt: &impl Abort,
    alloc: Global,
    entry: &mut Entry<MemFile>,
) -> Result<bool, EntryFault> {
    Ok(grants_one(lock(rt, alloc, entry, 10, TASK, &[10])?, 2, 10))
}

/// Whether a second lock is refused.
fn refuses_second(
    rt: &impl Abort,
    alloc: Global,
    entry: &mut Entry<MemFile>,
) -> Result<bool, EntryFault> {
    Ok(matches!(
        lock(rt, alloc, entry, 10, 2, &[11])?,
        Reply::Locked { task: TASK }
    ))
}

/// Whether a lock of the first unit to disk 10 waits for the lease that was given.
fn leases_and_waits(
    rt: &impl Abort,
    alloc: Global,
    entry: &mut Entry<MemFile>,
) -> Result<bool, EntryFault> {
    Ok(leases(rt, entry)? && waits_for_lease(rt, alloc, entry)?)
}

/// Whether the first unit is locked to disk 10, and to no disk of another unit, and no second lock is granted.
fn locks_once(
    rt: &impl Abort,
    alloc: Global,
    entry: &mut Entry<MemFile>,
) -> Result<bool, EntryFault> {
    Ok(
        refuses_home(rt, alloc, entry)?
            && locks_one(rt, alloc, entry)?
            && refuses_second(rt, alloc, entry)?,
    )
}

/// Whether a swap waits for a fence.
fn lacks_fence(rt: &impl Abort, entry: &mut Entry<MemFile>) -> Result<bool, EntryFault> {
    Ok(matches!(swap(rt, entry, TASK)?, Reply::NotFenced))
}

/// Whether a swap waits for listings, of which none was heard.
fn lacks_listings(rt: &impl Abort, entry: &mut Entry<MemFile>) -> Result<bool, EntryFault> {
    Ok(matches!(swap(rt, entry, TASK)?, Reply::NotListed { have: 0 }))
}

/// Whether an unlock waits for the swap.
fn lacks_swap(rt: &impl Abort, entry: &mut Entry<MemFile>) -> Result<bool, EntryFault> {
    Ok(matches!(unlock(rt, entry, TASK)?, Reply::NotSwapped))
}

/// Whether a good destination is kept.
fn keeps_good(rt: &impl Abort, entry: &mut Entry<MemFile>) -> Result<bool, EntryFault> {
    Ok(matches!(retarget(rt, entry, TASK, 0, 11)?, Reply::DestGood))
}

/// Whether the first unit may go to disk 11 in the next epoch once disk 10 breaks.
fn replaces_broken(rt: &impl Abort, entry: &mut Entry<MemFile>) -> Result<bool, EntryFault> {
    entry.break_disk(10);
    Ok(grants_one(retarget(rt, entry, TASK, 0, 11)?, 3, 11))
}

/// Whether a swap waits for the fence, and then for listings.
fn waits_for_fence(rt: &impl Abort, entry: &mut Entry<MemFile>) -> Result<bool, EntryFault> {
    Ok(lacks_fence(rt, entry)? && hears_fence(entry, 0)? && lacks_listings(rt, entry)?)
}

/// Whether an unlock waits for the swap, and a destination is replaced only if it is broken.
fn retargets(rt: &impl Abort, entry: &mut Entry<MemFile>) -> Result<bool, EntryFault> {
    Ok(lacks_swap(rt, entry)? && keeps_good(rt, entry)? && replaces_broken(rt, entry)?)
}

/// Whether a start forgets that the fence was heard.
fn forgets(rt: &impl Abort, entry: &mut Entry<MemFile>) -> Result<bool, EntryFault> {
    Ok(lacks_listings(rt, entry)? && starts(entry)? && lacks_fence(rt, entry)?)
}

/// Whether the steps of a locked volume are done in turn.
fn moves_on(rt: &impl Abort, entry: &mut Entry<MemFile>) -> Result<bool, EntryFault> {
    Ok(waits_for_fence(rt, entry)? && retargets(rt, entry)? && forgets(rt, entry)?)
}

/// Whether a volume is leased and then locked.
fn leases_and_locks(
    rt: &impl Abort,
    alloc: Global,
    entry: &mut Entry<MemFile>,
) -> Result<bool, EntryFault> {
    Ok(leases_and_waits(rt, alloc, entry)? && locks_once(rt, alloc, entry)?)
}

/// Whether one unit is locked and moves on.
fn moves_one(rt: &impl Abort, alloc: Global) -> Result<bool, EntryFault> {
    let mut entry = made(rt, alloc, &[])?;
    assert!(rt; matches!(leases_and_locks(rt, alloc, &mut entry), Ok(true)));
    moves_on(rt, &mut entry)
}

#[test]
fn one_unit_is_locked_and_retargeted(rt: HostRuntime) -> Result<(), Fail> {
    let alloc = rt.alloc();
    assert!(rt; moves_one(&rt, alloc)?);
    Ok(())
}

/// Whether the lock is granted, to move the first two units to disks 10 and 11.
fn grants_two(reply: Reply) -> bool {
    match reply {
        Reply::Granted { lock, moves } => {
            lock == LOCK
                && moves.len() == 2
                && leads_to(&moves, 0, 2, 10)
                && leads_to(&moves, 1, 2, 11)
        }
        _ => false,
    }
}

/// Whether a lock of the first two units to disks 10 and 11 is granted.
fn locks_two(
    rt: &impl Abort,
    alloc: Global,
    entry: &mut Entry<MemFile>,
) -> Result<bool, EntryFault> {
    Ok(grants_two(lock(rt, alloc, entry, 0, TASK, &[10, 11])?))
}

/// Whether a swap waits for the fence of the unit of an index, which is then heard.
fn waits_and_hears(
    rt: &impl Abort,
    entry: &mut Entry<MemFile>,
    index: u8,
) -> Result<bool, EntryFault> {
    Ok(lacks_fence(rt, entry)? && hears_fence(entry, index)?)
}

/// Whether a swap waits for the fences of both units, and then for listings.
fn waits_for_both(rt: &impl Abort, entry: &mut Entry<MemFile>) -> Result<bool, EntryFault> {
    Ok(
        waits_and_hears(rt, entry, 0)?
            && waits_and_hears(rt, entry, 1)?
            && lacks_listings(rt, entry)?,
    )
}

/// Whether two units are locked, and the swap waits for both.
fn moves_two(rt: &impl Abort, alloc: Global) -> Result<bool, EntryFault> {
    let mut entry = made(rt, alloc, &[])?;
    assert!(rt; matches!(locks_two(rt, alloc, &mut entry), Ok(true)));
    waits_for_both(rt, &mut entry)
}

#[test]
fn each_of_two_units_has_its_fence(rt: HostRuntime) -> Result<(), Fail> {
    let alloc = rt.alloc();
    assert!(rt; moves_two(&rt, alloc)?);
    Ok(())
}

/// Whether no lock moves two units to one disk.
fn refuses_shared_disk(
    rt: &impl Abort,
    alloc: Global,
    entry: &mut Entry<MemFile>,
) -> Result<bool, EntryFault> {
    Ok(matches!(
        lock(rt, alloc, entry, 0, TASK, &[10, 10])?,
        Reply::DestHeld { index: 0 }
    ))
}

/// Whether no lock moves a unit to a disk that is broken.
fn refuses_broken_disk(
    rt: &impl Abort,
    alloc: Global,
    entry: &mut Entry<MemFile>,
) -> Result<bool, EntryFault> {
    entry.break_disk(11);
    Ok(matches!(
        lock(rt, alloc, entry, 0, TASK, &[10, 11])?,
        Reply::DestBroken
    ))
}

/// Whether locks to a taken and to a broken disk are refused.
fn refuses_locks(rt: &impl Abort, alloc: Global) -> Result<bool, EntryFault> {
    let mut entry = made(rt, alloc, &[])?;
    assert!(rt; matches!(refuses_shared_disk(rt, alloc, &mut entry), Ok(true)));
    refuses_broken_disk(rt, alloc, &mut entry)
}

/// Whether nothing is retargeted where there is no lock.
fn refuses_unlocked(rt: &impl Abort, entry: &mut Entry<MemFile>) -> Result<bool, EntryFault> {
    Ok(matches!(retarget(rt, entry, TASK, 0, 10)?, Reply::NotLocked))
}

/// Whether two units are locked, and nothing was retargeted before.
fn locks_two_at_last(
    rt: &impl Abort,
    alloc: Global,
    entry: &mut Entry<MemFile>,
) -> Result<bool, EntryFault> {
    Ok(refuses_unlocked(rt, entry)? && locks_two(rt, alloc, entry)?)
}

/// Whether another task's lock isn't changed.
fn refuses_other_task(rt: &impl Abort, entry: &mut Entry<MemFile>) -> Result<bool, EntryFault> {
    Ok(matches!(
        retarget(rt, entry, 2, 0, 11)?,
        Reply::OtherTask { task: TASK }
    ))
}

/// Whether no unit is retargeted that the lock doesn't move.
fn refuses_unmoved(rt: &impl Abort, entry: &mut Entry<MemFile>) -> Result<bool, EntryFault> {
    Ok(matches!(retarget(rt, entry, TASK, 2, 11)?, Reply::NotMoved))
}

/// Whether the first unit is refused its own disk 10 once that breaks.
fn refuses_own_disk(rt: &impl Abort, entry: &mut Entry<MemFile>) -> Result<bool, EntryFault> {
    entry.break_disk(10);
    Ok(matches!(retarget(rt, entry, TASK, 0, 10)?, Reply::DestBroken))
}

/// Whether the first unit is refused the disk to which the second goes.
fn refuses_promised(rt: &impl Abort, entry: &mut Entry<MemFile>) -> Result<bool, EntryFault> {
    Ok(matches!(
        retarget(rt, entry, TASK, 0, 11)?,
        Reply::DestHeld { index: 1 }
    ))
}

/// Whether the first unit is refused the disk on which the third stands.
fn refuses_taken(rt: &impl Abort, entry: &mut Entry<MemFile>) -> Result<bool, EntryFault> {
    Ok(matches!(
        retarget(rt, entry, TASK, 0, 3)?,
        Reply::DestHeld { index: 2 }
    ))
}

/// Whether a broken, a promised and a taken disk are refused.
fn refuses_disks(rt: &impl Abort, entry: &mut Entry<MemFile>) -> Result<bool, EntryFault> {
    Ok(refuses_own_disk(rt, entry)? && refuses_promised(rt, entry)? && refuses_taken(rt, entry)?)
}

/// Whether retargets are refused to another task, of another unit, and to such disks.
fn refuses_each(rt: &impl Abort, entry: &mut Entry<MemFile>) -> Result<bool, EntryFault> {
    Ok(refuses_other_task(rt, entry)? && refuses_unmoved(rt, entry)? && refuses_disks(rt, entry)?)
}

/// Whether retargets are refused before a lock, and under it.
fn refuses_retargets(rt: &impl Abort, alloc: Global) -> Result<bool, EntryFault> {
    let mut entry = made(rt, alloc, &[])?;
    assert!(rt; matches!(locks_two_at_last(rt, alloc, &mut entry), Ok(true)));
    refuses_each(rt, &mut entry)
}

#[test]
fn a_move_to_a_broken_or_taken_disk_is_refused(rt: HostRuntime) -> Result<(), Fail> {
    let alloc = rt.alloc();
    assert!(rt; refuses_locks(&rt, alloc)?);
    assert!(rt; refuses_retargets(&rt, alloc)?);
    Ok(())
}

/// Whether the task is shown to have the lock.
fn is_held(entry: &Entry<MemFile>) -> Result<bool, EntryFault> {
    Ok(match entry.look(20)?.held {
        Some(held) => held.task == TASK && held.lock == LOCK,
        None => false,
    })
}

/// Whether a call on the file fails in a lock, and the log is shut then.
fn fails_and_shuts(rt: &impl Abort, alloc: Global, entry: &mut Entry<MemFile>) -> bool {
    matches!(
        lock(rt, alloc, entry, 0, TASK, &[10]),
        Err(EntryFault::Fault)
    ) && matches!(swap(rt, entry, TASK), Err(EntryFault::Shut))
}

/// Whether a start finds the lock's record, and the task has the lock then, or neither is so.
fn starts_with(entry: &mut Entry<MemFile>, is_there: bool) -> Result<bool, EntryFault> {
    Ok(entry.start()? == is_there && is_held(entry)? == is_there)
}

/// Whether a lock of which this call on the file fails is there after a start, or isn't.
fn leaves(rt: &impl Abort, alloc: Global, call: u64, is_there: bool) -> Result<bool, EntryFault> {
    let mut entry = made(rt, alloc, &[call])?;
    assert!(rt; fails_and_shuts(rt, alloc, &mut entry));
    starts_with(&mut entry, is_there)
}

#[test]
fn a_failed_call_leaves_a_lock_in_doubt(rt: HostRuntime) -> Result<(), Fail> {
    // The making takes eight calls. The record of the lock is written and settled, and then the gate before it.
    let alloc = rt.alloc();
    assert!(rt; leaves(&rt, alloc, 9, false)?);
    assert!(rt; leaves(&rt, alloc, 10, false)?);
    assert!(rt; leaves(&rt, alloc, 11, true)?);
    assert!(rt; leaves(&rt, alloc, 12, true)?);
    Ok(())
}

/// Whether a lock of the first unit to disk 10 is told that no epoch is left.
fn refuses_epoch(
    rt: &impl Abort,
    alloc: Global,
    entry: &mut Entry<MemFile>,
) -> Result<bool, EntryFault> {
    Ok(matches!(lock(rt, alloc, entry, 10, TASK, &[10])?, Reply::EpochSpent))
}

/// Whether units of the last epoch can't be moved.
fn has_no_epoch(rt: &impl Abort, alloc: Global) -> Result<bool, EntryFault> {
    let mut entry = made_in(rt, alloc, LAST_EPOCH, &[])?;
    refuses_epoch(rt, alloc, &mut entry)
}

/// Whether the first unit may go to disk 10 in the last epoch.
fn grants_last(
    rt: &impl Abort,
    alloc: Global,
    entry: &mut Entry<MemFile>,
) -> Result<bool, EntryFault> {
    Ok(grants_one(lock(rt, alloc, entry, 10, TASK, &[10])?, LAST_EPOCH, 10))
}

/// Whether it may then go to no other disk, once disk 10 breaks.
fn replaces_none(rt: &impl Abort, entry: &mut Entry<MemFile>) -> Result<bool, EntryFault> {
    entry.break_disk(10);
    Ok(matches!(retarget(rt, entry, TASK, 0, 11)?, Reply::EpochSpent))
}

fn spends_last(
    rt: &impl Abort,
    alloc: Global,
    entry: &mut Entry<MemFile>,
) -> Result<bool, EntryFault> {
    Ok(grants_last(rt, alloc, entry)? && replaces_none(rt, entry)?)
}

/// Whether units of the last epoch but one can be moved once.
fn has_one_epoch(rt: &impl Abort, alloc: Global) -> Result<bool, EntryFault> {
    let mut entry = made_in(rt, alloc, LAST_EPOCH - 1, &[])?;
    spends_last(rt, alloc, &mut entry)
}

#[test]
fn epochs_come_to_their_end(rt: HostRuntime) -> Result<(), Fail> {
    let alloc = rt.alloc();
    assert!(rt; has_no_epoch(&rt, alloc)?);
    assert!(rt; has_one_epoch(&rt, alloc)?);
    Ok(())
}

/// Whether a swap is told that the destination broke.
fn refuses_broken_swap(rt: &impl Abort, entry: &mut Entry<MemFile>) -> Result<bool, EntryFault> {
    entry.break_disk(10);
    Ok(matches!(swap(rt, entry, TASK)?, Reply::DestBroken))
}

fn breaks_before_swap(
    rt: &impl Abort,
    alloc: Global,
    entry: &mut Entry<MemFile>,
) -> Result<bool, EntryFault> {
    Ok(locks_one(rt, alloc, entry)? && refuses_broken_swap(rt, entry)?)
}

/// Whether no unit is put in whose destination broke.
fn keeps_units_of_broken_moves(rt: &impl Abort, alloc: Global) -> Result<bool, EntryFault> {
    let mut entry = made(rt, alloc, &[])?;
    breaks_before_swap(rt, alloc, &mut entry)
}

#[test]
fn no_swap_to_a_broken_disk(rt: HostRuntime) -> Result<(), Fail> {
    let alloc = rt.alloc();
    assert!(rt; keeps_units_of_broken_moves(&rt, alloc)?);
    Ok(())
}
