//! A move of a unit from the lock to the unlock, and the delete of a blob, over a file in memory.

ghost use Rattle.std.specs.Prelude.{◌≡◌, true};
ghost use Rattle.volume_entry.specs.Entry.{HasRoomIfOpen};
ghost use Rattle.volume_entry.specs.ManagerStep.{AreTargets, IsTarget};
ghost use Rattle.volume_entry.specs.TableParts.{shape_of};

use crate::legal::is_disk;
use crate::record::UnitHome;
use crate::{Entry, EntryFault, ManagerReply as Reply, Shape, are_first_homes};
use code_mode::Mode;
use disk_base::{Extent, MemFile};
use std::alloc::Global;
use std::process::Abort;
use std::test::Fail;
use unit_id::{Answer, Bids, Bytes, Home, Homes, Request, Target, Targets, UnitName};

const VID: u32 = 1;

/// Six data shards of nine; seven units are enough to see.
const SHAPE: Shape = Shape {
    mode: Mode::Ec6P3,
    disks: 11,
};

/// The task that moves the first unit, and another one.
const TASK: u64 = 1;

const OTHER: u64 = 2;

/// The number of the task's lock.
const LOCK: u64 = 1;

/// The disk to which the first unit goes.
const DEST: u32 = 10;

/// The blob that is deleted.
const BID: u64 = 7;

/// A volume in a new file, with homes on disks 1 to 9.
fn made(rt: &impl Abort, alloc: Global) -> Result<Entry<MemFile>, EntryFault> {
    let mut homes = Vec::new(alloc);
    for disk in 1..10u32 {
        homes.push(UnitHome { epoch: 1, disk })?;
    }
    assert!(rt; are_first_homes(SHAPE, &homes));
    match Entry::make(
        alloc,
        MemFile::new(alloc, Vec::new(alloc)),
        VID,
        SHAPE,
        &homes,
    ) {
        Ok(entry) => Ok(entry),
        Err((fault, _file)) => Err(fault),
    }
}

/// Whether there is room for a step's record, where the log isn't shut.
fn has_room(entry: &Entry<MemFile>) -> bool
    ensures { result ≡ true → HasRoomIfOpen entry.now.book.log.end }
{
    match entry.end() {
        Some(end) => end < 100_000,
        None => true,
    }
}

/// Whether the volume has the index, and may use the disk.
fn is_target(shape: Shape, target: Target) -> bool
    ensures { result ≡ true → IsTarget (shape_of shape) target }
{
    u32::from(target.index) < shape.mode.total() && is_disk(shape, target.disk)
}

/// Whether one lock may be asked to move this one unit.
fn are_targets(shape: Shape, targets: &[Target]) -> bool
    ensures { result ≡ true → AreTargets (shape_of shape) targets.now }
{
    match targets {
        [one] => is_target(shape, *one) && shape.mode.n() < shape.mode.quorum(),
        _ => false,
    }
}

/// Whether a lock of this volume may be asked to move this one unit.
fn may_lock(entry: &Entry<MemFile>, targets: &Targets) -> bool
    ensures { result ≡ true → AreTargets (shape_of entry.now.book.shape) targets.now }
{
    are_targets(entry.book.shape, targets.as_slice())
}

/// The first unit, to its new disk.
fn first_target(alloc: Global) -> Result<Targets, EntryFault> {
    let mut targets = Vec::new(alloc);
    targets.push(Target {
        index: 0,
        disk: DEST,
    })?;
    Ok(Targets::from_vec(targets))
}

/// The task locks the volume, to move the first unit.
fn lock(rt: &impl Abort, alloc: Global, entry: &mut Entry<MemFile>) -> Result<Reply, EntryFault> {
    let targets = first_target(alloc)?;
    assert!(rt; may_lock(entry, &targets));
    assert!(rt; has_room(entry));
    entry.lock(0, TASK, &targets)
}

/// Whether the task is granted the lock.
fn locks(rt: &impl Abort, alloc: Global, entry: &mut Entry<MemFile>) -> Result<bool, EntryFault> {
    Ok(matches!(lock(rt, alloc, entry)?, Reply::Granted { lock: 1, .. }))
}

/// A volume that the task has locked, to move the first unit.
fn locked(rt: &impl Abort, alloc: Global) -> Result<Entry<MemFile>, EntryFault> {
    let mut entry = made(rt, alloc)?;
    assert!(rt; matches!(locks(rt, alloc, &mut entry), Ok(true)));
    Ok(entry)
}

fn swap(rt: &impl Abort, entry: &mut Entry<MemFile>, task: u64) -> Result<Reply, EntryFault> {
    assert!(rt; has_room(entry));
    entry.swap(task)
}

fn unlock(rt: &impl Abort, entry: &mut Entry<MemFile>, task: u64) -> Result<Reply, EntryFault> {
    assert!(rt; has_room(entry));
    entry.unlock(task)
}

/// A unit of the first epoch, or of the second.
fn unit(index: u8, moved: bool) -> UnitName {
    let epoch = if moved { 2 } else { 1 };
    UnitName {
        vid: VID,
        index,
        epoch,
    }
}

/// The disk on which the unit of an index stands at first.
fn first_disk(index: u8) -> u32 {
    u32::from(index) + 1
}

/// It is heard that the old unit is fenced under the lock.
fn hear_fence(entry: &mut Entry<MemFile>) -> Result<(), EntryFault> {
    entry.reserve()?;
    let request = Request::Fence {
        unit: unit(0, false),
        disk: first_disk(0),
        lock: LOCK,
    };
    entry.hear(&request, &Answer::Done)
}

/// It is heard that the old unit is released.
fn hear_release(entry: &mut Entry<MemFile>) -> Result<(), EntryFault> {
    entry.reserve()?;
    let request = Request::Release {
        unit: unit(0, false),
        disk: first_disk(0),
    };
    entry.hear(&request, &Answer::Done)
}

/// A listing of a current unit under the lock shows these blobs live, and none marked.
fn hear_listing(
    alloc: Global,
    entry: &mut Entry<MemFile>,
    index: u8,
    live: &[u64],
) -> Result<(), EntryFault> {
    entry.reserve()?;
    let request = Request::List {
        unit: unit(index, false),
        disk: first_disk(index),
        lock: LOCK,
    };
    let answer = Answer::Listing {
        lock: LOCK,
        live: Bids::from_vec(live.to_vec(alloc)?),
        marked: Bids::from_vec(Vec::new(alloc)),
    };
    entry.hear(&request, &answer)
}

/// Listings of the current units of these indexes, each with these blobs live.
fn hear_listings(
    alloc: Global,
    entry: &mut Entry<MemFile>,
    indexes: &[u8],
    live: &[u64],
) -> Result<(), EntryFault> {
    for index in indexes {
        hear_listing(alloc, entry, *index, live)?;
    }
    Ok(())
}

/// Whether a swap waits for the fence of the old unit.
fn waits_for_fence(rt: &impl Abort, entry: &mut Entry<MemFile>) -> Result<bool, EntryFault> {
    Ok(matches!(swap(rt, entry, TASK)?, Reply::NotFenced))
}

/// Whether a swap is done now.
fn swaps(rt: &impl Abort, entry: &mut Entry<MemFile>) -> Result<bool, EntryFault> {
    Ok(matches!(swap(rt, entry, TASK)?, Reply::Done))
}

/// Whether a swap waits for a seventh listing, behind the fence and six.
fn waits_for_listings(
    rt: &impl Abort,
    alloc: Global,
    entry: &mut Entry<MemFile>,
) -> Result<bool, EntryFault> {
    hear_fence(entry)?;
    hear_listings(alloc, entry, &[0, 1, 2, 3, 4, 5], &[])?;
    Ok(matches!(swap(rt, entry, TASK)?, Reply::NotListed { have: 6 }))
}

/// Whether the seventh listing lets a swap through.
fn swaps_behind_listings(
    rt: &impl Abort,
    alloc: Global,
    entry: &mut Entry<MemFile>,
) -> Result<bool, EntryFault> {
    hear_listing(alloc, entry, 8, &[])?;
    swaps(rt, entry)
}

/// Whether an unlock waits for the release of the old unit.
fn waits_for_release(rt: &impl Abort, entry: &mut Entry<MemFile>) -> Result<bool, EntryFault> {
    Ok(matches!(unlock(rt, entry, TASK)?, Reply::NotReleased))
}

/// Whether the release lets an unlock through.
fn unlocks_behind_release(rt: &impl Abort, entry: &mut Entry<MemFile>) -> Result<bool, EntryFault> {
    hear_release(entry)?;
    Ok(matches!(unlock(rt, entry, TASK)?, Reply::Done))
}

/// Whether the first unit is swapped behind its fence and seven listings.
fn moves(rt: &impl Abort, alloc: Global, entry: &mut Entry<MemFile>) -> Result<bool, EntryFault> {
    Ok(
        waits_for_fence(rt, entry)?
            && waits_for_listings(rt, alloc, entry)?
            && swaps_behind_listings(rt, alloc, entry)?,
    )
}

/// Whether the first of these units stands on its new disk in its second epoch.
fn stands_moved(units: &Homes) -> bool {
    match units.as_slice().get(0) {
        Some(home) => {
            let Home { unit, disk, .. } = *home;
            unit.index == 0 && unit.epoch == 2 && disk == DEST
        }
        None => false,
    }
}

/// Whether a look shows the second version with the first unit moved, and the lock or none.
fn shows_moved(entry: &Entry<MemFile>, is_held: bool) -> Result<bool, EntryFault> {
    let view = entry.look(20)?;
    Ok(view.version == 2 && view.held.is_some() == is_held && stands_moved(&view.units))
}

/// Whether neither a swap nor an unlock is allowed without a lock.
fn lacks_lock(rt: &impl Abort, entry: &mut Entry<MemFile>) -> Result<bool, EntryFault> {
    Ok(
        matches!(swap(rt, entry, TASK)?, Reply::NotLocked)
            && matches!(unlock(rt, entry, TASK)?, Reply::NotLocked),
    )
}

/// Whether the lock ends behind the release, and not before. The unit stays on its new disk.
fn ends(rt: &impl Abort, entry: &mut Entry<MemFile>) -> Result<bool, EntryFault> {
    Ok(
        waits_for_release(rt, entry)?
            && shows_moved(entry, true)?
            && unlocks_behind_release(rt, entry)?
            && shows_moved(entry, false)?
            && lacks_lock(rt, entry)?,
    )
}

/// Whether a unit is moved from lock to unlock.
fn is_moved(rt: &impl Abort, alloc: Global) -> Result<bool, EntryFault> {
    let mut entry = locked(rt, alloc)?;
    assert!(rt; matches!(moves(rt, alloc, &mut entry), Ok(true)));
    ends(rt, &mut entry)
}

#[test]
fn a_move_has_a_fence_seven_listings_and_a_release(rt: HostRuntime) -> Result<(), Fail> {
    let alloc = rt.alloc();
    assert!(rt; is_moved(&rt, alloc)?);
    Ok(())
}

/// It is heard that the first unit, the old one or the one at its destination, has a copy of a blob now.
fn hear_copy(
    alloc: Global,
    entry: &mut Entry<MemFile>,
    moved: bool,
    bid: u64,
) -> Result<(), EntryFault> {
    entry.reserve()?;
    let request = Request::Copy {
        unit: unit(0, moved),
        disk: if moved { DEST } else { first_disk(0) },
        bid,
        blob_size: 0,
        bytes: Bytes::from_vec(Vec::new(alloc)),
    };
    entry.hear(&request, &Answer::Done)
}

/// Blob 7 is live at seven units, blob 5 at six, and blob 3 at five, which are too few.
fn hear_blobs(alloc: Global, entry: &mut Entry<MemFile>) -> Result<(), EntryFault> {
    hear_listing(alloc, entry, 0, &[7])?;
    hear_listing(alloc, entry, 1, &[5, 7])?;
    hear_listings(alloc, entry, &[2, 3, 4, 5, 6], &[3, 5, 7])
}

/// Whether a swap lacks a copy of blob 5 first.
fn lacks_five(
    rt: &impl Abort,
    alloc: Global,
    entry: &mut Entry<MemFile>,
) -> Result<bool, EntryFault> {
    hear_fence(entry)?;
    hear_blobs(alloc, entry)?;
    Ok(matches!(swap(rt, entry, TASK)?, Reply::NotCopied { bid: 5 }))
}

/// Whether a swap lacks blob 5 still when the old unit has a copy, and not the destination.
fn lacks_five_still(
    rt: &impl Abort,
    alloc: Global,
    entry: &mut Entry<MemFile>,
) -> Result<bool, EntryFault> {
    hear_copy(alloc, entry, false, 5)?;
    Ok(matches!(swap(rt, entry, TASK)?, Reply::NotCopied { bid: 5 }))
}

/// Whether a swap lacks a copy of blob 7 once blob 5 has one.
fn lacks_seven(
    rt: &impl Abort,
    alloc: Global,
    entry: &mut Entry<MemFile>,
) -> Result<bool, EntryFault> {
    hear_copy(alloc, entry, true, 5)?;
    Ok(matches!(swap(rt, entry, TASK)?, Reply::NotCopied { bid: 7 }))
}

/// Whether a swap lacks nothing once blob 7 has a copy too.
fn lacks_none(
    rt: &impl Abort,
    alloc: Global,
    entry: &mut Entry<MemFile>,
) -> Result<bool, EntryFault> {
    hear_copy(alloc, entry, true, 7)?;
    swaps(rt, entry)
}

/// Whether a swap waits for the copies, the least blob first.
fn lacks_both(
    rt: &impl Abort,
    alloc: Global,
    entry: &mut Entry<MemFile>,
) -> Result<bool, EntryFault> {
    Ok(
        lacks_five(rt, alloc, entry)?
            && lacks_five_still(rt, alloc, entry)?
            && lacks_seven(rt, alloc, entry)?,
    )
}

/// Whether a unit's blobs are copied before it is swapped.
fn is_copied(rt: &impl Abort, alloc: Global) -> Result<bool, EntryFault> {
    let mut entry = locked(rt, alloc)?;
    assert!(rt; matches!(lacks_both(rt, alloc, &mut entry), Ok(true)));
    lacks_none(rt, alloc, &mut entry)
}

#[test]
fn the_least_blob_is_copied_first(rt: HostRuntime) -> Result<(), Fail> {
    let alloc = rt.alloc();
    assert!(rt; is_copied(&rt, alloc)?);
    Ok(())
}

fn ask(rt: &impl Abort, entry: &mut Entry<MemFile>) -> Result<Reply, EntryFault> {
    assert!(rt; has_room(entry));
    entry.ask(BID)
}

fn commit(rt: &impl Abort, entry: &mut Entry<MemFile>) -> Result<Reply, EntryFault> {
    assert!(rt; has_room(entry));
    entry.commit(BID)
}

/// It is heard that the blob is marked now at the current unit of an index.
fn hear_mark(entry: &mut Entry<MemFile>, index: u8) -> Result<(), EntryFault> {
    entry.reserve()?;
    let request = Request::Mark {
        unit: unit(index, false),
        disk: first_disk(index),
        bid: BID,
    };
    entry.hear(&request, &Answer::Done)
}

/// Marks at the current units of these indexes.
fn hear_marks(entry: &mut Entry<MemFile>, indexes: &[u8]) -> Result<(), EntryFault> {
    for index in indexes {
        hear_mark(entry, *index)?;
    }
    Ok(())
}

/// Whether a commit waits for the delete to be asked for.
fn waits_for_ask(rt: &impl Abort, entry: &mut Entry<MemFile>) -> Result<bool, EntryFault> {
    Ok(matches!(commit(rt, entry)?, Reply::NotAsked))
}

/// Whether a delete is asked for now.
fn asks(rt: &impl Abort, entry: &mut Entry<MemFile>) -> Result<bool, EntryFault> {
    Ok(matches!(ask(rt, entry)?, Reply::Done))
}

/// Whether a delete was asked for before.
fn was_asked(rt: &impl Abort, entry: &mut Entry<MemFile>) -> Result<bool, EntryFault> {
    Ok(matches!(ask(rt, entry)?, Reply::Already))
}

/// Whether a delete is asked for once, and not committed before.
fn asks_once(rt: &impl Abort, entry: &mut Entry<MemFile>) -> Result<bool, EntryFault> {
    Ok(waits_for_ask(rt, entry)? && asks(rt, entry)? && was_asked(rt, entry)?)
}

/// Whether a commit waits for a seventh mark, behind six.
fn waits_for_marks(rt: &impl Abort, entry: &mut Entry<MemFile>) -> Result<bool, EntryFault> {
    hear_marks(entry, &[0, 1, 2, 3, 4, 5])?;
    Ok(matches!(commit(rt, entry)?, Reply::TooFewMarks { have: 6 }))
}

/// Whether the seventh mark lets a commit through.
fn commits_behind_marks(rt: &impl Abort, entry: &mut Entry<MemFile>) -> Result<bool, EntryFault> {
    hear_mark(entry, 8)?;
    Ok(matches!(commit(rt, entry)?, Reply::Done))
}

/// Whether a delete was committed before.
fn was_committed(rt: &impl Abort, entry: &mut Entry<MemFile>) -> Result<bool, EntryFault> {
    Ok(matches!(commit(rt, entry)?, Reply::Already))
}

/// Whether a delete that was asked for is committed once, behind seven marks.
fn commits_once(rt: &impl Abort, entry: &mut Entry<MemFile>) -> Result<bool, EntryFault> {
    Ok(waits_for_marks(rt, entry)? && commits_behind_marks(rt, entry)? && was_committed(rt, entry)?)
}

/// Whether a blob of a new volume is deleted.
fn is_deleted(rt: &impl Abort, alloc: Global) -> Result<bool, EntryFault> {
    let mut entry = made(rt, alloc)?;
    assert!(rt; matches!(asks_once(rt, &mut entry), Ok(true)));
    commits_once(rt, &mut entry)
}

#[test]
fn a_delete_needs_seven_marks(rt: HostRuntime) -> Result<(), Fail> {
    let alloc = rt.alloc();
    assert!(rt; is_deleted(&rt, alloc)?);
    Ok(())
}

fn lease(rt: &impl Abort, entry: &mut Entry<MemFile>) -> Result<Reply, EntryFault> {
    assert!(rt; has_room(entry));
    entry.lease(0)
}

/// Whether there is no lease while the task has the lock.
fn has_no_lease(rt: &impl Abort, entry: &mut Entry<MemFile>) -> Result<bool, EntryFault> {
    Ok(matches!(lease(rt, entry)?, Reply::Locked { task: 1 }))
}

/// Whether there is no commit while the task has the lock.
fn has_no_commit(rt: &impl Abort, entry: &mut Entry<MemFile>) -> Result<bool, EntryFault> {
    Ok(matches!(commit(rt, entry)?, Reply::Locked { task: 1 }))
}

/// Whether a delete may be asked for, but nothing else, while the task has the lock.
fn only_asks(rt: &impl Abort, entry: &mut Entry<MemFile>) -> Result<bool, EntryFault> {
    Ok(has_no_lease(rt, entry)? && asks(rt, entry)? && has_no_commit(rt, entry)?)
}

/// Whether the lock holds leases and commits up.
fn is_held_up(rt: &impl Abort, alloc: Global) -> Result<bool, EntryFault> {
    let mut entry = locked(rt, alloc)?;
    only_asks(rt, &mut entry)
}

#[test]
fn a_lock_holds_leases_and_commits_up(rt: HostRuntime) -> Result<(), Fail> {
    let alloc = rt.alloc();
    assert!(rt; is_held_up(&rt, alloc)?);
    Ok(())
}

/// Whether the lock isn't another task's.
fn refuses_other(rt: &impl Abort, entry: &mut Entry<MemFile>) -> Result<bool, EntryFault> {
    Ok(
        matches!(swap(rt, entry, OTHER)?, Reply::OtherTask { task: 1 })
            && matches!(unlock(rt, entry, OTHER)?, Reply::OtherTask { task: 1 }),
    )
}

/// Whether an unlock waits for the swap.
fn waits_for_swap(rt: &impl Abort, entry: &mut Entry<MemFile>) -> Result<bool, EntryFault> {
    Ok(matches!(unlock(rt, entry, TASK)?, Reply::NotSwapped))
}

/// Whether the lock's unit was swapped before.
fn was_swapped(rt: &impl Abort, entry: &mut Entry<MemFile>) -> Result<bool, EntryFault> {
    Ok(matches!(swap(rt, entry, TASK)?, Reply::AlreadySwapped))
}

/// Whether a new volume has no lock to swap or unlock.
fn is_unlocked(rt: &impl Abort, alloc: Global) -> Result<bool, EntryFault> {
    let mut entry = made(rt, alloc)?;
    lacks_lock(rt, &mut entry)
}

/// Whether another task is refused, and the lock's own may not unlock before it swaps.
fn is_held(rt: &impl Abort, alloc: Global) -> Result<bool, EntryFault> {
    let mut entry = locked(rt, alloc)?;
    assert!(rt; matches!(refuses_other(rt, &mut entry), Ok(true)));
    waits_for_swap(rt, &mut entry)
}

/// Whether units are swapped once.
fn is_swapped_once(rt: &impl Abort, alloc: Global) -> Result<bool, EntryFault> {
    let mut entry = locked(rt, alloc)?;
    assert!(rt; matches!(moves(rt, alloc, &mut entry), Ok(true)));
    was_swapped(rt, &mut entry)
}

#[test]
fn swaps_and_unlocks_need_their_lock(rt: HostRuntime) -> Result<(), Fail> {
    let alloc = rt.alloc();
    assert!(rt; is_unlocked(&rt, alloc)?);
    assert!(rt; is_held(&rt, alloc)?);
    assert!(rt; is_swapped_once(&rt, alloc)?);
    Ok(())
}
