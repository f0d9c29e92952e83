//! What answers leave in memory.

use crate::heard::{Heard, moves_for};
use crate::held::{HeldLock, HeldTransfer};
use crate::record::{NewHome, UnitHome};
use std::alloc::Global;
use std::test::Fail;
use unit_id::{Answer, Bids, Request, UnitName};

/// A unit of the first epoch or of the second.
fn unit(index: u8, moved: bool) -> UnitName {
    let epoch = if moved { 2 } else { 1 };
    UnitName {
        vid: 1,
        index,
        epoch,
    }
}

/// A move of an index to a disk.
fn transfer(index: u8, disk: u32) -> HeldTransfer {
    HeldTransfer {
        index,
        old: UnitHome {
            epoch: 1,
            disk: u32::from(index) + 1,
        },
        dest: UnitHome { epoch: 2, disk },
    }
}

/// A lock of number 1 that moves units 0 and 3 from disks 1 and 4 to 10 and 11.
fn two_moves(alloc: Global) -> Result<HeldLock, Fail> {
    let mut transfers = Vec::new(alloc);
    transfers.push(transfer(0, 10))?;
    transfers.push(transfer(3, 11))?;
    Ok(HeldLock {
        task: 1,
        number: 1,
        transfers,
        is_swapped: false,
    })
}

/// Homes of six units on disks 1 to 6.
fn six_homes(alloc: Global) -> Result<Vec<UnitHome>, Fail> {
    let mut homes = Vec::new(alloc);
    for disk in 1..7u32 {
        homes.push(UnitHome { epoch: 1, disk })?;
    }
    Ok(homes)
}

/// A fence of an old unit under the lock of this number was answered so.
fn hear_fence(
    heard: &mut Heard,
    alloc: Global,
    lock: &HeldLock,
    index: u8,
    number: u64,
    answer: &Answer,
) -> Result<(), Fail> {
    let request = Request::Fence {
        unit: unit(index, false),
        disk: 1,
        lock: number,
    };
    heard.hear(alloc, &[], Some(lock), &request, answer)?;
    Ok(())
}

#[test]
fn each_old_unit_has_its_own_fence(rt: HostRuntime) -> Result<(), Fail> {
    let alloc = rt.alloc();
    let lock = two_moves(alloc)?;
    let mut heard = Heard::of(alloc, 6, &lock.transfers)?;
    hear_fence(&mut heard, alloc, &lock, 0, 1, &Answer::Done)?;
    hear_fence(&mut heard, alloc, &lock, 3, 2, &Answer::Done)?;
    hear_fence(&mut heard, alloc, &lock, 3, 1, &Answer::Broken)?;
    assert!(rt; heard.has_unfenced(&lock.transfers, &[]));
    hear_fence(&mut heard, alloc, &lock, 3, 1, &Answer::Done)?;
    assert!(rt; !heard.has_unfenced(&lock.transfers, &[]));
    assert!(rt; heard.has_unreleased(&lock.transfers, &[]));
    heard.unlock();
    assert!(rt; heard.has_unfenced(&lock.transfers, &[]));
    Ok(())
}

/// A mark of blob 7 at a unit was answered so.
fn hear_mark(
    heard: &mut Heard,
    alloc: Global,
    index: u8,
    moved: bool,
    answer: &Answer,
) -> Result<(), Fail> {
    let request = Request::Mark {
        unit: unit(index, moved),
        disk: 1,
        bid: 7,
    };
    heard.hear(alloc, &[], None, &request, answer)?;
    Ok(())
}

#[test]
fn marks_of_current_units_count_once(rt: HostRuntime) -> Result<(), Fail> {
    let alloc = rt.alloc();
    let homes = six_homes(alloc)?;
    let mut heard = Heard::of(alloc, 6, &[])?;
    hear_mark(&mut heard, alloc, 0, false, &Answer::Done)?;
    hear_mark(&mut heard, alloc, 0, false, &Answer::Already)?;
    hear_mark(&mut heard, alloc, 1, true, &Answer::Done)?;
    hear_mark(&mut heard, alloc, 2, false, &Answer::Absent)?;
    assert_eq!(rt; heard.mark_count(6, &homes, 7), 1);
    heard.reserve()?;
    heard.lock(Vec::new(alloc));
    assert_eq!(rt; heard.mark_count(6, &homes, 7), 1, "marks stay");
    assert_eq!(rt; heard.mark_count(6, &homes, 8), 0);
    Ok(())
}

/// A listing of a unit under the lock of this number shows these live blobs.
fn hear_listing(
    heard: &mut Heard,
    alloc: Global,
    homes: &[UnitHome],
    lock: &HeldLock,
    unit: UnitName,
    number: u64,
) -> Result<(), Fail> {
    let request = Request::List {
        unit,
        disk: 1,
        lock: number,
    };
    let mut live = Vec::new(alloc);
    live.push(7)?;
    let answer = Answer::Listing {
        lock: number,
        live: Bids::from_vec(live),
        marked: Bids::from_vec(Vec::new(alloc)),
    };
    heard.hear(alloc, homes, Some(lock), &request, &answer)?;
    Ok(())
}

#[test]
fn listings_of_current_units_count_once(rt: HostRuntime) -> Result<(), Fail> {
    let alloc = rt.alloc();
    let homes = six_homes(alloc)?;
    let lock = two_moves(alloc)?;
    let mut heard = Heard::of(alloc, 6, &lock.transfers)?;
    hear_listing(&mut heard, alloc, &homes, &lock, unit(1, false), 1)?;
    hear_listing(&mut heard, alloc, &homes, &lock, unit(1, false), 1)?;
    hear_listing(&mut heard, alloc, &homes, &lock, unit(2, true), 1)?;
    hear_listing(&mut heard, alloc, &homes, &lock, unit(4, false), 2)?;
    assert_eq!(rt; heard.listed_count(6, &homes, &[]), 1);
    assert_eq!(rt;
        heard.listed_count(6, &homes, &[false, false, true]),
        0,
        "on a broken disk"
    );
    heard.retarget(0);
    assert_eq!(rt; heard.listed_count(6, &homes, &[]), 1);
    let grant = NewHome {
        index: 0,
        dest: UnitHome { epoch: 3, disk: 9 },
    };
    heard.lock(moves_for(alloc, &[grant])?);
    assert_eq!(rt; heard.listed_count(6, &homes, &[]), 0);
    Ok(())
}
