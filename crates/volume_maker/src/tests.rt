//! Volumes over a farm in memory.

use crate::{NoVolume, make_volume};
use cluster_admin::{Admin, AdminFault, First, Placer};
use code_mode::Mode;
use disk_base::{Farm, MemFarm, Shelf};
use std::alloc::{AllocError, Global};
use volume_world::WorldFault;

/// Tables of so many disks, whose placer takes the first one that is free.
pub(crate) fn tables(alloc: Global, disks: u32) -> Result<Admin, AdminFault> {
    let first: Box<dyn Placer> = Box::new(alloc, First::new())?;
    let mut placers = Vec::new(alloc);
    placers.push(first)?;
    let mut admin = Admin::make(alloc, placers)?;
    admin.set_disks(disks)?;
    Ok(admin)
}

/// How making a volume of six units on so many disks ends, over a new farm of which these calls fail. The farm comes back.
fn made(alloc: Global, disks: u32, fails: Vec<u64>) -> Option<(MemFarm, Option<NoVolume>)> {
    let mut admin = tables(alloc, disks).ok()?;
    let mut farm = MemFarm::new(alloc, fails);
    match make_volume(alloc, &mut admin, &mut farm, Mode::Ec3P3) {
        Ok(volume) => {
            let _history = volume.into_farm(&mut farm);
            Some((farm, None))
        }
        Err(refusal) => Some((farm, Some(refusal))),
    }
}

/// The name of the only file on the first volume's shelf of a disk.
fn only_name(alloc: Global, farm: &mut MemFarm, disk: u32) -> Option<u64> {
    if farm.is_out(disk, 1) {
        return None;
    }
    let mut shelf = farm.shelf(disk, 1).ok()?;
    let names = shelf.names(alloc).ok()?;
    match names.as_slice() {
        [name] => Some(*name),
        _ => None,
    }
}

/// The first disk on whose shelf there isn't just the file that the format names: the log's on disk 0, and the unit of each
/// index on the disk of the next number.
fn first_without_its_file(alloc: Global) -> Option<u32> {
    let (mut farm, refusal) = made(alloc, 8, Vec::new(alloc))?;
    if refusal.is_some() {
        return Some(9);
    }
    let names = [
        (0, 1),
        (1, 0x1_0000_0001),
        (2, 0x1_0100_0001),
        (3, 0x1_0200_0001),
        (4, 0x1_0300_0001),
        (5, 0x1_0400_0001),
        (6, 0x1_0500_0001),
    ];
    for (disk, name) in names {
        if only_name(alloc, &mut farm, disk) != Some(name) {
            return Some(disk);
        }
    }
    None
}

/// Whether a volume that can't have this call is refused as a fault, with each shelf back.
fn is_refused_by(alloc: Global, call: u64) -> Option<bool> {
    let mut fails = Vec::new(alloc);
    fails.push(call).ok()?;
    let (farm, refusal) = made(alloc, 8, fails)?;
    let is_fault = matches!(
        refusal,
        Some(NoVolume::NotMade {
            cause: WorldFault::Fault
        })
    );
    Some(is_fault && are_back(&farm))
}

/// Whether no shelf of the first volume is out.
fn are_back(farm: &MemFarm) -> bool {
    (0..9).all(|disk| !farm.is_out(disk, 1))
}

/// The first call with which the volume isn't refused so: calls of the farm, of the shelf of disk 0 and of its file, and of
/// the shelf of a disk and its file.
fn first_not_refused(alloc: Global) -> Option<u64> {
    let calls = [
        1,
        2,
        7,
        0x1_0000_0000_0001,
        0x1_0001_0000_0001,
        0x2_0000_0000_0001,
        0x7_0001_0000_0002,
    ];
    for call in calls {
        if is_refused_by(alloc, call) != Some(true) {
            return Some(call);
        }
    }
    None
}

/// Whether tables with too few disks refuse a volume, and the farm keeps its shelves.
fn is_refused_by_tables(alloc: Global) -> Option<bool> {
    let (farm, refusal) = made(alloc, 5, Vec::new(alloc))?;
    let few = NoVolume::Refused {
        cause: AdminFault::FewDisks { have: 5, need: 6 },
    };
    Some(refusal == Some(few) && are_back(&farm))
}

#[test]
fn a_volume_is_refused_by_each_call_that_fails(rt: HostRuntime) -> Result<(), AllocError> {
    assert_eq!(rt; first_not_refused(rt.alloc()), None);
    Ok(())
}

#[test]
fn a_volume_wants_a_disk_for_each_unit(rt: HostRuntime) -> Result<(), AllocError> {
    assert_eq!(rt; is_refused_by_tables(rt.alloc()), Some(true));
    Ok(())
}

#[test]
fn a_volume_has_its_files_in_the_farm(rt: HostRuntime) -> Result<(), AllocError> {
    assert_eq!(rt; first_without_its_file(rt.alloc()), None);
    Ok(())
}
