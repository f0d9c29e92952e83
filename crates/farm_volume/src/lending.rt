//! Shelves are taken from a farm, and a volume's log and stations are made over them.

ghost use Rattle.std.specs.Prelude.{◌≡◌, ◌+◌, ◌<◌, ◌≤◌, false, length};
ghost use Rattle.farm_volume.specs.Lending.{AreBack};
ghost use Rattle.farm_volume.specs.Making.{AreFresh, IsFresh, LendsLog, LendsNext, LendsStation, LendsStations, log_fault, shelf_fault};

use crate::returning::return_stations;
use blob_node::Station;
use disk_base::{Farm, FarmFault, Shelf, ShelfFault};
use std::alloc::Global;
use volume_world::WorldFault;

/// Why a volume isn't made where the farm doesn't hand out a shelf.
fn shelf_fault(fault: FarmFault) -> WorldFault
    ensures { result ≡ shelf_fault fault }
{
    match fault {
        FarmFault::Failed => WorldFault::Fault,
        FarmFault::Memory => WorldFault::Memory,
        FarmFault::NotEmpty => WorldFault::Spoiled { place: 0 },
    }
}

/// Why a volume isn't made whose log's file isn't.
fn log_fault(fault: ShelfFault) -> WorldFault
    ensures { result ≡ log_fault fault }
{
    match fault {
        ShelfFault::Failed => WorldFault::Fault,
        ShelfFault::Memory => WorldFault::Memory,
        ShelfFault::Exists | ShelfFault::Absent => WorldFault::Spoiled { place: 0 },
    }
}

/// Takes the shelf of disk 0, and makes the log's file on it.
pub(crate) fn lend_log<F: Farm>(
    alloc: Global,
    farm: &mut F,
    vid: u32,
) -> Result<(F::Disk, <F::Disk as Shelf>::File), WorldFault>
    requires { (F.seen farm.old).is_out 0 vid ≡ false }
    ensures { LendsLog F.Disk.seen F.Disk.File.seen vid (F.seen farm.old) (F.seen farm.new) result }
{
    let mut manager = match farm.shelf(0, vid) {
        Ok(manager) => manager,
        Err(fault) => return Err(shelf_fault(fault)),
    };
    match manager.make(alloc, u64::from(vid)) {
        Ok(file) => Ok((manager, file)),
        Err(fault) => {
            farm.hold(0, vid, manager);
            Err(log_fault(fault))
        }
    }
}

/// Takes the shelf of a disk, and makes a station over it.
fn lend_station<F: Farm>(
    alloc: Global,
    farm: &mut F,
    vid: u32,
    disk: u32,
) -> Result<Station<F::Disk>, WorldFault>
    requires back { (F.seen farm.old).is_out disk vid ≡ false }
    requires fresh { IsFresh F.Disk.seen ((F.seen farm.old).place disk vid) }
    ensures { LendsStation F.Disk.seen F.Disk.File.seen vid disk (F.seen farm.old) (F.seen farm.new) result }
{
    match farm.shelf(disk, vid) {
        Ok(shelf) => Ok(Station::make(alloc, shelf, vid, disk)),
        Err(fault) => Err(shelf_fault(fault)),
    }
}

/// Makes the station of the next disk.
fn lend_next<F: Farm>(
    alloc: Global,
    farm: &mut F,
    vid: u32,
    stations: &mut Vec<Station<F::Disk>>,
) -> Result<(), WorldFault>
    requires few { length stations.old.items < 64 }
    requires back { (F.seen farm.old).is_out (1 + length stations.old.items) vid ≡ false }
    requires fresh { IsFresh F.Disk.seen ((F.seen farm.old).place (1 + length stations.old.items) vid) }
    ensures { LendsNext F.Disk.seen F.Disk.File.seen vid stations.old.items stations.new.items (F.seen farm.old) (F.seen farm.new) result }
{
    if stations.reserve(1).is_err() {
        return Err(WorldFault::Memory);
    }
    let disk = 1 + stations.len() as u32;
    let station = lend_station(alloc, farm, vid, disk)?;
    stations.push_reserved(station);
    Ok(())
}

/// Makes a station on each of so many disks from 1 on. A refusal gives each shelf back.
pub(crate) fn lend_stations<F: Farm>(
    alloc: Global,
    farm: &mut F,
    vid: u32,
    disks: u32,
) -> Result<Vec<Station<F::Disk>>, WorldFault>
    requires few { disks ≤ 64 }
    requires back { AreBack vid 1 disks (F.seen farm.old) }
    requires fresh { AreFresh F.Disk.seen vid 1 disks (F.seen farm.old) }
    ensures { LendsStations F.Disk.seen F.Disk.File.seen vid disks (F.seen farm.old) (F.seen farm.new) result }
{
    let mut stations = Vec::new(alloc);
    'shelves: while stations.len() < disks as usize {
        if let Err(fault) = lend_next(alloc, farm, vid, &mut stations) {
            return_stations(farm, vid, stations);
            return Err(fault);
        }
    }
    Ok(stations)
}
