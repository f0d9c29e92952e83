//! The shelves of a volume go back to their farm.

ghost use Rattle.std.specs.Prelude.{◌≡◌, length, true};
ghost use Rattle.volume_world.specs.Stations.{AreOn};
ghost use Rattle.farm_volume.specs.Lending.{AreOut, Returns, ReturnsLog};

use blob_node::Station;
use disk_base::{Farm, Shelf};

/// Hands the shelf of each station back, the last first.
pub(crate) fn return_stations<F: Farm>(farm: &mut F, vid: u32, stations: Vec<Station<F::Disk>>)
    requires on { AreOn vid 1 stations.items }
    requires out { AreOut vid 1 (length stations.items) (F.seen farm.old) }
    ensures { Returns F.Disk.seen F.Disk.File.seen vid 1 stations.items (F.seen farm.old) (F.seen farm.new) }
{
    let mut stations = stations;
    while let Some(station) = stations.pop() {
        let disk = station.disk();
        farm.hold(disk, vid, station.into_shelf());
    }
}

/// Hands the log's file to the shelf of disk 0, and this to the farm.
pub(crate) fn return_log<F: Farm>(
    farm: &mut F,
    vid: u32,
    manager: F::Disk,
    file: <F::Disk as Shelf>::File,
)
    requires file { (F.Disk.seen manager).is_out vid ≡ true }
    requires shelf { (F.seen farm.old).is_out 0 vid ≡ true }
    ensures { ReturnsLog F.Disk.seen F.Disk.File.seen vid manager file (F.seen farm.old) (F.seen farm.new) }
{
    let mut manager = manager;
    manager.hold(u64::from(vid), file);
    farm.hold(0, vid, manager);
}
