//! A volume over the shelves of a farm.

ghost use Rattle.std.specs.Prelude.{◌≡◌, ◌+◌, true};
ghost use Rattle.volume_world.specs.WorldWay.{IsWorld, way_of};
ghost use Rattle.farm_volume.specs.Lending.{AreOut};
ghost use Rattle.farm_volume.specs.FarmVolume.{IsBack};
ghost use Rattle.farm_volume.specs.Making.{CanMake, Makes};

use crate::lending::{lend_log, lend_stations};
use crate::returning::{return_log, return_stations};
use code_mode::Mode;
use disk_base::Farm;
use std::alloc::Global;
use std::marker::Model;
use unit_id::Home;
use volume_world::{Event, Port, Reply, StepFault, Trace, World, WorldFault};

/// One volume over the shelves of a farm, which are out while it lives.
///
/// It is seen as the shelf of its manager's log, whose file is out, and its world.
#[derive(Drop)]
pub struct FarmVolume<F: Farm> {
    manager: F::Disk,
    world: World<F::Disk>,
}

impl<F: Farm> Model for FarmVolume<F> {
    ghost use Rattle.std.specs.Prelude.{◌≡◌, true};
    ghost use Rattle.std.specs.Coded.{codes};
    ghost use Rattle.blob_node.specs.Station.{coded_station};
    ghost use Rattle.farm_volume.specs.FarmVolume.{VolumeOver};

    ghost Value = { VolumeOver F.Disk F.Disk.File };

    ghost coded = { Prim.hlevel (codes, coded_station F.Disk.code F.Disk.File.code) };

    ghost view = { λ volume. record { manager = volume.manager; world = volume.world } };

    ghost invariant = { λ volume. (F.Disk.seen volume.manager).is_out volume.world.vid ≡ true };
}

impl<F: Farm> FarmVolume<F> {
    /// A volume over shelves that were taken from a farm: those of its world's stations, and the one of disk 0, on which the
    /// manager's log has the file of the volume's number. Takes no memory.
    pub fn over(manager: F::Disk, world: World<F::Disk>) -> FarmVolume<F>
        requires { (F.Disk.seen manager).is_out world.vid ≡ true }
        ensures { result ≡ record { manager = manager; world = world } }
    {
        FarmVolume { manager, world }
    }

    /// A new volume of this mode on the disks from 1 on, with a unit at each of these homes: its log is made on the shelf of
    /// disk 0, and a station on that of each other disk. The farm has these shelves, and no file on them.
    ///
    /// # Errors
    /// Each leaves every shelf at the farm. `Fault` comes only where a call on the farm, a shelf or a file failed. A farm that
    /// doesn't tell what it holds may have files there: then `Spoiled` or `Damaged` says that one isn't new, and `Spoiled` with
    /// place 0 that there is a log of this number. Over a farm that tells, only `Fault` and `Memory` come.
    pub fn make(
        alloc: Global,
        farm: &mut F,
        vid: u32,
        mode: Mode,
        disks: u32,
        homes: &[Home],
    ) -> Result<FarmVolume<F>, WorldFault>
        requires { CanMake F.Disk.seen vid mode disks homes.now (F.seen farm.old) }
        ensures { Makes F.Disk.seen F.Disk.File.seen vid mode disks homes.now (F.seen farm.old) (F.seen farm.new) result }
    {
        let (manager, file) = lend_log(alloc, farm, vid)?;
        let stations = match lend_stations(alloc, farm, vid, disks) {
            Ok(stations) => stations,
            Err(fault) => {
                return_log(farm, vid, manager, file);
                return Err(fault);
            }
        };
        match World::make(alloc, vid, mode, stations, file, homes) {
            Ok(world) => Ok(FarmVolume::over(manager, world)),
            Err(refused) => {
                return_stations(farm, vid, refused.stations);
                return_log(farm, vid, manager, refused.file);
                Err(refused.fault)
            }
        }
    }

    /// Hands the log's file to the manager's shelf and each shelf to the farm, and gives the history. It takes no memory
    /// and is no call on the device. What always held of the world holds of what is handed back.
    pub fn into_farm(self, farm: &mut F) -> Vec<Trace>
        requires { AreOut self.world.vid 0 (self.world.shape.disks + 1) (F.seen farm.old) }
        ensures back { IsBack F.Disk.seen F.Disk.File.seen self (F.seen farm.old) (F.seen farm.new) }
        ensures history { result.items ≡ self.world.history.entries }
        ensures world { IsWorld F.Disk.seen F.Disk.File.seen self.world }
    {
        let vid = self.world.vid();
        let (stations, file, history) = self.world.into_parts();
        return_stations(farm, vid, stations);
        return_log(farm, vid, self.manager, file);
        history
    }
}

/// It is the way to its world's volume.
impl<F: Farm> Port for FarmVolume<F> {
    ghost seen = { λ volume. way_of F.Disk.seen F.Disk.File.seen volume.world };

    fn step(&mut self, event: Event) -> Result<Reply, StepFault> {
        World::step(&mut self.world, event)
    }

    fn mode(&self) -> Mode {
        World::mode(&self.world)
    }

    fn vid(&self) -> u32 {
        World::vid(&self.world)
    }

    fn is_way(&self) {
        Port::is_way(&self.world)
    }
}
