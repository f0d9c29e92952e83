//! How a volume in memory is set up: what its files do, and its stations.

ghost use Rattle.std.specs.Prelude.{◌≡◌, false, is_some, IfOk};
ghost use Rattle.disk_base.specs.Images.{view_of};
ghost use Rattle.volume_entry.specs.Making.{IsNew};
ghost use Rattle.memory_volume.specs.Setting.{AreNew, IsNewOn};

use blob_node::Station;
use disk_base::{MemFile, MemShelf};
use std::alloc::{AllocError, AllocFailed, Global};

/// The number of a volume in memory.
pub(crate) const VID: u32 = 1;

/// How a volume in memory is set up.
#[derive(Drop)]
pub struct Setup {
    /// Whether the manager's log tells what it holds. One that doesn't answers right and never fails.
    pub tells: bool,
    /// The calls of the manager's log that fail, counted from 1, where it tells.
    pub log_fails: Vec<u64>,
    /// The disk some of whose calls fail; 0 is none.
    pub failing_disk: u32,
    /// The calls that fail of that disk's shelf and of the files there, numbered as `MemShelf::new` does.
    pub disk_fails: Vec<u64>,
    /// The epoch of the unit of index 0. Each other unit begins with epoch 1.
    pub first_epoch: u32,
}

impl Setup {
    /// Files that tell what they hold and never fail, and epoch 1. It takes no memory.
    pub fn plain(alloc: Global) -> Setup {
        Setup {
            tells: true,
            log_fails: Vec::new(alloc),
            failing_disk: 0,
            disk_fails: Vec::new(alloc),
            first_epoch: 1,
        }
    }
}

/// A file for the manager's log, in which nothing stands.
pub(crate) fn log_file(alloc: Global, tells: bool, fails: Vec<u64>) -> MemFile
    ensures new { IsNew (view_of result) }
    ensures told { tells ≡ false → is_some (view_of result).content ≡ false }
{
    if tells {
        MemFile::new(alloc, fails)
    } else {
        MemFile::lying(alloc, Vec::new(alloc))
    }
}

/// The calls of a disk that fail.
fn fails_of(alloc: Global, setup: &Setup, disk: u32) -> Result<Vec<u64>, AllocError> {
    if disk == setup.failing_disk {
        Vec::from_slice(alloc, &setup.disk_fails)
    } else {
        Ok(Vec::new(alloc))
    }
}

/// The station of the volume on a disk.
fn station(alloc: Global, setup: &Setup, disk: u32) -> Result<Station<MemShelf>, AllocError>
    ensures { IfOk result (λ station. IsNewOn disk station) }
{
    let fails = fails_of(alloc, setup, disk)?;
    Ok(Station::make(alloc, MemShelf::new(alloc, fails), VID, disk))
}

/// The stations of the volume on the first so many disks.
pub(crate) fn stations(
    alloc: Global,
    setup: &Setup,
    disks: u32,
) -> Result<Vec<Station<MemShelf>>, AllocError>
    ensures { IfOk result (λ stations. AreNew disks stations.items) }
{
    let mut stations = Vec::new(alloc);
    'disks: for count in 0..disks {
        stations.push(station(alloc, setup, count + 1)?)?;
    }
    Ok(stations)
}
