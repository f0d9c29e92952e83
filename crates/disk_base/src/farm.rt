//! A root folder with a shelf for each disk and volume.

ghost use Rattle.std.specs.Prelude.{◌≡◌, true, false};
ghost use Rattle.disk_base.specs.Farms.{FarmView, IsFarm, FarmCall, Roots, LendsShelf, TakesShelfBack};

use crate::{FarmFault, Shelf};

/// All the shelves of a root.
///
/// It is seen as a `FarmView`. Every farm tells which shelves are handed out now. What the root has is what its
/// shelves have: handing out a shelf and taking it back moves it.
pub trait Farm: Drop {
    type Disk: Shelf;

    /// What the farm is seen as.
    ghost seen: { Self → FarmView Self.Disk };

    /// Makes the root of that name ready, and answers whether the admin's file is there: file 1 of the shelf
    /// of disk 0 and volume 0.
    ///
    /// # Errors
    /// Where the farm is told and no shelf is out, `NotEmpty` exactly where the root has a file and not that
    /// one; over any root only where an item was found in it. `Failed` and `Memory`.
    fn root(&mut self, name: &str) -> Result<bool, FarmFault>
        ensures call { FarmCall (seen self.old) (seen self.new) result }
        ensures answer { Roots Self.Disk.seen (seen self.old) (seen self.new) result };

    /// Hands out the shelf of that disk and volume; disk 0 is the manager's. It isn't out now. A shelf
    /// that was taken back comes with the files that it had.
    ///
    /// # Errors
    /// `Failed` and `Memory`.
    fn shelf(&mut self, disk: u32, vid: u32) -> Result<Self::Disk, FarmFault>
        requires { (seen self.old).is_out disk vid ≡ false }
        ensures call { FarmCall (seen self.old) (seen self.new) result }
        ensures answer { LendsShelf Self.Disk.seen disk vid (seen self.old) (seen self.new) result };

    /// Takes back a shelf that was handed out for that disk and volume, with its files and its count of
    /// faults. It takes no memory and is no call on the device.
    fn hold(&mut self, disk: u32, vid: u32, shelf: Self::Disk)
        requires { (seen self.old).is_out disk vid ≡ true }
        ensures { TakesShelfBack Self.Disk.seen disk vid shelf (seen self.old) (seen self.new) };

    /// What is true of every farm is true of this one.
    ghost is_farm: { (farm : Self) → IsFarm (seen farm) };
}
