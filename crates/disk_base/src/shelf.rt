//! A shelf of files, each under a number.

ghost use Rattle.std.specs.Prelude.{◌≡◌, ◌↔◌, IsTrue, IfSome, IsErrOf, false, true};
ghost use Rattle.disk_base.specs.Places.{is_there};
ghost use Rattle.disk_base.specs.Shelves.{ShelfView, IsShelf, ShelfCall, Lists, Opens, Makes, Removes, TakesBack};
ghost use Rattle.disk_base.specs.declared.fault.ShelfFault.TheVariants.{Exists, Absent};

use crate::{Extent, ShelfFault};
use std::alloc::Global;

/// Files under numbers.
///
/// It is seen as a `ShelfView`. Every shelf tells which of its files are handed out now. Whether there is a file of
/// a name, and which one, is told by a shelf that is told; another shelf knows it of the names that it has
/// listed, made, opened or refused to make.
///
/// **What a crash leaves.** A make, an open and a remove that answer Ok are permanent. A make that fails leaves no
/// file or an empty one, and a remove that fails leaves the file or none, now and after a crash. A crash inside
/// a call leaves what one before or after that call may leave.
pub trait Shelf: Drop {
    type File: Extent;

    /// What the shelf is seen as.
    ghost seen: { Self → ShelfView Self.File };

    /// The names of all files, ascending.
    ///
    /// # Errors
    /// `Failed` and `Memory`.
    fn names(&mut self, alloc: Global) -> Result<Vec<u64>, ShelfFault>
        ensures call { ShelfCall (seen self.old) (seen self.new) result }
        ensures answer { Lists (seen self.old) (seen self.new) result };

    /// Hands out a file that is there. It isn't out now.
    ///
    /// # Errors
    /// `Absent` exactly where there is no such file, where that is known; `Failed` and `Memory`.
    fn open(&mut self, alloc: Global, name: u64) -> Result<Self::File, ShelfFault>
        requires { (seen self.old).is_out name ≡ false }
        ensures call { ShelfCall (seen self.old) (seen self.new) result }
        ensures absent { IfSome (is_there ((seen self.old).place name)) (λ there. IsErrOf result Absent ↔ (there ≡ false)) }
        ensures answer { Opens Self.File.seen name (seen self.old) (seen self.new) result };

    /// Makes an empty file and hands it out.
    ///
    /// # Errors
    /// `Exists` exactly where there is such a file, where that is known; `Failed` and `Memory`.
    fn make(&mut self, alloc: Global, name: u64) -> Result<Self::File, ShelfFault>
        ensures call { ShelfCall (seen self.old) (seen self.new) result }
        ensures exists { IfSome (is_there ((seen self.old).place name)) (λ there. IsErrOf result Exists ↔ IsTrue there) }
        ensures answer { Makes Self.File.seen name (seen self.old) (seen self.new) result };

    /// Removes a file. It isn't out now. It takes no memory.
    ///
    /// # Errors
    /// `Absent` exactly where there is no such file, where that is known; `Failed`.
    fn remove(&mut self, name: u64) -> Result<(), ShelfFault>
        requires { (seen self.old).is_out name ≡ false }
        ensures call { ShelfCall (seen self.old) (seen self.new) result }
        ensures absent { IfSome (is_there ((seen self.old).place name)) (λ there. IsErrOf result Absent ↔ (there ≡ false)) }
        ensures answer { Removes name (seen self.old) (seen self.new) result };

    /// Takes back a file that was handed out under that name, with its content and its count of faults.
    /// It takes no memory and is no call on the device.
    fn hold(&mut self, name: u64, file: Self::File)
        requires { (seen self.old).is_out name ≡ true }
        ensures { TakesBack Self.File.seen name file (seen self.old) (seen self.new) };

    /// What is true of every shelf is true of this one.
    ghost is_shelf: { (shelf : Self) → IsShelf Self.File.seen (seen shelf) };
}
