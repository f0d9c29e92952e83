//! With which homes a volume may be made.

ghost use Rattle.volume_entry.specs.Manager.{AreFirstHomes};
ghost use Rattle.volume_entry.specs.FirstHomes.{IsFresh, AreFresh};
ghost use Rattle.volume_entry.specs.TableParts.{shape_of, Tells};

use crate::legal::{LAST_EPOCH, is_disk, is_free};
use crate::record::UnitHome;
use crate::shape::Shape;

/// Whether a home has an epoch and a disk of the volume, and none of the others is on that disk.
fn is_fresh(shape: Shape, home: UnitHome, others: &[UnitHome]) -> bool
    ensures { Tells result (IsFresh (shape_of shape) home others.now) }
{
    let UnitHome { epoch, disk } = home;
    if epoch < 1 || epoch > LAST_EPOCH || !is_disk(shape, disk) {
        return false;
    }
    is_free(others, disk)
}

/// Whether each home is so, with those behind it.
fn are_fresh(shape: Shape, homes: &[UnitHome]) -> bool
    ensures { Tells result (AreFresh (shape_of shape) homes.now) }
{
    match homes {
        [] => true,
        [first, others @ ..] => is_fresh(shape, *first, others) && are_fresh(shape, others),
    }
}

/// Whether a volume may be made with these homes, in index order: one for each index, with epochs of 1 to 16,777,215, on
/// different disks of the volume.
pub fn are_first_homes(shape: Shape, homes: &[UnitHome]) -> bool
    ensures { Tells result (AreFirstHomes (shape_of shape) homes.now) }
{
    homes.len() == shape.mode.total() as usize && are_fresh(shape, homes)
}
