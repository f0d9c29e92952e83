//! What a look at a volume shows.

ghost use Rattle.std.specs.Prelude.{◌≡◌, ◌≤◌, ◌∷◌, [], cond, length, Some, IfOk, option_copied};
ghost use Rattle.volume_entry.specs.Manager.{transfers_of};
ghost use Rattle.volume_entry.specs.View.{homes_shown, moves_shown};
ghost use Rattle.volume_entry.specs.ShownView.{lock_shown, view_shown};
ghost use Rattle.volume_entry.specs.Book.{IsEpoch, AreNamed, AreMovesNamed};
ghost use Rattle.volume_entry.specs.Entry.{is_broken, Looks};
ghost use Rattle.volume_entry.specs.Places.{ShowsPlaces};
ghost use Rattle.volume_entry.specs.TableParts.{shape_of};

use crate::book::Book;
use crate::counting::is_broken;
use crate::entry::Entry;
use crate::fault::EntryFault;
use crate::held::{HeldLock, HeldTransfer};
use crate::record::UnitHome;
use crate::view::{LockView, View};
use disk_base::Extent;
use unit_id::{Home, Homes, Move, Moves, UnitName};

/// The unit of an index at its home.
fn home_shown(vid: u32, index: u8, broken: &[bool], home: UnitHome) -> Home
    requires { IsEpoch home.epoch }
    ensures { result ∷ [] ≡ homes_shown vid index (is_broken broken.now) (home ∷ []) }
{
    let UnitHome { epoch, disk } = home;
    let unit = UnitName { vid, index, epoch };
    let broken = is_broken(broken, disk);
    Home { unit, disk, broken }
}

/// The homes of the units of a volume, in index order.
fn homes_shown(vid: u32, broken: &[bool], homes: &[UnitHome]) -> Homes
    requires few { length homes.now ≤ 27 }
    requires named { AreNamed homes.now }
    ensures { result ≡ homes_shown vid 0 (is_broken broken.now) homes.now }
{
    let mut shown = Homes::empty();
    for index in 0..homes.len() {
        let home = home_shown(vid, index as u8, broken, homes[index]);
        shown.push(home);
    }
    shown
}

/// The end of a transfer that is shown: before the swap its destination, and after it its old unit.
fn shown_end(transfer: HeldTransfer, swapped: bool) -> UnitHome
    ensures { result ≡ cond swapped transfer.old transfer.dest }
{
    if swapped { transfer.old } else { transfer.dest }
}

/// A unit that a lock moves.
fn move_shown(vid: u32, broken: &[bool], swapped: bool, transfer: HeldTransfer) -> Move
    requires { IsEpoch transfer.old.epoch × IsEpoch transfer.dest.epoch }
    ensures { result ∷ [] ≡ moves_shown vid (is_broken broken.now) swapped (transfer ∷ []) }
{
    let UnitHome { epoch, disk } = shown_end(transfer, swapped);
    let index = transfer.index;
    let unit = UnitName { vid, index, epoch };
    let dest_broken = is_broken(broken, transfer.dest.disk);
    Move {
        index,
        unit,
        disk,
        dest_broken,
    }
}

/// The units that a lock moves.
pub fn moves_shown(vid: u32, broken: &[bool], swapped: bool, transfers: &[HeldTransfer]) -> Moves
    requires few { length transfers.now ≤ 9 }
    requires named { AreMovesNamed transfers.now }
    ensures { result ≡ moves_shown vid (is_broken broken.now) swapped transfers.now }
{
    let mut shown = Moves::empty();
    for place in 0..transfers.len() {
        let item = move_shown(vid, broken, swapped, transfers[place]);
        shown.push(item);
    }
    shown
}

/// The lock, where a task has it.
fn lock_shown(vid: u32, broken: &[bool], lock: Option<&HeldLock>) -> Option<LockView>
    requires few { length (transfers_of (option_copied lock)) ≤ 9 }
    requires named { AreMovesNamed (transfers_of (option_copied lock)) }
    ensures { result ≡ lock_shown vid (is_broken broken.now) (option_copied lock.entry) }
{
    let lock = lock?;
    let swapped = lock.is_swapped;
    Some(LockView {
        task: lock.task,
        lock: lock.number,
        moves: moves_shown(vid, broken, swapped, &lock.transfers),
        swapped,
    })
}

impl<E: Extent> Book<E> {
    /// The volume at this time, with these flags of broken disks.
    fn shown(&self, now: u64, broken: &[bool]) -> View
        ensures shown { result ≡ view_shown self.now.vid (is_broken broken.now) now self.now.part }
        ensures places { ShowsPlaces self.now.vid (shape_of self.now.shape) result }
    {
        let vid = self.vid;
        let held = lock_shown(vid, broken, self.table.lock.as_ref());
        let units = homes_shown(vid, broken, &self.table.homes);
        View {
            now,
            version: self.table.version,
            lease: self.table.lease_end,
            held,
            units,
        }
    }
}

impl<E: Extent> Entry<E> {
    /// What a look shows at this time. It makes no call on the file and takes no memory. Whatever the file tells, it shows
    /// units of this volume, each on one of its disks.
    ///
    /// # Errors
    ///
    /// `Shut` exactly where the log is shut.
    pub fn look(&self, now: u64) -> Result<View, EntryFault>
        ensures looks { Looks E.seen now self.now result }
        ensures places { IfOk result (ShowsPlaces self.now.book.vid (shape_of self.now.book.shape)) }
    {
        if self.book.end().is_none() {
            return Err(EntryFault::Shut);
        }
        Ok(self.book.shown(now, &self.broken))
    }
}
