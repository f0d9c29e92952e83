//! Which requests may be sent as a volume stands.

ghost use Rattle.std.specs.Prelude.{◌≡◌, ◌&&◌, ◌==◌, nat_lt, nat_le, option_copied};
ghost use Rattle.unit_id.specs.Messages.{place_at, request_of};
ghost use Rattle.volume_entry.specs.Manager.{Manager, home_at, is_current, is_destination_there, is_swapped};
ghost use Rattle.volume_entry.specs.Entry.{Stands};
ghost use Rattle.volume_entry.specs.Sending.{is_reached, is_sendable};
ghost use Rattle.volume_entry.specs.TableParts.{part_of, shape_of};

use crate::book::Book;
use crate::destinations::{has_number, is_destination, is_old};
use crate::entry::Entry;
use crate::held::{HeldLock, HeldTransfer, home_at};
use crate::record::UnitHome;
use crate::table::Table;
use disk_base::Extent;
use unit_id::{Request, UnitName};

/// Whether a transfer leads to the unit, at the very disk.
fn leads_there(transfer: HeldTransfer, unit: UnitName, disk: u32) -> bool
    ensures { result ≡ (((transfer.index == unit.index) && (transfer.dest.epoch == unit.epoch)) && (transfer.dest.disk == disk)) }
{
    let UnitHome { epoch, disk: to } = transfer.dest;
    transfer.index == unit.index && epoch == unit.epoch && to == disk
}

/// Whether some transfer leads to the unit, at the very disk on which it is to stand.
fn is_destination_there(transfers: &[HeldTransfer], unit: UnitName, disk: u32) -> bool
    ensures { result ≡ is_destination_there transfers.now (place_at unit disk) }
{
    for transfer in transfers {
        if leads_there(*transfer, unit, disk) {
            return true;
        }
    }
    false
}

/// Whether the lock's destinations are the units of their indexes.
fn is_swapped(lock: Option<&HeldLock>) -> bool
    ensures { result ≡ is_swapped (option_copied lock.entry) }
{
    match lock {
        Some(lock) => lock.is_swapped,
        None => false,
    }
}

/// The epoch of the current unit of an index.
fn current_epoch(homes: &[UnitHome], index: u8) -> u32
    ensures { result ≡ (home_at homes.now index).epoch }
{
    home_at(homes, usize::from(index)).epoch
}

/// Whether a unit is of an index of the volume, with an epoch up to the current one.
fn is_up_to_current(total: u32, homes: &[UnitHome], unit: UnitName) -> bool
    ensures { result ≡ (nat_lt unit.index total && nat_le unit.epoch (home_at homes.now unit.index).epoch) }
{
    u32::from(unit.index) < total && unit.epoch <= current_epoch(homes, unit.index)
}

/// Whether a unit is of an index of the volume, with an epoch before the current one.
fn is_behind_current(total: u32, homes: &[UnitHome], unit: UnitName) -> bool
    ensures { result ≡ (nat_lt unit.index total && nat_lt unit.epoch (home_at homes.now unit.index).epoch) }
{
    u32::from(unit.index) < total && unit.epoch < current_epoch(homes, unit.index)
}

/// Whether a unit is the current one of an index of the volume.
fn is_current(total: u32, homes: &[UnitHome], unit: UnitName) -> bool
    ensures { result ≡ (nat_lt unit.index total && is_current homes.now (place_at unit 0)) }
{
    u32::from(unit.index) < total && current_epoch(homes, unit.index) == unit.epoch
}

impl Table {
    /// Whether a unit is a current one of the volume, or a destination of the lock.
    fn is_reached(&self, total: u32, unit: UnitName) -> bool
        ensures { result ≡ is_reached total (part_of self.now) (place_at unit 0) }
    {
        is_current(total, &self.homes, unit) || is_destination(self.held(), unit)
    }

    /// Whether a request may be sent.
    fn may_send(&self, total: u32, is_begun: bool, request: &Request) -> bool
        ensures { result ≡ is_sendable total is_begun (part_of self.now) (request_of request.now) }
    {
        let lock = self.lock.as_ref();
        match request {
            Request::Create { unit, disk } => {
                is_destination_there(self.held(), *unit, *disk) && !is_swapped(lock)
            }
            Request::Fence {
                unit,
                lock: number,
                ..
            } => is_old(self.held(), *unit) && has_number(lock, *number),
            Request::Put { unit, .. } => is_begun && is_up_to_current(total, &self.homes, *unit),
            Request::Read { .. } => true,
            Request::List { lock: number, .. } => has_number(lock, *number),
            Request::Copy { unit, .. } => is_begun && self.is_reached(total, *unit),
            Request::Mark { unit, bid, .. } => {
                self.asked.has(*bid) && self.is_reached(total, *unit)
            }
            Request::Free { unit, bid, .. } => {
                self.committed.has(*bid) && self.is_reached(total, *unit)
            }
            Request::Release { unit, .. } => is_behind_current(total, &self.homes, *unit),
        }
    }
}

impl<E: Extent> Book<E> {
    /// Whether a request may be sent.
    fn may_send(&self, request: &Request, is_begun: bool) -> bool
        ensures { result ≡ is_sendable (shape_of self.now.shape).total is_begun self.now.part (request_of request.now) }
    {
        self.table
            .may_send(self.shape.mode.total(), is_begun, request)
    }
}

impl<E: Extent> Entry<E> {
    /// Whether a request may be sent as the volume stands, where its blob was begun or not. It says nothing of whether the
    /// log is shut.
    pub fn may_send(&self, request: &Request, is_begun: bool) -> bool
        ensures told { (m : Manager) → Stands E.seen self.now m → result ≡ is_sendable (shape_of self.now.book.shape).total is_begun m (request_of request.now) }
        ensures part { result ≡ is_sendable (shape_of self.now.book.shape).total is_begun self.now.book.part (request_of request.now) }
    {
        self.book.may_send(request, is_begun)
    }
}
