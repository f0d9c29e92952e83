//! Which units a lock moves, and where to.

ghost use Rattle.std.specs.Prelude.{◌≡◌, ◌==◌, ◌&&◌, option_copied};
ghost use Rattle.unit_id.specs.Lists.{any};
ghost use Rattle.unit_id.specs.Messages.{place_at};
ghost use Rattle.volume_entry.specs.Manager.{transfers_of, has_number, is_destination, is_old, is_old_there};

use crate::held::{HeldLock, HeldTransfer};
use unit_id::UnitName;

/// What a lock moves; nothing without a lock.
pub fn transfers_of<'a>(lock: Option<&'a HeldLock>) -> &'a [HeldTransfer]
    ensures { result.now ≡ transfers_of (option_copied lock.entry) }
{
    match lock {
        Some(lock) => &lock.transfers,
        None => &[],
    }
}

/// Whether the number of the lock is this.
pub fn has_number(lock: Option<&HeldLock>, number: u64) -> bool
    ensures { result ≡ has_number (option_copied lock.entry) number }
{
    match lock {
        Some(lock) => lock.number == number,
        None => false,
    }
}

/// Whether a transfer leads to the unit.
fn leads_to(transfer: HeldTransfer, unit: UnitName) -> bool
    ensures { result ≡ ((transfer.index == unit.index) && (transfer.dest.epoch == unit.epoch)) }
{
    transfer.index == unit.index && transfer.dest.epoch == unit.epoch
}

/// Whether a transfer leads away from the unit.
fn leads_from(transfer: HeldTransfer, unit: UnitName) -> bool
    ensures { result ≡ ((transfer.index == unit.index) && (transfer.old.epoch == unit.epoch)) }
{
    transfer.index == unit.index && transfer.old.epoch == unit.epoch
}

/// Whether some transfer leads to the unit.
pub fn is_destination(transfers: &[HeldTransfer], unit: UnitName) -> bool
    ensures { result ≡ is_destination transfers.now (place_at unit 0) }
{
    for transfer in transfers {
        if leads_to(*transfer, unit) {
            return true;
        }
    }
    false
}

/// Whether some transfer leads away from the unit.
pub fn is_old(transfers: &[HeldTransfer], unit: UnitName) -> bool
    ensures { result ≡ is_old transfers.now (place_at unit 0) }
{
    for transfer in transfers {
        if leads_from(*transfer, unit) {
            return true;
        }
    }
    false
}

/// Whether some transfer leads away from the unit, at the very disk on which it stands.
pub fn is_old_there(transfers: &[HeldTransfer], unit: UnitName, disk: u32) -> bool
    ensures { result ≡ is_old_there transfers.now (place_at unit disk) }
{
    for transfer in transfers {
        if leads_from(*transfer, unit) && transfer.old.disk == disk {
            return true;
        }
    }
    false
}
