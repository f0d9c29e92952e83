//! Why a task isn't granted a lock or a new destination, by what the records of the log say and by which disks are broken.

ghost use Rattle.std.specs.Prelude.{◌≡◌, ◌<◌, ◌^◌, ◌==◌, ◌&&◌, [], not, cond, length, reverse, Some};
ghost use Rattle.unit_id.specs.Lists.{any};
ghost use Rattle.volume_entry.specs.ManagerStep.{holder, targeted, first_held, or_else, other_destination, is_spent, is_destination_broken, lock_refusal, retarget_refusal};
ghost use Rattle.volume_entry.specs.TableParts.{part_of};
ghost use Rattle.volume_entry.specs.Entry.{RefusesBy, is_broken};

use crate::counting::is_broken;
use crate::event::ManagerReply;
use crate::held::HeldTransfer;
use crate::legal::{LAST_EPOCH, greatest_at, holder, moves_index};
use crate::record::UnitHome;
use crate::table::Table;
use unit_id::Target;

/// Whether a target is on a broken disk.
fn has_broken_target(targets: &[Target], broken: &[bool]) -> bool
    ensures { result ≡ any (λ w. is_broken broken.now w.disk) targets.now }
{
    for target in targets {
        if is_broken(broken, target.disk) {
            return true;
        }
    }
    false
}

/// Whether the epochs of an index are used up.
fn is_spent(greatest: &[u32], index: u8) -> bool
    ensures { result ≡ is_spent greatest.now index }
{
    greatest_at(greatest, usize::from(index)) == LAST_EPOCH
}

/// Whether the epochs of a target's index are.
fn has_spent_target(greatest: &[u32], targets: &[Target]) -> bool
    ensures { result ≡ any (λ w. is_spent greatest.now w.index) targets.now }
{
    for target in targets {
        if is_spent(greatest, target.index) {
            return true;
        }
    }
    false
}

/// The first index whose current unit stands on the disk.
fn unit_on(homes: &[UnitHome], disk: u32) -> Option<u8>
    requires { length homes.now < 2 ^ 8 }
    ensures { result ≡ holder 0 homes.now disk }
{
    match holder(homes, disk) {
        Some(index) => Some(index as u8),
        None => None,
    }
}

/// The index of a target that has the disk, and otherwise what was found before.
fn or_target(target: Target, disk: u32, found: Option<u8>) -> Option<u8>
    ensures { result ≡ cond (target.disk == disk) (Some target.index) found }
{
    if target.disk == disk {
        Some(target.index)
    } else {
        found
    }
}

/// The last target that has the disk.
fn target_on(earlier: &[Target], disk: u32) -> Option<u8>
    ensures { result ≡ targeted (reverse earlier.now) disk }
{
    let mut found = None;
    for target in earlier {
        found = or_target(*target, disk, found);
    }
    found
}

/// Who has the disk: a current unit, or one of the earlier targets.
fn taken_by(homes: &[UnitHome], earlier: &[Target], disk: u32) -> Option<u8>
    requires { length homes.now < 2 ^ 8 }
    ensures { result ≡ or_else (holder 0 homes.now disk) (targeted (reverse earlier.now) disk) }
{
    match unit_on(homes, disk) {
        Some(index) => Some(index),
        None => target_on(earlier, disk),
    }
}

/// Who has the disk of the first target whose disk is taken.
fn first_held(homes: &[UnitHome], targets: &[Target]) -> Option<u8>
    requires { length homes.now < 2 ^ 8 }
    ensures { result ≡ first_held homes.now [] targets.now }
{
    for place in 0..targets.len() {
        let held = taken_by(homes, &targets[..place], targets[place].disk);
        if held.is_some() {
            return held;
        }
    }
    None
}

/// Whether a transfer of another index leads to the disk.
fn leads_elsewhere(transfer: HeldTransfer, index: u8, disk: u32) -> bool
    ensures { result ≡ ((transfer.dest.disk == disk) && not (transfer.index == index)) }
{
    transfer.dest.disk == disk && transfer.index != index
}

/// The index that a transfer moves.
fn index_of(transfer: HeldTransfer) -> u8
    ensures { result ≡ transfer.index }
{
    transfer.index
}

/// The first other index whose transfer leads to the disk.
fn other_destination(transfers: &[HeldTransfer], index: u8, disk: u32) -> Option<u8>
    ensures { result ≡ other_destination transfers.now index disk }
{
    for transfer in transfers {
        if leads_elsewhere(*transfer, index, disk) {
            return Some(index_of(*transfer));
        }
    }
    None
}

/// Whether the transfer of an index leads to a broken disk.
fn leads_to_broken(transfer: HeldTransfer, broken: &[bool], index: u8) -> bool
    ensures { result ≡ ((transfer.index == index) && is_broken broken.now transfer.dest.disk) }
{
    transfer.index == index && is_broken(broken, transfer.dest.disk)
}

/// Whether the destination of an index is on a broken disk.
fn is_destination_broken(transfers: &[HeldTransfer], broken: &[bool], index: u8) -> bool
    ensures { result ≡ is_destination_broken (is_broken broken.now) transfers.now index }
{
    for transfer in transfers {
        if leads_to_broken(*transfer, broken, index) {
            return true;
        }
    }
    false
}

/// Who has the disk: a current unit, or the destination of another index.
fn held_by(homes: &[UnitHome], transfers: &[HeldTransfer], index: u8, disk: u32) -> Option<u8>
    requires { length homes.now < 2 ^ 8 }
    ensures { result ≡ or_else (holder 0 homes.now disk) (other_destination transfers.now index disk) }
{
    match unit_on(homes, disk) {
        Some(other) => Some(other),
        None => other_destination(transfers, index, disk),
    }
}

impl Table {
    /// Why a task isn't granted a lock at this time, to move units to these targets.
    pub fn lock_refusal(
        &self,
        broken: &[bool],
        now: u64,
        targets: &[Target],
    ) -> Option<ManagerReply>
        requires { length self.now.homes.items < 2 ^ 8 }
        ensures { RefusesBy result (lock_refusal (is_broken broken.now) now targets.now (part_of self.now)) }
    {
        if let Some(lock) = &self.lock {
            return Some(ManagerReply::Locked { task: lock.task });
        }
        if now < self.lease_end {
            return Some(ManagerReply::LeaseRuns {
                end: self.lease_end,
            });
        }
        if has_broken_target(targets, broken) {
            return Some(ManagerReply::DestBroken);
        }
        if let Some(index) = first_held(&self.homes, targets) {
            return Some(ManagerReply::DestHeld { index });
        }
        if has_spent_target(&self.greatest, targets) {
            return Some(ManagerReply::EpochSpent);
        }
        None
    }

    /// Why a task isn't granted this disk as the new destination of an index.
    pub fn retarget_refusal(
        &self,
        broken: &[bool],
        task: u64,
        index: u8,
        disk: u32,
    ) -> Option<ManagerReply>
        requires { length self.now.homes.items < 2 ^ 8 }
        ensures { RefusesBy result (retarget_refusal (is_broken broken.now) task index disk (part_of self.now)) }
    {
        let Some(lock) = &self.lock else {
            return Some(ManagerReply::NotLocked);
        };
        if lock.task != task {
            return Some(ManagerReply::OtherTask { task: lock.task });
        }
        if lock.is_swapped {
            return Some(ManagerReply::AlreadySwapped);
        }
        if !moves_index(&lock.transfers, index) {
            return Some(ManagerReply::NotMoved);
        }
        if !is_destination_broken(&lock.transfers, broken, index) {
            return Some(ManagerReply::DestGood);
        }
        if is_broken(broken, disk) {
            return Some(ManagerReply::DestBroken);
        }
        if let Some(other) = held_by(&self.homes, &lock.transfers, index, disk) {
            return Some(ManagerReply::DestHeld { index: other });
        }
        if is_spent(&self.greatest, index) {
            return Some(ManagerReply::EpochSpent);
        }
        None
    }
}
