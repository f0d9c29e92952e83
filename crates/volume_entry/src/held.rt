//! The lock of a task as memory keeps it, and how homes and epochs change by it.

ghost use Rattle.std.specs.Prelude.{◌≡◌, ◌∷◌, [], length, IfOk};
ghost use Rattle.volume_entry.specs.Manager.{home_at, raised_one, raised, moved_one, moved, transfers_to, transfers_of, swapped_lock, redirected};

use crate::record::{NewHome, UnitHome};
use std::alloc::{AllocError, Global};
use std::marker::Model;

/// One unit that a lock moves: from its old home to its destination.
#[derive(Clone, Copy, Debug, PartialEq, Eq)]
pub struct HeldTransfer {
    pub index: u8,
    pub old: UnitHome,
    pub dest: UnitHome,
}

impl Model for HeldTransfer {
    ghost use Rattle.volume_entry.specs.Manager.{Transfer};
    ghost use Rattle.volume_entry.specs.KeptTable.{TransferFits};

    ghost Value = { Transfer };

    ghost view = { λ t. record { index = t.index; old = t.old; dest = t.dest } };

    ghost invariant = { λ t. TransferFits (record { index = t.index; old = t.old; dest = t.dest }) };

    ghost inverse = { λ t. record { index = t.index; old = t.old; dest = t.dest } };
}

/// A lock of a task, with its transfers in ascending order of index.
#[derive(Drop)]
pub struct HeldLock {
    pub task: u64,
    pub number: u64,
    pub transfers: Vec<HeldTransfer>,
    pub is_swapped: bool,
}

impl Model for HeldLock {
    ghost use Rattle.volume_entry.specs.Manager.{Lock};

    ghost Value = { Lock };

    ghost view = { λ l. record {
      task = l.task;
      number = l.number;
      transfers = l.transfers.items;
      is_swapped = l.is_swapped;
    } };
}

/// The home of an index.
pub fn home_at(homes: &[UnitHome], index: usize) -> UnitHome
    ensures { result ≡ home_at homes.now index }
{
    match homes.get(index) {
        Some(home) => *home,
        None => UnitHome { epoch: 0, disk: 0 },
    }
}

/// The epoch of a home.
fn epoch_at(home: UnitHome) -> u32
    ensures { result ≡ home.epoch }
{
    home.epoch
}

/// The greatest epoch of an index, with these grants.
fn raised_one(grants: &[NewHome], index: usize, epoch: u32) -> u32
    ensures { result ≡ raised_one grants.now index epoch }
{
    for grant in grants {
        if usize::from(grant.index) == index {
            return epoch_at(grant.dest);
        }
    }
    epoch
}

/// Raises the greatest epochs of the indexes that have grants.
pub fn raise(greatest: &mut [u32], grants: &[NewHome])
    ensures { greatest.new ≡ raised 0 grants.now greatest.old }
{
    for index in 0..greatest.len() {
        greatest[index] = raised_one(grants, index, greatest[index]);
    }
}

/// The home of an index, after these transfers.
fn moved_one(transfers: &[HeldTransfer], index: usize, home: UnitHome) -> UnitHome
    ensures { result ≡ moved_one transfers.now index home }
{
    for transfer in transfers {
        if usize::from(transfer.index) == index {
            return transfer.dest;
        }
    }
    home
}

/// Makes the destinations of these transfers the homes of their indexes.
pub fn move_homes(homes: &mut [UnitHome], transfers: &[HeldTransfer])
    ensures { homes.new ≡ moved 0 transfers.now homes.old }
{
    for index in 0..homes.len() {
        homes[index] = moved_one(transfers, index, homes[index]);
    }
}

/// The transfers that a lock of these grants makes.
pub fn transfers_to(
    alloc: Global,
    grants: &[NewHome],
    homes: &[UnitHome],
) -> Result<Vec<HeldTransfer>, AllocError>
    ensures { IfOk result (λ transfers. transfers.items ≡ transfers_to grants.now homes.now) }
{
    let mut transfers = Vec::new(alloc);
    for grant in grants {
        let index = grant.index;
        let old = home_at(homes, usize::from(index));
        let dest = grant.dest;
        transfers.push(HeldTransfer { index, old, dest })?;
    }
    Ok(transfers)
}

/// A transfer with a new destination, where it is of the grant's index.
fn redirected_one(transfer: HeldTransfer, grant: NewHome) -> HeldTransfer
    ensures { result ∷ [] ≡ redirected grant (transfer ∷ []) }
{
    if transfer.index == grant.index {
        return HeldTransfer {
            index: transfer.index,
            old: transfer.old,
            dest: grant.dest,
        };
    }
    transfer
}

/// Gives the transfer of an index a new destination.
pub fn redirect(transfers: &mut [HeldTransfer], grant: NewHome)
    ensures { transfers.new ≡ redirected grant transfers.old }
{
    for place in 0..transfers.len() {
        transfers[place] = redirected_one(transfers[place], grant);
    }
}

/// Swaps a lock: its destinations become the homes of their indexes.
pub fn swap_lock(held: &mut Option<HeldLock>, homes: &mut [UnitHome])
    ensures homes { homes.new ≡ moved 0 (transfers_of held.old) homes.old }
    ensures held { held.new ≡ swapped_lock held.old }
{
    let Some(lock) = held else {
        return;
    };
    move_homes(homes, &lock.transfers);
    lock.is_swapped = true;
}
