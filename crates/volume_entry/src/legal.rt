//! Which records are legal behind those that a table has.

ghost use Rattle.std.specs.Prelude.{◌≡◌, ◌≤◌, ◌<◌, ◌+◌, ◌==◌, true, false, None, is_some, IfOk, OnErr, ◌^◌};
ghost use Rattle.unit_id.specs.Lists.{any, is_in};
ghost use Rattle.volume_entry.specs.Manager.{IsDisk, IsFree, IsNextHome, IsLegalLock, IsLegalRetarget, IsBid, IsLegal, is_swapped, greatest_at};
ghost use Rattle.volume_entry.specs.ManagerStep.{holder};
ghost use Rattle.volume_entry.specs.RecordBytes.{record_of};
ghost use Rattle.volume_entry.specs.TableParts.{part_of, shape_of, Tells, AreNextHomes, IsBefore, AreApart, IsFreeOfOthers, TakesLegal};

use crate::held::HeldTransfer;
use crate::record::{LogRecord, NewHome, UnitHome};
use crate::shape::Shape;
use crate::table::Table;
use std::alloc::{AllocError, Global};

/// No epoch is greater.
pub(crate) const LAST_EPOCH: u32 = 16_777_215;

/// The clock stands still here, and no blob has a greater number.
const LAST_TIME: u64 = 1 << 62;

/// A lease lasts this long.
const LEASE: u64 = 10;

/// The first index whose current unit stands on the disk.
pub fn holder(homes: &[UnitHome], disk: u32) -> Option<usize>
    ensures { result ≡ holder 0 homes.now disk }
{
    for (index, home) in homes.iter().enumerate() {
        if home.disk == disk {
            return Some(index);
        }
    }
    None
}

/// The greatest epoch given of an index.
pub fn greatest_at(greatest: &[u32], index: usize) -> u32
    ensures { result ≡ greatest_at greatest.now index }
{
    match greatest.get(index) {
        Some(epoch) => *epoch,
        None => 0,
    }
}

/// Whether the volume may use the disk.
pub fn is_disk(shape: Shape, disk: u32) -> bool
    ensures { Tells result (IsDisk (shape_of shape) disk) }
{
    1 <= disk && disk <= shape.disks
}

/// Whether no current unit stands on the disk.
pub fn is_free(homes: &[UnitHome], disk: u32) -> bool
    ensures { Tells result (IsFree homes.now disk) }
{
    holder(homes, disk).is_none()
}

/// Whether an index of the volume gets its next epoch, on a disk without a current unit.
fn is_next_home(shape: Shape, homes: &[UnitHome], greatest: &[u32], grant: NewHome) -> bool
    ensures { Tells result (IsNextHome (shape_of shape) homes.now greatest.now grant) }
{
    let index = grant.index;
    let UnitHome { epoch, disk } = grant.dest;
    if u32::from(index) >= shape.mode.total() || epoch > LAST_EPOCH {
        return false;
    }
    if epoch.checked_sub(greatest_at(greatest, usize::from(index))) != Some(1) {
        return false;
    }
    is_disk(shape, disk) && is_free(homes, disk)
}

/// Whether every index gets its next epoch so.
fn are_next_homes(shape: Shape, homes: &[UnitHome], greatest: &[u32], grants: &[NewHome]) -> bool
    ensures { Tells result (AreNextHomes (shape_of shape) homes.now greatest.now grants.now) }
{
    for grant in grants {
        if !is_next_home(shape, homes, greatest, *grant) {
            return false;
        }
    }
    true
}

/// Whether one index is less than another, and their disks are not the same.
fn is_before_one(first: NewHome, other: NewHome) -> bool
    ensures { Tells result ((first.index < other.index) × (first.dest.disk ≡ other.dest.disk → ⊥)) }
{
    first.index < other.index && first.dest.disk != other.dest.disk
}

/// Whether the others are of greater indexes and on other disks.
fn is_before(first: NewHome, others: &[NewHome]) -> bool
    ensures { Tells result (IsBefore first others.now) }
{
    for other in others {
        if !is_before_one(first, *other) {
            return false;
        }
    }
    true
}

/// Whether indexes ascend and no disk is granted twice.
fn are_apart(grants: &[NewHome]) -> bool
    ensures { Tells result (AreApart grants.now) }
{
    match grants {
        [] => true,
        [first, others @ ..] => is_before(*first, others) && are_apart(others),
    }
}

/// Whether no other transfer leads to the disk of the grant.
fn is_free_of_others(transfers: &[HeldTransfer], grant: NewHome) -> bool
    ensures { Tells result (IsFreeOfOthers transfers.now grant) }
{
    for transfer in transfers {
        if leads_elsewhere(*transfer, grant) {
            return false;
        }
    }
    true
}

/// Whether a transfer of another index leads to the disk of the grant.
fn leads_elsewhere(transfer: HeldTransfer, grant: NewHome) -> bool
    ensures { Tells result ((transfer.dest.disk ≡ grant.dest.disk) × (transfer.index ≡ grant.index → ⊥)) }
{
    transfer.dest.disk == grant.dest.disk && transfer.index != grant.index
}

/// Whether some transfer is of this index.
pub fn moves_index(transfers: &[HeldTransfer], index: u8) -> bool
    ensures { result ≡ any (λ t. t.index == index) transfers.now }
{
    for transfer in transfers {
        if transfer.index == index {
            return true;
        }
    }
    false
}

/// Whether a blob has this number.
fn is_bid(bid: u64) -> bool
    ensures { Tells result (IsBid bid) }
{
    1 <= bid && bid <= LAST_TIME
}

/// Whether a number is the next behind the last.
fn is_next(number: u64, last: u64) -> bool
    ensures { Tells result (number ≡ last + 1) }
{
    number.checked_sub(last) == Some(1)
}

/// Whether so many units are at most as many as a lock moves.
fn is_move_count(shape: Shape, count: usize) -> bool
    ensures { Tells result ((1 ≤ count) × (count + (shape_of shape).data_count ≤ (shape_of shape).quorum)) }
{
    let most = (shape.mode.quorum() - shape.mode.n()) as usize;
    1 <= count && count <= most
}

impl Table {
    /// Whether a lock of this number and these grants is legal.
    fn is_legal_lock(&self, shape: Shape, number: u64, grants: &[NewHome]) -> bool
        ensures { let m = part_of self.now in Tells result (IsLegalLock (shape_of shape) m.homes m.greatest m.lease_end m.granted m.lock number grants.now) }
    {
        if self.lock.is_some() || self.lease_end > LAST_TIME {
            return false;
        }
        if !is_next(number, self.granted) || !is_move_count(shape, grants.len()) {
            return false;
        }
        if !are_apart(grants) {
            return false;
        }
        are_next_homes(shape, &self.homes, &self.greatest, grants)
    }

    /// Whether a new destination is legal.
    fn is_legal_retarget(&self, shape: Shape, grant: NewHome) -> bool
        ensures { let m = part_of self.now in Tells result (IsLegalRetarget (shape_of shape) m.homes m.greatest m.lock grant) }
    {
        let Some(lock) = &self.lock else {
            return false;
        };
        if lock.is_swapped || !moves_index(&lock.transfers, grant.index) {
            return false;
        }
        if !is_next_home(shape, &self.homes, &self.greatest, grant) {
            return false;
        }
        is_free_of_others(&lock.transfers, grant)
    }

    /// Whether a task has the lock, and its destinations aren't swapped in.
    fn is_locked(&self) -> bool
        ensures { Tells result ((is_some self.now.lock ≡ true) × (is_swapped self.now.lock ≡ false)) }
    {
        match &self.lock {
            Some(lock) => !lock.is_swapped,
            None => false,
        }
    }

    /// Whether the destinations of the lock are swapped in.
    fn is_swapped(&self) -> bool
        ensures { result ≡ is_swapped self.now.lock }
    {
        match &self.lock {
            Some(lock) => lock.is_swapped,
            None => false,
        }
    }

    /// Whether the delete of a blob may be settled.
    fn is_legal_commit(&self, bid: u64) -> bool
        ensures { let m = part_of self.now in Tells result (IsBid bid × (is_in bid m.asked ≡ true) × (is_in bid m.committed ≡ false) × (m.lock ≡ None)) }
    {
        if !is_bid(bid) || self.lock.is_some() {
            return false;
        }
        self.asked.has(bid) && !self.committed.has(bid)
    }

    /// Whether a record is legal behind those that the table has.
    pub fn is_legal(&self, shape: Shape, item: &LogRecord) -> bool
        ensures { Tells result (IsLegal (shape_of shape) (part_of self.now) (record_of item.now)) }
    {
        match item {
            LogRecord::Made { .. } => false,
            LogRecord::Leased { end } => self.lock.is_none() && *end <= LAST_TIME + LEASE,
            LogRecord::Locked {
                task: _,
                lock,
                grants,
            } => self.is_legal_lock(shape, *lock, grants),
            LogRecord::Retargeted { grant } => self.is_legal_retarget(shape, *grant),
            LogRecord::Swapped => self.is_locked(),
            LogRecord::Unlocked => self.is_swapped(),
            LogRecord::Asked { bid } => is_bid(*bid) && !self.asked.has(*bid),
            LogRecord::Committed { bid } => self.is_legal_commit(*bid),
        }
    }

    /// Takes a record where it is legal behind those that the table has, and answers whether it is.
    ///
    /// # Errors
    ///
    /// Want of memory, which leaves the table as it was.
    pub fn take_legal(
        &mut self,
        alloc: Global,
        shape: Shape,
        item: &LogRecord,
    ) -> Result<bool, AllocError>
        requires { self.old.version + 1 < 2 ^ 64 }
        ensures taken { IfOk result (TakesLegal (shape_of shape) (record_of item.now) (part_of self.old) (part_of self.new)) }
        ensures same { OnErr result (part_of self.new ≡ part_of self.old) }
    {
        if !self.is_legal(shape, item) {
            return Ok(false);
        }
        self.take(alloc, item)?;
        Ok(true)
    }
}
