//! The table of a volume: what the records of its log say.

ghost use Rattle.std.specs.Prelude.{◌≡◌, ◌≤◌, ◌<◌, ◌+◌, ◌^◌, length, Some, None, IfOk, OnOk, OnErr, IsOk, false, true};
ghost use Rattle.volume_entry.specs.Manager.{ManagerRecord, fresh_manager, written, transfers_of, transfers_to};
ghost use Rattle.volume_entry.specs.RecordBytes.{record_of};
ghost use Rattle.volume_entry.specs.TableParts.{part_of, CanTake, IsPrepared};

use crate::bid_set::BidSet;
use crate::held::{HeldLock, HeldTransfer, raise, redirect, swap_lock, transfers_to};
use crate::record::{LogRecord, NewHome, UnitHome};
use std::alloc::{AllocError, Global};

/// The homes of a volume's units and the greatest epochs given, both by index; the version, which each swap raises; the
/// end of the last lease; how many locks were granted; the lock; and the blobs that are to be deleted, and whose deletes
/// are settled.
#[derive(Drop)]
pub struct Table {
    pub homes: Vec<UnitHome>,
    pub greatest: Vec<u32>,
    pub version: u64,
    pub lease_end: u64,
    pub granted: u64,
    pub lock: Option<HeldLock>,
    pub asked: BidSet,
    pub committed: BidSet,
}

impl Table {
    /// The table of a volume as made.
    pub fn fresh(alloc: Global, homes: Vec<UnitHome>) -> Result<Table, AllocError>
        ensures { IfOk result (λ table. part_of table ≡ fresh_manager homes.items) }
    {
        let greatest = homes.iter().map(|home| home.epoch).collect(alloc)?;
        Ok(Table {
            homes,
            greatest,
            version: 1,
            lease_end: 0,
            granted: 0,
            lock: None,
            asked: BidSet::none(alloc),
            committed: BidSet::none(alloc),
        })
    }

    /// What the lock moves.
    pub fn held(&self) -> &[HeldTransfer]
        ensures { result.now ≡ transfers_of self.now.lock }
    {
        match &self.lock {
            Some(lock) => &lock.transfers,
            None => &[],
        }
    }

    /// Lengthens the lease.
    pub fn lease(&mut self, end: u64)
        ensures { part_of self.new ≡ written (ManagerRecord.Leased end) (part_of self.old) }
    {
        self.lease_end = end;
    }

    /// The transfers of a lock of these grants.
    pub fn transfers(
        &self,
        alloc: Global,
        grants: &[NewHome],
    ) -> Result<Vec<HeldTransfer>, AllocError>
        ensures { IfOk result (λ transfers. transfers.items ≡ transfers_to grants.now self.now.homes.items) }
    {
        transfers_to(alloc, grants, &self.homes)
    }

    /// Takes a lock of these grants with its transfers.
    pub fn hold(&mut self, task: u64, number: u64, grants: &[NewHome], transfers: Vec<HeldTransfer>)
        requires { transfers.items ≡ transfers_to grants.now self.old.homes.items }
        ensures { part_of self.new ≡ written (ManagerRecord.Locked task number grants.now) (part_of self.old) }
    {
        raise(&mut self.greatest, grants);
        self.granted = number;
        self.lock = Some(HeldLock {
            task,
            number,
            transfers,
            is_swapped: false,
        });
    }

    /// Gives a transfer of the lock a new destination.
    pub fn retarget(&mut self, grant: NewHome)
        ensures { part_of self.new ≡ written (ManagerRecord.Retargeted grant) (part_of self.old) }
    {
        raise(&mut self.greatest, &[grant]);
        if let Some(lock) = &mut self.lock {
            redirect(&mut lock.transfers, grant);
        }
    }

    /// Makes the destinations of the lock the units of their indexes.
    pub fn swap(&mut self)
        requires { self.old.version + 1 < 2 ^ 64 }
        ensures { part_of self.new ≡ written ManagerRecord.Swapped (part_of self.old) }
    {
        swap_lock(&mut self.lock, &mut self.homes);
        self.version += 1;
    }

    /// Gives the lock back.
    pub fn unlock(&mut self)
        ensures { part_of self.new ≡ written ManagerRecord.Unlocked (part_of self.old) }
    {
        self.lock = None;
    }

    /// Notes a blob that is to be deleted. Where there is room it takes no memory.
    pub fn ask(&mut self, bid: u64) -> Result<(), AllocError>
        requires { CanTake (part_of self.old) (ManagerRecord.Asked bid) }
        ensures noted { OnOk result (part_of self.new ≡ written (ManagerRecord.Asked bid) (part_of self.old)) }
        ensures same { OnErr result (part_of self.new ≡ part_of self.old) }
        ensures succeeds { 1 ≤ self.old.asked.spare → IsOk result }
    {
        self.asked.add(bid)
    }

    /// Notes a blob whose delete is settled. Where there is room it takes no memory.
    pub fn commit(&mut self, bid: u64) -> Result<(), AllocError>
        requires { CanTake (part_of self.old) (ManagerRecord.Committed bid) }
        ensures noted { OnOk result (part_of self.new ≡ written (ManagerRecord.Committed bid) (part_of self.old)) }
        ensures same { OnErr result (part_of self.new ≡ part_of self.old) }
        ensures succeeds { 1 ≤ self.old.committed.spare → IsOk result }
    {
        self.committed.add(bid)
    }

    /// Makes room for a record, and answers the transfers of the lock that it grants, if any.
    pub fn prepare(
        &mut self,
        alloc: Global,
        item: &LogRecord,
    ) -> Result<Vec<HeldTransfer>, AllocError>
        ensures same { part_of self.new ≡ part_of self.old }
        ensures room { IfOk result (λ transfers. IsPrepared (record_of item.now) self.new transfers.items) }
    {
        match item {
            LogRecord::Locked { grants, .. } => return self.transfers(alloc, grants),
            LogRecord::Asked { .. } => self.asked.reserve()?,
            LogRecord::Committed { .. } => self.committed.reserve()?,
            _ => {}
        }
        Ok(Vec::new(alloc))
    }

    /// Takes a record that is legal behind those that the table has, with what was prepared for it. It takes no memory.
    pub fn take_prepared(
        &mut self,
        item: &LogRecord,
        transfers: Vec<HeldTransfer>,
    ) -> Result<(), AllocError>
        requires legal { CanTake (part_of self.old) (record_of item.now) }
        requires room { IsPrepared (record_of item.now) self.old transfers.items }
        ensures taken { OnOk result (part_of self.new ≡ written (record_of item.now) (part_of self.old)) }
        ensures succeeds { IsOk result }
    {
        match item {
            LogRecord::Made { .. } => {}
            LogRecord::Leased { end } => self.lease(*end),
            LogRecord::Locked { task, lock, grants } => self.hold(*task, *lock, grants, transfers),
            LogRecord::Retargeted { grant } => self.retarget(*grant),
            LogRecord::Swapped => self.swap(),
            LogRecord::Unlocked => self.unlock(),
            LogRecord::Asked { bid } => return self.ask(*bid),
            LogRecord::Committed { bid } => return self.commit(*bid),
        }
        Ok(())
    }

    /// Takes a record that is legal behind those that the table has.
    pub fn take(&mut self, alloc: Global, item: &LogRecord) -> Result<(), AllocError>
        requires { CanTake (part_of self.old) (record_of item.now) }
        ensures taken { OnOk result (part_of self.new ≡ written (record_of item.now) (part_of self.old)) }
        ensures same { OnErr result (part_of self.new ≡ part_of self.old) }
    {
        let transfers = self.prepare(alloc, item)?;
        self.take_prepared(item, transfers)
    }
}
