//! The grants of a lock, and what a grant shows.

ghost use Rattle.std.specs.Prelude.{◌≡◌, ◌≤◌, ◌<◌, ◌+◌, ℕ, map, IfOk, None};
ghost use Rattle.unit_id.specs.declared.targets.Target.{Target};
ghost use Rattle.code_mode.specs.VolumeShape.{last_time, last_epoch};
ghost use Rattle.volume_entry.specs.Manager.{Grant, IsDisk, IsLegal};
ghost use Rattle.volume_entry.specs.ManagerStep.{AreTargets, grant_of, grants_of, lock_record, lock_refusal, retarget_record, retarget_refusal};
ghost use Rattle.volume_entry.specs.Book.{HasRoom};
ghost use Rattle.volume_entry.specs.HeardCalls.{AreFresh};
ghost use Rattle.volume_entry.specs.TableParts.{shape_of};
ghost use Rattle.volume_entry.specs.Entry.{RefusesBy, is_broken};
ghost use Rattle.volume_entry.specs.Granting.{AreWithinLast, grant_shown, number_of};
ghost use Rattle.volume_entry.specs.Places.{GrantsPlaces};

use crate::book::Book;
use crate::event::ManagerReply;
use crate::heard::moves_for;
use crate::held::HeldLock;
use crate::legal::greatest_at;
use crate::looking::moves_shown;
use crate::moving::Moving;
use crate::record::{NewHome, UnitHome};
use disk_base::Extent;
use std::alloc::{AllocError, Global};
use unit_id::Target;

/// The next home of a target's index, on the target's disk.
fn grant_of(greatest: &[u32], target: Target) -> NewHome
    requires { (grant_of greatest.now target).dest.epoch ≤ last_epoch }
    ensures { result ≡ grant_of greatest.now target }
{
    let epoch = greatest_at(greatest, usize::from(target.index)) + 1;
    let disk = target.disk;
    NewHome {
        index: target.index,
        dest: UnitHome { epoch, disk },
    }
}

/// The next homes of the indexes of these targets.
fn grants_of(
    alloc: Global,
    greatest: &[u32],
    targets: &[Target],
) -> Result<Vec<NewHome>, AllocError>
    requires { AreWithinLast greatest.now targets.now }
    ensures { IfOk result (λ grants. grants.items ≡ grants_of greatest.now targets.now) }
{
    let mut grants = Vec::new(alloc);
    for target in targets {
        grants.push(grant_of(greatest, *target))?;
    }
    Ok(grants)
}

/// The number of a lock; 0 without one.
fn number_of(lock: &Option<HeldLock>) -> u64
    ensures { result ≡ number_of lock.now }
{
    match lock {
        Some(lock) => lock.number,
        None => 0,
    }
}

impl<E: Extent> Book<E> {
    /// Why a task isn't granted a lock at this time, to move units to these targets.
    pub fn lock_refusal(
        &self,
        broken: &[bool],
        now: u64,
        targets: &[Target],
    ) -> Option<ManagerReply>
        requires time { now ≤ last_time }
        requires targets { AreTargets (shape_of self.now.shape) targets.now }
        ensures refuses { RefusesBy result (lock_refusal (is_broken broken.now) now targets.now self.now.part) }
        ensures legal { result ≡ None → (task : ℕ) → IsLegal (shape_of self.now.shape) self.now.part (lock_record task targets.now self.now.part) }
    {
        self.table.lock_refusal(broken, now, targets)
    }

    /// Why a task isn't granted this disk as the new destination of an index.
    pub fn retarget_refusal(
        &self,
        broken: &[bool],
        task: u64,
        index: u8,
        disk: u32,
    ) -> Option<ManagerReply>
        requires index { index < (shape_of self.now.shape).total }
        requires disk { IsDisk (shape_of self.now.shape) disk }
        ensures refuses { RefusesBy result (retarget_refusal (is_broken broken.now) task index disk self.now.part) }
        ensures legal { result ≡ None → IsLegal (shape_of self.now.shape) self.now.part (retarget_record index disk self.now.part) }
    {
        self.table.retarget_refusal(broken, task, index, disk)
    }

    /// The next homes of the indexes of these targets.
    pub fn grants_of(&self, targets: &[Target]) -> Result<Vec<NewHome>, AllocError>
        requires { AreWithinLast self.now.part.greatest targets.now }
        ensures { IfOk result (λ grants. grants.items ≡ grants_of self.now.part.greatest targets.now) }
    {
        grants_of(self.alloc, &self.table.greatest, targets)
    }

    /// The next home of a target's index.
    pub fn grant_of(&self, target: Target) -> NewHome
        requires { (grant_of self.now.part.greatest target).dest.epoch ≤ last_epoch }
        ensures { result ≡ grant_of self.now.part.greatest target }
    {
        grant_of(&self.table.greatest, target)
    }

    /// Memory for a lock of these grants, of which nothing was heard.
    pub fn moves_for(&self, grants: &[NewHome]) -> Result<Vec<Moving>, AllocError>
        ensures { IfOk result (λ moves. AreFresh (map (λ (t : Grant). t.index) grants.now) moves.items) }
    {
        moves_for(self.alloc, grants)
    }

    /// The number of the next lock.
    pub fn next_lock(&self) -> u64
        requires { HasRoom self.now.log.end }
        ensures { result ≡ self.now.part.granted + 1 }
    {
        self.table.granted + 1
    }

    /// What the lock grants.
    pub fn granted(&self, broken: &[bool]) -> ManagerReply
        ensures shown { result ≡ grant_shown self.now.vid broken.now self.now.part }
        ensures places { GrantsPlaces self.now.vid (shape_of self.now.shape) result }
    {
        ManagerReply::Granted {
            lock: number_of(&self.table.lock),
            moves: moves_shown(self.vid, broken, false, self.table.held()),
        }
    }
}
