//! Disks that are done with.

ghost use Rattle.std.specs.Prelude.{◌≡◌, ◌<◌, ◌≤◌, ◌-◌, ◌+◌, ◌++◌, [], ℕ, length, Some, None, IfOk, IfErr, OnErr, OnOk};
ghost use Rattle.cluster_admin.specs.Settling.{was_given, end_of, settled_from, changes_from, disk_after};
ghost use Rattle.cluster_admin.specs.Inside.{state_of, placer_of};

use crate::admin::Admin;
use crate::disks::{Disk, DiskState, Disks};
use crate::fault::AdminFault;
use crate::plans::Planned;
use crate::volumes::{Volume, units_on};
use std::alloc::{AllocError, Global};

/// Whether a disk was ever given to one of these tasks.
fn was_given(tasks: &[Planned], disk: u32) -> bool
    ensures { result ≡ was_given tasks.now disk }
{
    for task in tasks {
        if task.given.has(disk) {
            return true;
        }
    }
    false
}

/// The state that a disk takes now: a repairing disk is repaired, and a draining one dropped, where no
/// unit stands on it and no unfinished task was ever given it.
fn end_of(
    volumes: &[Option<Volume>],
    tasks: &[Planned],
    number: u32,
    disk: Disk,
) -> Option<DiskState>
    requires { length volumes.now ≤ 64 }
    ensures { result ≡ end_of volumes.now tasks.now number disk }
{
    let end = match disk.state {
        DiskState::Repairing => DiskState::Repaired,
        DiskState::Normal if disk.drains => DiskState::Dropped,
        _ => return None,
    };
    if units_on(volumes, number) != 0 || was_given(tasks, number) {
        return None;
    }
    Some(end)
}

/// The disks that change now, with their new states, ascending.
fn changes(
    alloc: Global,
    disks: &[Disk],
    volumes: &[Option<Volume>],
    tasks: &[Planned],
) -> Result<Vec<(u32, DiskState)>, AllocError>
    requires disks { length disks.now ≤ 64 }
    requires volumes { length volumes.now ≤ 64 }
    ensures { IfOk result (λ changes. changes.items ≡ changes_from volumes.now tasks.now 1 disks.now) }
{
    let mut changes = Vec::new(alloc);
    for (place, disk) in disks.iter().enumerate() {
        let number = place as u32 + 1;
        if let Some(state) = end_of(volumes, tasks, number, *disk) {
            changes.push((number, state))?;
        }
    }
    Ok(changes)
}

/// The disk as it is now.
fn settled(volumes: &[Option<Volume>], tasks: &[Planned], number: u32, disk: Disk) -> Disk
    requires { length volumes.now ≤ 64 }
    ensures { result ≡ disk_after disk (end_of volumes.now tasks.now number disk) }
{
    match end_of(volumes, tasks, number, disk) {
        Some(state) => Disk {
            state,
            drains: false,
        },
        None => disk,
    }
}

/// Gives each disk the state that it takes now.
fn settle_disks(disks: &mut Disks, volumes: &[Option<Volume>], tasks: &[Planned])
    requires { length volumes.now ≤ 64 }
    ensures { disks.new ≡ settled_from volumes.now tasks.now 1 disks.old }
{
    for place in 0..disks.as_slice().len() {
        let disk = disks.as_slice()[place];
        disks.set(place, settled(volumes, tasks, place as u32 + 1, disk));
    }
}

impl Admin {
    /// Ends the repair of each repairing disk and the drain of each draining one on which no unit
    /// stands and that no unfinished task was ever given: they are repaired and dropped. Answers these
    /// disks with their new states, ascending. Fails only for want of memory.
    pub fn settle(&mut self) -> Result<Vec<(u32, DiskState)>, AdminFault>
        ensures changes { IfOk result (λ changes. changes.items ≡ changes_from (state_of self.old).volumes (state_of self.old).tasks 1 (state_of self.old).disks) }
        ensures ok { OnOk result (state_of self.new ≡ record (state_of self.old) { disks = settled_from (state_of self.old).volumes (state_of self.old).tasks 1 (state_of self.old).disks }) }
        ensures err { IfErr result (λ fault. (fault ≡ AdminFault.Memory) × (state_of self.new ≡ state_of self.old)) }
        ensures placer { placer_of self.new ≡ placer_of self.old }
    {
        let changes = changes(
            self.alloc,
            self.disks.as_slice(),
            self.volumes.as_slice(),
            &self.tasks,
        )?;
        settle_disks(&mut self.disks, self.volumes.as_slice(), &self.tasks);
        Ok(changes)
    }
}
