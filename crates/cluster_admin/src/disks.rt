//! The disks and what state they are in.

ghost use Rattle.std.specs.Prelude.{◌≡◌, ◌<◌, ◌≤◌, [], length, replicate, IfOk, slice_set, option_copied, Some, None};
ghost use Rattle.cluster_admin.specs.Disks.{new_disk, disk_at, is_free, is_broken, is_bad, free_count};

use std::alloc::{AllocError, Global};
use std::marker::Model;

/// The state of a disk.
#[derive(Clone, Copy, Debug, PartialEq, Eq)]
pub enum DiskState {
    Normal,
    /// Broken, and no repair is planned.
    Broken,
    /// Broken, and its units are to be moved.
    Repairing,
    /// Broken, and no unit is left on it.
    Repaired,
    /// Taken away.
    Dropped,
}

/// What is known of a disk. A normal disk may be draining: its units are to be moved so that it can
/// be taken away.
#[derive(Clone, Copy, Debug, PartialEq, Eq)]
pub struct Disk {
    pub state: DiskState,
    pub drains: bool,
}

impl Disk {
    /// Whether new units may come to the disk.
    pub fn is_free(&self) -> bool
        ensures { result ≡ is_free self.now }
    {
        matches!(self.state, DiskState::Normal) && !self.drains
    }

    /// Whether the disk is broken or repairing.
    pub fn is_broken(&self) -> bool
        ensures { result ≡ is_broken self.now.state }
    {
        matches!(self.state, DiskState::Broken | DiskState::Repairing)
    }

    /// Whether a destination on the disk has to be given up.
    pub fn is_bad(&self) -> bool
        ensures { result ≡ is_bad self.now }
    {
        matches!(
            self.state,
            DiskState::Broken | DiskState::Repairing | DiskState::Repaired
        )
    }
}

/// The disks, by their numbers from 1 on: at most 64.
#[derive(Drop)]
pub struct Disks {
    items: Vec<Disk>,
}

impl Model for Disks {
    ghost use Rattle.std.specs.Prelude.{List, length, ◌≤◌};
    ghost use Rattle.cluster_admin.specs.declared.disks.Disk.{Disk};

    ghost Value = { List Disk };

    ghost view = { λ disks. disks.items.items };

    ghost invariant = { λ disks. length disks.items.items ≤ 64 };
}

impl Disks {
    /// No disk.
    pub fn none(alloc: Global) -> Disks
        ensures { result ≡ [] }
    {
        Disks {
            items: Vec::new(alloc),
        }
    }

    /// So many new disks.
    pub fn fresh(alloc: Global, count: u32) -> Result<Disks, AllocError>
        requires { count ≤ 64 }
        ensures { IfOk result (λ disks. disks ≡ replicate count new_disk) }
    {
        let new_disk = Disk {
            state: DiskState::Normal,
            drains: false,
        };
        let items = vec![in alloc; new_disk; count as usize]?;
        Ok(Disks { items })
    }

    /// The disks, in order of number.
    pub fn as_slice(&self) -> &[Disk]
        ensures items { result.now ≡ self.now }
        ensures most { length result.now ≤ 64 }
    {
        &self.items
    }

    /// Puts a disk in the place of another, counted from 0.
    pub fn set(&mut self, place: usize, disk: Disk)
        requires { place < length self.old }
        ensures { self.new ≡ slice_set self.old place disk }
    {
        self.items[place] = disk;
    }
}

/// The disk of this number.
pub fn disk_at(disks: &[Disk], number: u32) -> Option<Disk>
    ensures { result ≡ disk_at disks.now number }
{
    if number == 0 {
        return None;
    }
    disks.get(number as usize - 1).copied()
}

/// How many disks new units may come to.
pub fn free_count(disks: &[Disk]) -> usize
    ensures count { result ≡ free_count disks.now }
    ensures most { result ≤ length disks.now }
{
    let mut count = 0;
    for disk in disks {
        if disk.is_free() {
            count += 1;
        }
    }
    count
}
