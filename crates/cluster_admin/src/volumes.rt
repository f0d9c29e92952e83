//! The volumes and the disks of their units.

ghost use Rattle.std.specs.Prelude.{◌≡◌, ◌<◌, ◌≤◌, ◌∷◌, ◌++◌, [], length, nat_eq, IfOk, OnOk, OnErr, IsOk, slice_set, slice_get, option_copied, Some, None};
ghost use Rattle.std.specs.List.{count_by};
ghost use Rattle.cluster_admin.specs.Volumes.{volume_at, units_in, units_on};

use code_mode::Mode;
use std::alloc::{AllocError, Global};
use std::marker::Model;

/// The disk of each unit of a volume, in order of index: a list of at most 27, which takes no memory.
#[derive(Drop)]
pub struct DiskRow {
    places: [u32; 27],
    count: usize,
}

impl Model for DiskRow {
    ghost use Rattle.std.specs.Prelude.{List, ℕ, take, ◌≤◌};

    ghost Value = { List ℕ };

    ghost view = { λ row. take row.count row.places };

    ghost invariant = { λ row. row.count ≤ 27 };
}

impl DiskRow {
    /// No disk.
    pub fn empty() -> DiskRow
        ensures { result ≡ [] }
    {
        DiskRow {
            places: [0; 27],
            count: 0,
        }
    }

    /// Adds the disk of the next unit.
    pub fn push(&mut self, disk: u32)
        requires { length self.old < 27 }
        ensures { self.new ≡ self.old ++ disk ∷ [] }
    {
        self.places[self.count] = disk;
        self.count += 1;
    }

    /// The disks, in order of index.
    pub fn as_slice(&self) -> &[u32]
        ensures items { result.now ≡ self.now }
        ensures most { length result.now ≤ 27 }
    {
        &self.places[..self.count]
    }

    /// Puts a unit on another disk, if there is one of this index.
    pub fn set(&mut self, index: usize, disk: u32)
        ensures { self.new ≡ slice_set self.old index disk }
    {
        if index < self.count {
            self.places[index] = disk;
        }
    }
}

/// A volume: its mode, the greatest bid given in it, and the disks of its units.
#[derive(Drop)]
pub struct Volume {
    pub mode: Mode,
    pub last: u64,
    pub homes: DiskRow,
}

/// The most volumes that are ever made.
const MOST_VOLUMES: usize = 64;

/// The volumes, by their numbers from 1 on: at most 64, for which room is held. A lost one leaves its
/// place empty.
#[derive(Drop)]
pub struct Volumes {
    items: Vec<Option<Volume>>,
}

impl Model for Volumes {
    ghost use Rattle.std.specs.Prelude.{List, Option, length, ◌≤◌, vec_capacity};
    ghost use Rattle.cluster_admin.specs.declared.volumes.Volume.{Volume};

    ghost Value = { List (Option Volume) };

    ghost view = { λ volumes. volumes.items.items };

    ghost invariant = { λ volumes. (length volumes.items.items ≤ 64) × (64 ≤ vec_capacity volumes.items) };
}

impl Volumes {
    /// No volume, with room for all that there can be.
    pub fn none(alloc: Global) -> Result<Volumes, AllocError>
        ensures { IfOk result (λ volumes. volumes ≡ []) }
    {
        let items = Vec::with_capacity(alloc, MOST_VOLUMES)?;
        Ok(Volumes { items })
    }

    /// The volumes, in order of number.
    pub fn as_slice(&self) -> &[Option<Volume>]
        ensures items { result.now ≡ self.now }
        ensures most { length result.now ≤ 64 }
    {
        &self.items
    }

    /// Adds a volume whose number is the next. Takes no memory.
    pub fn push(&mut self, volume: Volume)
        requires { length self.old < 64 }
        ensures { self.new ≡ self.old ++ Some volume ∷ [] }
    {
        self.items.push(Some(volume)).unwrap();
    }

    /// Puts a volume, or none, in a place, counted from 0.
    pub fn set(&mut self, place: usize, volume: Option<Volume>)
        requires { place < length self.old }
        ensures { self.new ≡ slice_set self.old place volume }
    {
        self.items[place] = volume;
    }

    /// Takes the volume out of a place, counted from 0.
    pub fn take(&mut self, place: usize) -> Option<Volume>
        requires { place < length self.old }
        ensures taken { Some result ≡ slice_get self.old place }
        ensures gone { self.new ≡ slice_set self.old place None }
    {
        self.items[place].take()
    }
}

/// The volume of this number.
pub fn volume_at(volumes: &[Option<Volume>], vid: u32) -> Option<&Volume>
    ensures { option_copied result ≡ volume_at volumes.now vid }
{
    if vid == 0 {
        return None;
    }
    match volumes.get(vid as usize - 1) {
        Some(Some(volume)) => Some(volume),
        _ => None,
    }
}

/// How many units of a row stand on a disk.
fn count_in(row: &[u32], disk: u32) -> u64
    requires { length row.now ≤ 27 }
    ensures count { result ≡ count_by (nat_eq disk) row.now }
    ensures most { result ≤ 27 }
{
    let mut count = 0;
    for home in row {
        if disk == *home {
            count += 1;
        }
    }
    count
}

/// How many units of a volume stand on a disk.
fn units_in(slot: &Option<Volume>, disk: u32) -> u64
    ensures count { result ≡ units_in disk slot.now }
    ensures most { result ≤ 27 }
{
    match slot {
        Some(volume) => count_in(volume.homes.as_slice(), disk),
        None => 0,
    }
}

/// How many units of all volumes stand on a disk.
pub fn units_on(volumes: &[Option<Volume>], disk: u32) -> u64
    requires { length volumes.now ≤ 64 }
    ensures { result ≡ units_on volumes.now disk }
{
    let mut units = 0;
    for slot in volumes {
        units += units_in(slot, disk);
    }
    units
}
