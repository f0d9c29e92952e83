//! The tasks that aren't finished.

ghost use Rattle.std.specs.Prelude.{◌≡◌, ◌<◌, ◌≤◌, ◌+◌, ◌-◌, ◌∷◌, ◌++◌, [], ℕ, length, true, false, IsTrue, Option, replicate, slice_set, slice_get, slice_index_or, option_copied, Some, None, map};
ghost use Rattle.cluster_admin.specs.Plans.{has_disk, has_target, goes_to, task_with, is_aimed, place_of, is_unfinished, with_mark};

use std::marker::Model;
use unit_id::{Kind, Target};

/// The most units that a task moves.
pub const MOST_TARGETS: usize = 9;

/// The targets of a task: a list of at most 9, which takes no memory.
#[derive(Drop)]
pub struct TargetRow {
    places: [Target; 9],
    count: usize,
}

impl Model for TargetRow {
    ghost use Rattle.std.specs.Prelude.{List, take, ◌≤◌};
    ghost use Rattle.unit_id.specs.declared.targets.Target.{Target};

    ghost Value = { List Target };

    ghost view = { λ row. take row.count row.places };

    ghost invariant = { λ row. row.count ≤ 9 };
}

impl TargetRow {
    /// No target.
    pub fn empty() -> TargetRow
        ensures { result ≡ [] }
    {
        TargetRow {
            places: [Target { index: 0, disk: 0 }; 9],
            count: 0,
        }
    }

    /// Adds a target at the end.
    pub fn push(&mut self, target: Target)
        requires { length self.old < 9 }
        ensures { self.new ≡ self.old ++ target ∷ [] }
    {
        self.places[self.count] = target;
        self.count += 1;
    }

    /// The targets, in order.
    pub fn as_slice(&self) -> &[Target]
        ensures items { result.now ≡ self.now }
        ensures most { length result.now ≤ 9 }
    {
        &self.places[..self.count]
    }

    /// Puts a target in the place of another, counted from 0, if there is one.
    pub fn set(&mut self, place: usize, target: Target)
        ensures { self.new ≡ slice_set self.old place target }
    {
        if place < self.count {
            self.places[place] = target;
        }
    }
}

/// A set of disks, seen as a mark for each disk from 1 to 64.
#[derive(Drop)]
pub struct DiskSet {
    marks: [bool; 64],
}

impl Model for DiskSet {
    ghost use Rattle.std.specs.Prelude.{List, Bool};

    ghost Value = { List Bool };

    ghost view = { λ set. set.marks };
}

impl DiskSet {
    /// No disk.
    pub fn empty() -> DiskSet
        ensures { result ≡ replicate 64 false }
    {
        DiskSet { marks: [false; 64] }
    }

    /// Adds a disk, if it is one of 1 to 64.
    pub fn add(&mut self, disk: u32)
        ensures { self.new ≡ with_mark self.old disk }
    {
        if disk == 0 {
            return; // no disk
        }
        let place = disk as usize - 1;
        if place < self.marks.len() {
            self.marks[place] = true;
        }
    }

    /// Whether the disk is in the set.
    pub fn has(&self, disk: u32) -> bool
        ensures { result ≡ has_disk self.now disk }
    {
        if disk == 0 {
            return false;
        }
        match self.marks.get(disk as usize - 1) {
            Some(mark) => *mark,
            None => false,
        }
    }
}

/// A task that isn't finished, and the disks that it was ever given.
#[derive(Drop)]
pub struct Planned {
    pub id: u64,
    pub kind: Kind,
    pub vid: u32,
    pub targets: TargetRow,
    pub given: DiskSet,
}

/// Whether a target is the unit of this index.
fn has_target(targets: &[Target], index: u8) -> bool
    ensures { result ≡ has_target targets.now index }
{
    targets.iter().any(|target| target.index == index)
}

/// Whether a target is to go to this disk.
fn goes_to(targets: &[Target], disk: u32) -> bool
    ensures { result ≡ goes_to targets.now disk }
{
    targets.iter().any(|target| target.disk == disk)
}

/// The first task that has this unit.
pub fn task_with(tasks: &[Planned], vid: u32, index: u8) -> Option<u64>
    ensures { result ≡ task_with tasks.now vid index }
{
    for task in tasks {
        if task.vid == vid && has_target(task.targets.as_slice(), index) {
            return Some(task.id);
        }
    }
    None
}

/// Whether a task of this volume is to move a unit to this disk.
pub fn is_aimed(tasks: &[Planned], vid: u32, disk: u32) -> bool
    ensures { result ≡ is_aimed tasks.now vid disk }
{
    for task in tasks {
        if task.vid == vid && goes_to(task.targets.as_slice(), disk) {
            return true;
        }
    }
    false
}

/// Whether there is a task of this number.
pub fn is_unfinished(tasks: &[Planned], id: u64) -> bool
    ensures { result ≡ is_unfinished tasks.now id }
{
    for task in tasks {
        if task.id == id {
            return true;
        }
    }
    false
}

/// Where the task of this number stands.
pub fn place_of(tasks: &[Planned], id: u64) -> usize
    ensures place { result ≡ place_of tasks.now id }
    ensures within { is_unfinished tasks.now id ≡ true → result < length tasks.now }
{
    for (place, task) in tasks.iter().enumerate() {
        if task.id == id {
            return place;
        }
    }
    tasks.len()
}
