//! Tasks that move units off disks.

ghost use Rattle.std.specs.Prelude.{◌≡◌, ◌<◌, ◌≤◌, ◌-◌, ◌+◌, ◌*◌, ◌^◌, not, nat_lt, ◌∷◌, ◌++◌, [], ℕ, length, map, take, drop, true, Some, None, IfOk, IfErr, OnErr, OnOk, slice_set};
ghost use Rattle.cluster_admin.specs.Planning.{reaches, movable_from, group_size, most_moved, new_task, tasks_of, tasks_in, tasks_from, new_tasks, drop_tasks, repair_tasks, repair_all_tasks, first_busy, limit_fault, IsRefusedOrMemory, balance_fault, drop_fault, repair_fault, repair_all_fault, with_tasks, with_balance, with_drop, with_repair, with_repair_all, repaired_disk};
ghost use Rattle.std.specs.Int.{div_ceil};
ghost use Rattle.std.specs.List.{list_any};
ghost use Rattle.code_mode.specs.Mode.{total_count};
ghost use Rattle.cluster_admin.specs.Disks.{is_broken};
ghost use Rattle.cluster_admin.specs.Inside.{state_of, placer_of};
ghost use Rattle.cluster_admin.specs.Refusals.{IsRefused};

use crate::admin::Admin;
use crate::disks::{Disk, DiskState, Disks, disk_at};
use crate::fault::AdminFault;
use crate::plans::{DiskSet, Planned, TargetRow, task_with};
use crate::volumes::{Volume, volume_at};
use code_mode::Mode;
use std::alloc::{AllocError, Global};
use unit_id::{Kind, Target};

/// The most tasks that are ever planned.
const MOST_TASKS: u64 = 1_000_000;

/// A disk whose units are being moved since it broke.
const REPAIRING: Disk = Disk {
    state: DiskState::Repairing,
    drains: false,
};

/// Which units are to be moved.
#[derive(Clone, Copy)]
pub(crate) enum Reach {
    /// Those on this disk.
    OnDisk(u32),
    /// Those on disks that are broken or repairing.
    OnBroken,
}

/// Whether units on a disk are to be moved.
fn reaches(disks: &[Disk], reach: Reach, disk: u32) -> bool
    ensures { result ≡ reaches disks.now reach disk }
{
    match reach {
        Reach::OnDisk(number) => number == disk,
        Reach::OnBroken => match disk_at(disks, disk) {
            Some(found) => found.is_broken(),
            None => false,
        },
    }
}

/// The indexes of the units of a volume that are to be moved and have no task.
fn movable(
    alloc: Global,
    disks: &[Disk],
    tasks: &[Planned],
    reach: Reach,
    vid: u32,
    homes: &[u32],
) -> Result<Vec<u8>, AllocError>
    requires { length homes.now ≤ 27 }
    ensures indexes { IfOk result (λ indexes. indexes.items ≡ movable_from disks.now tasks.now reach vid 0 homes.now) }
    ensures most { IfOk result (λ indexes. length indexes.items ≤ 27) }
{
    let mut indexes = Vec::new(alloc);
    for (index, home) in homes.iter().enumerate() {
        let index = index as u8;
        if reaches(disks, reach, *home) && task_with(tasks, vid, index).is_none() {
            indexes.push(index)?;
        }
    }
    Ok(indexes)
}

/// How many units a task may move at once: as many as a volume may lack.
fn most_moved(mode: Mode) -> usize
    ensures most { result ≡ most_moved mode }
    ensures bounds { (1 ≤ result) × (result ≤ 9) }
{
    (mode.quorum() - mode.n()) as usize
}

/// How many units a task of this reach moves at most.
fn group_size(reach: Reach, mode: Mode) -> usize
    ensures size { result ≡ group_size reach mode }
    ensures bounds { (1 ≤ result) × (result ≤ 9) }
{
    match reach {
        Reach::OnDisk(_) => 1,
        Reach::OnBroken => most_moved(mode),
    }
}

/// A new task for these units, none of which has a disk yet.
fn new_task(id: u64, kind: Kind, vid: u32, indexes: &[u8]) -> Planned
    requires { length indexes.now ≤ 9 }
    ensures { result ≡ new_task id kind vid indexes.now }
{
    let mut targets = TargetRow::empty();
    for index in indexes {
        targets.push(Target {
            index: *index,
            disk: 0,
        });
    }
    Planned {
        id,
        kind,
        vid,
        targets,
        given: DiskSet::empty(),
    }
}

/// Adds a task for each group of `size` of these units, numbered from `next` on.
fn add_tasks(
    fresh: &mut Vec<Planned>,
    kind: Kind,
    vid: u32,
    next: u64,
    size: usize,
    indexes: &[u8],
) -> Result<(), AllocError>
    requires size { (1 ≤ size) × (size ≤ 9) }
    requires number { (next ≤ 2 ^ 40) × (length indexes.now ≤ 27) }
    ensures added { OnOk result (fresh.new.items ≡ fresh.old.items ++ tasks_of kind vid next size indexes.now (div_ceil (length indexes.now) size)) }
    ensures few { OnOk result (length fresh.new.items ≤ length fresh.old.items + 27) }
{
    for group in 0..indexes.len().div_ceil(size) {
        let start = group * size;
        let end = (start + size).min(indexes.len());
        let task = new_task(next + group as u64, kind, vid, &indexes[start..end]);
        fresh.push(task)?;
    }
    Ok(())
}

/// Adds the tasks for the units of a volume that are to be moved, numbered from `next` on.
fn add_tasks_in(
    alloc: Global,
    fresh: &mut Vec<Planned>,
    disks: &[Disk],
    tasks: &[Planned],
    kind: Kind,
    reach: Reach,
    vid: u32,
    next: u64,
    slot: &Option<Volume>,
) -> Result<(), AllocError>
    requires { next ≤ 2 ^ 40 }
    ensures added { OnOk result (fresh.new.items ≡ fresh.old.items ++ tasks_in disks.now tasks.now kind reach vid next slot.now) }
    ensures few { OnOk result (length fresh.new.items ≤ length fresh.old.items + 27) }
{
    match slot {
        Some(volume) => {
            let homes = volume.homes.as_slice();
            let indexes = movable(alloc, disks, tasks, reach, vid, homes)?;
            let size = group_size(reach, volume.mode);
            add_tasks(fresh, kind, vid, next, size, &indexes)
        }
        None => Ok(()),
    }
}

/// The tasks for all units that are to be moved, numbered from `next` on.
fn new_tasks(
    alloc: Global,
    disks: &[Disk],
    volumes: &[Option<Volume>],
    tasks: &[Planned],
    kind: Kind,
    reach: Reach,
    next: u64,
) -> Result<Vec<Planned>, AllocError>
    requires volumes { length volumes.now ≤ 64 }
    requires number { next ≤ 2 ^ 33 }
    ensures { IfOk result (λ new. new.items ≡ tasks_from disks.now tasks.now kind reach 1 next volumes.now) }
{
    let mut fresh = Vec::new(alloc);
    for (place, slot) in volumes.iter().enumerate() {
        let vid = place as u32 + 1;
        let number = next + fresh.len() as u64;
        add_tasks_in(
            alloc, &mut fresh, disks, tasks, kind, reach, vid, number, slot,
        )?;
    }
    Ok(fresh)
}

/// Whether an index is past the units of a volume of this mode.
fn has_past(mode: Mode, indexes: &[u8]) -> bool
    ensures { result ≡ list_any (λ index. not (nat_lt index (total_count mode))) indexes.now }
{
    let total = mode.total();
    indexes.iter().any(|index| u32::from(*index) >= total)
}

/// The task of the first of these units that has one.
fn first_busy(tasks: &[Planned], vid: u32, indexes: &[u8]) -> Option<u64>
    ensures { result ≡ first_busy tasks.now vid indexes.now }
{
    for index in indexes {
        let busy = task_with(tasks, vid, *index);
        if busy.is_some() {
            return busy;
        }
    }
    None
}

/// Whether a disk is broken or repairing.
fn has_broken(disks: &[Disk]) -> bool
    ensures { result ≡ list_any (λ disk. is_broken disk.state) disks.now }
{
    disks.iter().any(|disk| disk.is_broken())
}

/// The disk, repairing if it is broken.
fn repaired_disk(disk: Disk) -> Disk
    ensures { result ≡ repaired_disk disk }
{
    if disk.is_broken() { REPAIRING } else { disk }
}

/// Lets all broken disks be repairing.
fn repair_disks(disks: &mut Disks)
    ensures { disks.new ≡ map repaired_disk disks.old }
{
    for place in 0..disks.as_slice().len() {
        let disk = disks.as_slice()[place];
        disks.set(place, repaired_disk(disk));
    }
}

impl Admin {
    /// Why these units aren't balanced.
    fn balance_fault(&self, vid: u32, indexes: &[u8]) -> Option<AdminFault>
        ensures { result ≡ balance_fault (state_of self.now) vid indexes.now }
    {
        let Some(volume) = volume_at(self.volumes.as_slice(), vid) else {
            return Some(AdminFault::NoVolume);
        };
        let most = most_moved(volume.mode);
        if has_past(volume.mode, indexes) {
            return Some(AdminFault::NoIndex);
        }
        if indexes.len() > most {
            return Some(AdminFault::TooMany { most: most as u32 });
        }
        if let Some(task) = first_busy(&self.tasks, vid, indexes) {
            return Some(AdminFault::Busy { task });
        }
        if u64::from(self.planned) + 1 > MOST_TASKS {
            return Some(AdminFault::LimitTasks);
        }
        None
    }

    /// Plans a move of units of a volume, by ascending index, to other disks. Answers the task's
    /// number.
    ///
    /// # Errors
    /// `NoVolume`; `NoIndex` where an index is past the volume's units; `TooMany` above as many units
    /// as the volume may lack; `Busy` with the task of the first unit that has one; `LimitTasks` where
    /// 1,000,000 tasks were planned.
    pub fn plan_balance(&mut self, vid: u32, indexes: &[u8]) -> Result<u64, AdminFault>
        requires { 1 ≤ length indexes.now }
        ensures fault { IsRefused (balance_fault (state_of self.old) vid indexes.now) result }
        ensures number { IfOk result (λ task. task ≡ (state_of self.old).planned + 1) }
        ensures ok { OnOk result (state_of self.new ≡ with_balance (state_of self.old) vid indexes.now) }
        ensures err { OnErr result (state_of self.new ≡ state_of self.old) }
        ensures placer { placer_of self.new ≡ placer_of self.old }
    {
        if let Some(fault) = self.balance_fault(vid, indexes) {
            return Err(fault);
        }
        let id = u64::from(self.planned) + 1;
        self.tasks.push(new_task(id, Kind::Balance, vid, indexes))?;
        self.planned += 1;
        Ok(id)
    }

    /// Plans tasks for all units that are to be moved, and answers how many.
    fn plan(&mut self, kind: Kind, reach: Reach) -> Result<u32, AdminFault>
        ensures fault { IsRefusedOrMemory (limit_fault (state_of self.old) (new_tasks (state_of self.old) kind reach)) result }
        ensures count { IfOk result (λ count. count ≡ length (new_tasks (state_of self.old) kind reach)) }
        ensures ok { OnOk result (state_of self.new ≡ with_tasks (state_of self.old) (new_tasks (state_of self.old) kind reach)) }
        ensures err { OnErr result (state_of self.new ≡ state_of self.old) }
        ensures placer { placer_of self.new ≡ placer_of self.old }
    {
        let mut fresh = new_tasks(
            self.alloc,
            self.disks.as_slice(),
            self.volumes.as_slice(),
            &self.tasks,
            kind,
            reach,
            u64::from(self.planned) + 1,
        )?;
        let count = fresh.len();
        if count > MOST_TASKS as usize || u64::from(self.planned) + count as u64 > MOST_TASKS {
            return Err(AdminFault::LimitTasks);
        }
        self.tasks.append(&mut fresh)?;
        self.planned += count as u32;
        Ok(count as u32)
    }

    /// Lets a disk drain, and plans a task for each unit on it that has none, in order of volume.
    /// Answers how many.
    ///
    /// # Errors
    /// `NoTarget` where there is no such disk, `BadState` where it isn't normal, `LimitTasks` where
    /// more than 1,000,000 tasks would have been planned.
    pub fn plan_drop(&mut self, disk: u32) -> Result<u32, AdminFault>
        ensures fault { IsRefusedOrMemory (drop_fault (state_of self.old) disk) result }
        ensures count { IfOk result (λ count. count ≡ length (drop_tasks (state_of self.old) disk)) }
        ensures ok { OnOk result (state_of self.new ≡ with_drop (state_of self.old) disk) }
        ensures err { OnErr result (state_of self.new ≡ state_of self.old) }
        ensures placer { placer_of self.new ≡ placer_of self.old }
    {
        let Some(found) = disk_at(self.disks.as_slice(), disk) else {
            return Err(AdminFault::NoTarget);
        };
        if !matches!(found.state, DiskState::Normal) {
            return Err(AdminFault::BadState { state: found.state });
        }
        let count = self.plan(Kind::Drop, Reach::OnDisk(disk))?;
        let draining = Disk {
            state: DiskState::Normal,
            drains: true,
        };
        self.disks.set(disk as usize - 1, draining);
        Ok(count)
    }

    /// Notes that a broken disk is repairing, and plans a task for each unit on it that has none, in
    /// order of volume. Answers how many.
    ///
    /// # Errors
    /// `NoTarget` where there is no such disk, `BadState` where it is neither broken nor repairing,
    /// `LimitTasks` where more than 1,000,000 tasks would have been planned.
    pub fn plan_repair(&mut self, disk: u32) -> Result<u32, AdminFault>
        ensures fault { IsRefusedOrMemory (repair_fault (state_of self.old) disk) result }
        ensures count { IfOk result (λ count. count ≡ length (repair_tasks (state_of self.old) disk)) }
        ensures ok { OnOk result (state_of self.new ≡ with_repair (state_of self.old) disk) }
        ensures err { OnErr result (state_of self.new ≡ state_of self.old) }
        ensures placer { placer_of self.new ≡ placer_of self.old }
    {
        let Some(found) = disk_at(self.disks.as_slice(), disk) else {
            return Err(AdminFault::NoTarget);
        };
        if !found.is_broken() {
            return Err(AdminFault::BadState { state: found.state });
        }
        let count = self.plan(Kind::Repair, Reach::OnDisk(disk))?;
        self.disks.set(disk as usize - 1, REPAIRING);
        Ok(count)
    }

    /// Notes of all broken disks that they are repairing, and plans tasks for the units on them that
    /// have none: in order of volume, and in each by index, as many units at once as the volume may
    /// lack. Answers how many tasks.
    ///
    /// # Errors
    /// `NoTarget` where no disk is broken or repairing, `LimitTasks` where more than 1,000,000 tasks
    /// would have been planned.
    pub fn plan_repair_all(&mut self) -> Result<u32, AdminFault>
        ensures fault { IsRefusedOrMemory (repair_all_fault (state_of self.old)) result }
        ensures count { IfOk result (λ count. count ≡ length (repair_all_tasks (state_of self.old))) }
        ensures ok { OnOk result (state_of self.new ≡ with_repair_all (state_of self.old)) }
        ensures err { OnErr result (state_of self.new ≡ state_of self.old) }
        ensures placer { placer_of self.new ≡ placer_of self.old }
    {
        if !has_broken(self.disks.as_slice()) {
            return Err(AdminFault::NoTarget);
        }
        let count = self.plan(Kind::Repair, Reach::OnBroken)?;
        repair_disks(&mut self.disks);
        Ok(count)
    }
}
