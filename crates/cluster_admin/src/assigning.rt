//! The disks of planned tasks.

ghost use Rattle.std.specs.Prelude.{◌≡◌, ◌<◌, ◌≤◌, [], ℕ, length, true, Some, IfOk, IfErr, OnErr, OnOk, map, slice_get, ◌==◌, option_map, vec_capacity};
ghost use Rattle.std.specs.List.{list_any};
ghost use Rattle.cluster_admin.specs.Placing.{Plan, IsAfter};
ghost use Rattle.cluster_admin.specs.Drawing.{AssignAnswers, aimed_at, aimed_first, answer_of, needy, set_target, target_count, task_of};
ghost use Rattle.cluster_admin.specs.Plans.{is_unfinished, place_of};
ghost use Rattle.cluster_admin.specs.Inside.{state_of, placer_of};

use crate::admin::Admin;
use crate::choosing::{choose, homes_of, stays};
use crate::disks::Disk;
use crate::fault::AdminFault;
use crate::options::options_of;
use crate::placer::Placer;
use crate::plans::{MOST_TARGETS, Planned, is_unfinished, place_of};
use crate::volumes::Volume;
use unit_id::{Bids, Target, Targets, Task};

/// Puts a target of a task in the place of another.
fn set_target(tasks: &mut [Planned], place: usize, number: usize, target: Target)
    ensures { tasks.new ≡ set_target tasks.old place number target (slice_get tasks.old place) }
{
    if place < tasks.len() {
        let task = &mut tasks[place];
        task.targets.set(number, target);
        task.given.add(target.disk);
    }
}

/// The target of this number of a task that has to be given a disk, and the task's volume.
fn needy(disks: &[Disk], tasks: &[Planned], place: usize, number: usize) -> Option<(Target, u32)>
    ensures { result ≡ needy disks.now number (slice_get tasks.now place) }
{
    if place >= tasks.len() {
        return None;
    }
    let targets = tasks[place].targets.as_slice();
    if number >= targets.len() || stays(disks, targets[number].disk) {
        return None;
    }
    Some((targets[number], tasks[place].vid))
}

/// Gives one target of a task a disk, where it needs one: 0 where there is no option.
fn aim(
    placer: &mut Box<dyn Placer>,
    disks: &[Disk],
    volumes: &[Option<Volume>],
    tasks: &mut [Planned],
    place: usize,
    number: usize,
)
    requires disks { length disks.now ≤ 64 }
    requires volumes { length volumes.now ≤ 64 }
    ensures tasks { tasks.new ≡ (aimed_at (plan placer.old) disks.now volumes.now place (record { tasks = tasks.old; shown = [] }) number).tasks }
    ensures moved { IsAfter (plan placer.old) (aimed_at (plan placer.old) disks.now volumes.now place (record { tasks = tasks.old; shown = [] }) number).shown (plan placer.new) }
{
    let Some((target, vid)) = needy(disks, tasks, place, number) else {
        return;
    };
    let options = options_of(disks, volumes, homes_of(volumes, vid), tasks, vid);
    let disk = choose(placer, options.as_slice());
    let index = target.index;
    set_target(tasks, place, number, Target { index, disk });
}

/// Gives the first targets of a task their disks, in order.
fn aim_first(
    placer: &mut Box<dyn Placer>,
    disks: &[Disk],
    volumes: &[Option<Volume>],
    tasks: &mut [Planned],
    place: usize,
    count: usize,
)
    requires disks { length disks.now ≤ 64 }
    requires volumes { length volumes.now ≤ 64 }
    ensures tasks { tasks.new ≡ (aimed_first (plan placer.old) disks.now volumes.now tasks.old place count).tasks }
    ensures moved { IsAfter (plan placer.old) (aimed_first (plan placer.old) disks.now volumes.now tasks.old place count).shown (plan placer.new) }
{
    for number in 0..count {
        aim(placer, disks, volumes, tasks, place, number);
    }
}

/// How many targets the task at a place has.
fn target_count(tasks: &[Planned], place: usize) -> usize
    ensures { result ≡ target_count (slice_get tasks.now place) }
{
    if place < tasks.len() {
        tasks[place].targets.as_slice().len()
    } else {
        0
    }
}

/// The task at a place, in a copy of its targets for which there is room, or `NoDisk` where a target
/// has none.
fn answer_of(tasks: &[Planned], place: usize, mut copy: Vec<Target>) -> Result<Task, AdminFault>
    requires empty { copy.items ≡ [] }
    requires room { 9 ≤ vec_capacity copy }
    ensures { result ≡ answer_of (slice_get tasks.now place) }
{
    if place >= tasks.len() {
        return Err(AdminFault::NoDisk);
    }
    let task = &tasks[place];
    let targets = task.targets.as_slice();
    if lacks_disk(targets) {
        return Err(AdminFault::NoDisk);
    }
    copy.extend_from_slice(targets).unwrap();
    Ok(Task {
        id: task.id,
        kind: task.kind,
        vid: task.vid,
        targets: Targets::from_vec(copy),
    })
}

/// Whether a target has no disk.
fn lacks_disk(targets: &[Target]) -> bool
    ensures { result ≡ list_any (λ target. target.disk == 0) targets.now }
{
    targets.iter().any(|target| target.disk == 0)
}

impl Admin {
    /// Gives each target of an unfinished task a disk, in order, and answers the task. A destination
    /// whose disk isn't broken, repairing or repaired stays. Any other is chosen by the placer among
    /// the disks that are normal, don't drain, hold no unit of the volume and are no destination of
    /// an unfinished task of it.
    ///
    /// # Errors
    /// `NoDisk` where a target has no option. It has disk 0 then, and all others have theirs.
    pub fn assign(&mut self, task: u64) -> Result<Task, AdminFault>
        requires { is_unfinished (state_of self.old).tasks task ≡ true }
        ensures { AssignAnswers (plan (placer_of self.old)) (state_of self.old) task result (state_of self.new) (plan (placer_of self.new)) }
    {
        let copy = Vec::with_capacity(self.alloc, MOST_TARGETS)?;
        let place = place_of(&self.tasks, task);
        let count = target_count(&self.tasks, place);
        aim_first(
            &mut self.in_use,
            self.disks.as_slice(),
            self.volumes.as_slice(),
            &mut self.tasks,
            place,
            count,
        );
        answer_of(&self.tasks, place, copy)
    }

    /// Whether a task of this number is unfinished. Takes no memory.
    pub fn is_unfinished(&self, task: u64) -> bool
        ensures { result ≡ is_unfinished (state_of self.now).tasks task }
    {
        is_unfinished(&self.tasks, task)
    }

    /// The numbers of the tasks that aren't finished, ascending. Fails only for want of memory.
    pub fn unfinished(&self) -> Result<Bids, AdminFault>
        ensures ok { IfOk result (λ numbers. numbers ≡ map (λ task. task.id) (state_of self.now).tasks) }
        ensures err { IfErr result (λ fault. fault ≡ AdminFault.Memory) }
    {
        let numbers = self.tasks.iter().map(|task| task.id).collect(self.alloc)?;
        Ok(Bids::from_vec(numbers))
    }

    /// An unfinished task as it stands: disk 0 at each target that has none. Fails only for want of
    /// memory.
    pub fn task(&self, task: u64) -> Result<Task, AdminFault>
        requires { is_unfinished (state_of self.now).tasks task ≡ true }
        ensures ok { IfOk result (λ shown. option_map task_of (slice_get (state_of self.now).tasks (place_of (state_of self.now).tasks task)) ≡ Some shown) }
        ensures err { IfErr result (λ fault. fault ≡ AdminFault.Memory) }
    {
        let found = &self.tasks[place_of(&self.tasks, task)];
        let copy = Vec::from_slice(self.alloc, found.targets.as_slice())?;
        Ok(Task {
            id: found.id,
            kind: found.kind,
            vid: found.vid,
            targets: Targets::from_vec(copy),
        })
    }
}
