//! Volumes that take puts, and volumes whose units move.

ghost use Rattle.std.specs.Prelude.{◌≡◌, ◌<◌, ◌≤◌, ◌-◌, ◌+◌, [], ℕ, length, Some, None, IfOk, IfErr, OnErr, OnOk, slice_set, slice_get, not, ◌==◌, filter};
ghost use Rattle.std.specs.List.{count_by};
ghost use Rattle.cluster_admin.specs.Picking.{can_take, candidates, fewer, fewest_from, picked, pick_fault, with_last, without_slot, without_volume, homes_after, with_moved, finish_at};
ghost use Rattle.cluster_admin.specs.Plans.{place_of};
ghost use Rattle.cluster_admin.specs.Inside.{state_of, placer_of};
ghost use Rattle.cluster_admin.specs.Refusals.{IsRefusedExactly};

use crate::admin::Admin;
use crate::fault::AdminFault;
use crate::plans::{Planned, place_of};
use crate::volumes::{DiskRow, Volume, Volumes};
use code_mode::Mode;
use unit_id::{Home, Homes};

/// The greatest bid that is ever given.
const LAST_BID: u64 = 4_611_686_018_427_387_904;

/// What a look at a volume shows: whether it is locked, and its units, each with whether its disk is
/// broken.
#[derive(Drop)]
pub struct Seen {
    pub locked: bool,
    pub units: Homes,
}

/// A volume that takes puts, and the greatest bid given in it.
#[derive(Clone, Copy)]
pub(crate) struct Candidate {
    pub vid: u32,
    pub last: u64,
}

/// How many of these units are on unbroken disks.
fn whole_units(units: &[Home]) -> usize
    ensures { result ≡ count_by (λ home. not home.broken) units.now }
{
    let mut whole = 0;
    for home in units {
        if !home.broken {
            whole += 1;
        }
    }
    whole
}

/// Whether a volume of this mode that is seen so takes puts: it isn't locked, and at least as many of
/// its units as must accept a put are on unbroken disks.
fn can_take(mode: Mode, view: &Seen) -> bool
    ensures { result ≡ can_take mode view.now }
{
    !view.locked && whole_units(view.units.as_slice()) >= mode.quorum() as usize
}

/// The one with fewer bids given, the first where both have as many.
fn fewer(best: Option<Candidate>, next: Candidate) -> Candidate
    ensures { result ≡ fewer best next }
{
    match best {
        Some(best) if next.last >= best.last => best,
        _ => next,
    }
}

/// The volume that takes the next put.
fn picked(volumes: &[Option<Volume>], views: &[Seen]) -> Option<Candidate>
    requires { length volumes.now ≤ 64 }
    ensures { result ≡ picked volumes.now views.now }
{
    let mut best = None;
    let mut seen = 0;
    for (place, slot) in volumes.iter().enumerate() {
        let Some(volume) = slot else {
            continue;
        };
        if seen >= views.len() {
            continue;
        }
        if can_take(volume.mode, &views[seen]) {
            let next = Candidate {
                vid: place as u32 + 1,
                last: volume.last,
            };
            best = Some(fewer(best, next));
        }
        seen += 1;
    }
    best
}

/// Notes the greatest bid given in a volume.
fn set_last(volumes: &mut Volumes, vid: u32, last: u64)
    ensures { volumes.new ≡ with_last volumes.old vid last }
{
    if vid == 0 || vid as usize > volumes.as_slice().len() {
        return;
    }
    let place = vid as usize - 1;
    match volumes.take(place) {
        Some(volume) => {
            let (mode, homes) = (volume.mode, volume.homes);
            volumes.set(place, Some(Volume { mode, last, homes }));
        }
        None => {}
    }
}

/// Puts units on other disks.
fn move_homes(homes: &mut DiskRow, moved: &[Home])
    ensures { homes.new ≡ homes_after homes.old moved.now }
{
    for home in moved {
        homes.set(usize::from(home.unit.index), home.disk);
    }
}

/// Puts units of a volume on other disks.
fn move_units(volumes: &mut Volumes, vid: u32, moved: &[Home])
    ensures { volumes.new ≡ with_moved volumes.old vid moved.now }
{
    if vid == 0 || vid as usize > volumes.as_slice().len() {
        return;
    }
    let place = vid as usize - 1;
    match volumes.take(place) {
        Some(volume) => {
            let mut homes = volume.homes;
            move_homes(&mut homes, moved);
            let (mode, last) = (volume.mode, volume.last);
            volumes.set(place, Some(Volume { mode, last, homes }));
        }
        None => {}
    }
}

/// Ends all tasks of a volume.
fn end_tasks(tasks: &mut Vec<Planned>, vid: u32)
    ensures { tasks.new.items ≡ filter (λ task. not (task.vid == vid)) tasks.old.items }
{
    tasks.retain(|task| task.vid != vid);
}

/// Takes a volume out.
fn end_volume(volumes: &mut Volumes, vid: u32)
    ensures { volumes.new ≡ without_slot volumes.old vid }
{
    if vid != 0 && vid as usize <= volumes.as_slice().len() {
        volumes.set(vid as usize - 1, None);
    }
}

impl Admin {
    /// Takes a volume out, with the tasks planned for it. Its number isn't given again. Takes no
    /// memory.
    pub fn lose_volume(&mut self, vid: u32)
        ensures state { state_of self.new ≡ without_volume (state_of self.old) vid }
        ensures placer { placer_of self.new ≡ placer_of self.old }
    {
        end_volume(&mut self.volumes, vid);
        end_tasks(&mut self.tasks, vid);
    }

    /// The volume for an object of so many blobs, and the bid of the first of them. There is one view
    /// of each volume, in order of number.
    ///
    /// # Errors
    /// `NoVolume` where every volume is locked or has fewer unbroken units than must accept a put,
    /// `LimitBids` where a bid of the volume would pass 2^62.
    pub fn pick_volume(&mut self, views: &[Seen], blobs: u32) -> Result<(u32, u64), AdminFault>
        ensures fault { IsRefusedExactly (pick_fault (picked (state_of self.old).volumes views.now) blobs) result }
        ensures ok { IfOk result (λ r. picked (state_of self.old).volumes views.now ≡ Some (record { vid = r.0; last = r.1 - 1 })) }
        ensures given { IfOk result (λ r. state_of self.new ≡ record (state_of self.old) { volumes = with_last (state_of self.old).volumes r.0 (r.1 - 1 + blobs) }) }
        ensures err { OnErr result (state_of self.new ≡ state_of self.old) }
        ensures placer { placer_of self.new ≡ placer_of self.old }
    {
        let Some(best) = picked(self.volumes.as_slice(), views) else {
            return Err(AdminFault::NoVolume);
        };
        if best.last > LAST_BID - u64::from(blobs) {
            return Err(AdminFault::LimitBids);
        }
        set_last(&mut self.volumes, best.vid, best.last + u64::from(blobs));
        Ok((best.vid, best.last + 1))
    }

    /// Ends an unfinished task: its units are on these disks now. Takes no memory.
    pub fn finish(&mut self, task: u64, units: &Homes)
        ensures state { state_of self.new ≡ (let place = place_of (state_of self.old).tasks task in
            finish_at (state_of self.old) place units.now (slice_get (state_of self.old).tasks place)) }
        ensures placer { placer_of self.new ≡ placer_of self.old }
    {
        let place = place_of(&self.tasks, task);
        if place < self.tasks.len() {
            let ended = self.tasks.remove(place);
            move_units(&mut self.volumes, ended.vid, units.as_slice());
        }
    }
}
