//! New volumes, and the disks of tasks.

ghost use Rattle.std.specs.Prelude.{◌≡◌, ◌<◌, ◌≤◌, ◌-◌, ◌+◌, ◌∷◌, ◌++◌, [], ℕ, List, length, true, false, Some, None, OnOk, OnErr, IfOk, IfErr};
ghost use Rattle.unit_id.specs.declared.homes.Home.{Home};
ghost use Rattle.cluster_admin.specs.Placing.{Plan, IsAfter};
ghost use Rattle.cluster_admin.specs.Drawing.{choice, shown_after, drawn, drawn_for, new_homes, with_volume, stays, homes_of};
ghost use Rattle.cluster_admin.specs.Disks.{free_count};
ghost use Rattle.cluster_admin.specs.Inside.{state_of, placer_of};
ghost use Rattle.cluster_admin.specs.NewHomes.{AreApart, AreNewHomes, IsOffered};
ghost use Rattle.cluster_admin.specs.Refusals.{IsRefusedExactly, new_volume_fault};

use crate::admin::Admin;
use crate::disks::{Disk, disk_at, free_count};
use crate::fault::AdminFault;
use crate::options::options_of;
use crate::placer::{Place, Placer};
use crate::volumes::{DiskRow, Volume, volume_at};
use code_mode::Mode;
use unit_id::{Home, Homes, UnitName};

/// The place of the option that a placer takes.
fn pick(placer: &mut Box<dyn Placer>, options: &[Place]) -> usize
    requires { 0 < length options.now }
    ensures within { result < length options.now }
    ensures picked { result ≡ plan placer.old (options.now ∷ []) }
    ensures moved { IsAfter (plan placer.old) (options.now ∷ []) (plan placer.new) }
{
    placer.choose(options)
}

/// The disk of the option that a placer takes, or 0 where there is no option.
pub fn choose(placer: &mut Box<dyn Placer>, options: &[Place]) -> u32
    ensures disk { result ≡ choice (plan placer.old) [] options.now }
    ensures offered { 0 < length options.now → IsOffered options.now result }
    ensures moved { IsAfter (plan placer.old) (shown_after [] options.now) (plan placer.new) }
{
    if options.is_empty() {
        return 0;
    }
    let place = pick(placer, options);
    options[place].disk
}

/// Whether a destination on the disk of this number is kept.
pub fn stays(disks: &[Disk], number: u32) -> bool
    ensures { result ≡ stays disks.now number }
{
    match disk_at(disks, number) {
        Some(disk) => !disk.is_bad(),
        None => false,
    }
}

/// The disks of the units of a volume, none where there is no such volume.
pub fn homes_of(volumes: &[Option<Volume>], vid: u32) -> &[u32]
    ensures { result.now ≡ homes_of volumes.now vid }
{
    match volume_at(volumes, vid) {
        Some(volume) => volume.homes.as_slice(),
        None => &[],
    }
}

/// The units of a new volume on these disks.
fn new_homes(vid: u32, disks: &[u32]) -> Homes
    requires { length disks.now ≤ 27 }
    ensures { result ≡ new_homes vid 0 disks.now }
{
    let mut homes = Homes::empty();
    for (index, disk) in disks.iter().enumerate() {
        let unit = UnitName {
            vid,
            index: index as u8,
            epoch: 1,
        };
        homes.push(Home {
            unit,
            disk: *disk,
            broken: false,
        });
    }
    homes
}

/// Lets a placer choose so many disks, one after the other, each among the free ones that it hasn't
/// chosen yet. Where at least as many are free, no two of those that it answers are one.
fn draw(
    placer: &mut Box<dyn Placer>,
    disks: &[Disk],
    volumes: &[Option<Volume>],
    count: u32,
) -> DiskRow
    requires disks { length disks.now ≤ 64 }
    requires volumes { length volumes.now ≤ 64 }
    requires count { count ≤ 27 }
    ensures row { result ≡ (drawn (plan placer.old) disks.now volumes.now count).homes }
    ensures apart { count ≤ free_count disks.now → AreApart (length disks.now) result }
    ensures moved { IsAfter (plan placer.old) (drawn (plan placer.old) disks.now volumes.now count).shown (plan placer.new) }
{
    let mut homes = DiskRow::empty();
    for _index in 0..count {
        let options = options_of(disks, volumes, homes.as_slice(), &[], 0);
        let disk = choose(placer, options.as_slice());
        homes.push(disk);
    }
    homes
}

impl Admin {
    /// Why a volume of this mode isn't made.
    fn new_volume_fault(&self, mode: Mode) -> Option<AdminFault>
        ensures { result ≡ new_volume_fault (state_of self.now) mode }
    {
        let have = free_count(self.disks.as_slice()) as u32;
        let need = mode.total();
        if self.volumes.as_slice().len() > 63 {
            Some(AdminFault::LimitVolumes)
        } else if have < need {
            Some(AdminFault::FewDisks { have, need })
        } else {
            None
        }
    }

    /// Makes a volume: gives it the next number, and each of its units a disk, no two of them the same.
    /// Answers its number and its units, in order of index, each of epoch 1. Takes no memory.
    ///
    /// # Errors
    /// `LimitVolumes` where 64 numbers were given, `FewDisks` where fewer disks than it has units are
    /// normal and don't drain.
    pub fn new_volume(&mut self, mode: Mode) -> Result<(u32, Homes), AdminFault>
        ensures fault { IsRefusedExactly (new_volume_fault (state_of self.old) mode) result }
        ensures made { IfOk result (λ made. (made.0 ≡ length (state_of self.old).volumes + 1)
            × (made.1 ≡ new_homes made.0 0 (drawn_for (plan (placer_of self.old)) (state_of self.old) mode).homes)) }
        ensures legal { IfOk result (λ made. AreNewHomes (length (state_of self.old).disks) mode made.0 made.1) }
        ensures moved { OnOk result (IsAfter (plan (placer_of self.old)) (drawn_for (plan (placer_of self.old)) (state_of self.old) mode).shown (plan (placer_of self.new))) }
        ensures ok { OnOk result (state_of self.new ≡ with_volume (state_of self.old) mode (drawn_for (plan (placer_of self.old)) (state_of self.old) mode).homes) }
        ensures err { OnErr result ((state_of self.new ≡ state_of self.old) × (placer_of self.new ≡ placer_of self.old)) }
    {
        if let Some(fault) = self.new_volume_fault(mode) {
            return Err(fault);
        }
        let homes = draw(
            &mut self.in_use,
            self.disks.as_slice(),
            self.volumes.as_slice(),
            mode.total(),
        );
        let vid = self.volumes.as_slice().len() as u32 + 1;
        let units = new_homes(vid, homes.as_slice());
        self.volumes.push(Volume {
            mode,
            last: 0,
            homes,
        });
        Ok((vid, units))
    }
}
